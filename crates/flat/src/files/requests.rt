// What each request does to the files, once the plan has let it by. A file is lent from the places by themselves, since the
// borrow checker lends no element of an array whose struct has a ghost field.
ghost use Rattle.std.specs.Prelude.{◌≡◌, length, take, drop, None};
ghost use Rattle.keys.specs.KeyName.{same_key};
ghost use Rattle.disk.specs.Paths.{durable};
ghost use Rattle.disk.specs.Requests.{read_out, Spares};
ghost use Rattle.slots.specs.FileSteps.{held, write_answer, after_write, resize_answer, after_resize, header_answer, after_header, end_answer, after_end};
ghost use Rattle.faults.specs.Kinds.{failed};
ghost use Rattle.flat.specs.Places.{meaning_of};
ghost use Rattle.flat.specs.Steps.{asked, edited, close, mark_of, open_by, unbind, first_bound};

use super::Files;
use super::place::Place;
use disk::{FileOffset, Path};
use faults::{FlushFault, LengthFault, OpenFault, ResizeFault, UnbindFault, WriteFault};
use keys::Key;
use slots::FileSlot;
use slots::codes::{NO_ROOM, NOT_BOUND};
use std::array;
use table::Tells;

impl Files {
    pub(crate) fn new() -> Files
        ensures { meaning_of result.slots ≡ (λ _. None) }
    {
        Files {
            slots: array::from_fn(|i| Place {
                number: i as u64,
                file: FileSlot::empty(),
            }),
        }
    }

    // The file of the key with one hold more, or a new one at the lowest number that is free.
    #[tactic(auto, using(crate::specs::RowsLemmas::order_set, crate::specs::Lifts::opens_bound, crate::specs::Lifts::opens_new))]
    pub(crate) fn open(&mut self, key: &Key) -> Result<u64, OpenFault>
        ensures { (result, meaning_of self.new.slots) ≡ open_by (meaning_of self.old.slots) key.now (first_bound (same_key key.now) (meaning_of self.old.slots)) }
    {
        if let Some(i) = self.bound(key) {
            let slots = &mut self.slots;
            slots[i].file.hold()?;
            return Ok(i as u64);
        }
        let i = self.free().ok_or(NO_ROOM)?;
        let slots = &mut self.slots;
        slots[i].file.claim(*key);
        Ok(i as u64)
    }

    #[tactic(auto, using(crate::specs::RowsLemmas::order_set, crate::specs::Lifts::closes))]
    pub(crate) fn close(&mut self, file: u64)
        ensures { meaning_of self.new.slots ≡ close (meaning_of self.old.slots) file (held (meaning_of self.old.slots file)) }
    {
        if let Ok(i) = self.held(file) {
            let slots = &mut self.slots;
            slots[i].file.release();
        }
    }

    #[tactic(auto, using(crate::specs::Lifts::asks))]
    pub(crate) fn length(&self, file: u64) -> Result<u64, LengthFault>
        ensures { result ≡ asked failed (held (meaning_of self.now.slots file)) (λ x. length x.bytes) }
    {
        let i = self.held(file)?;
        Ok(self.slots[i].file.size())
    }

    pub(crate) fn read(
        &self,
        file: u64,
        offset: FileOffset,
        into: &mut [u8],
    ) -> Result<usize, LengthFault>
        ensures answer { read_out result into.new ≡ asked failed (held (meaning_of self.now.slots file)) (λ x. take (length into.old) (drop offset x.bytes)) }
        ensures spares { Spares result into.old into.new }
    {
        let i = self.held(file)?;
        Ok(self.slots[i].file.read(offset.into(), into))
    }

    #[tactic(auto, using(crate::specs::RowsLemmas::order_set))]
    pub(crate) fn write(
        &mut self,
        file: u64,
        offset: FileOffset,
        bytes: &[u8],
        path: Path,
        limit: usize,
    ) -> Result<usize, WriteFault>
        ensures { (result, meaning_of self.new.slots) ≡ edited failed (meaning_of self.old.slots) file (held (meaning_of self.old.slots file)) (write_answer offset (length bytes.now) (durable path) limit) (after_write offset bytes.now (durable path)) }
    {
        let i = self.held(file)?;
        let slots = &mut self.slots;
        slots[i]
            .file
            .write(offset.into(), bytes, path.is_durable(), limit)
    }

    #[tactic(auto, using(crate::specs::RowsLemmas::order_set, crate::specs::Lifts::edits, crate::specs::Keeps::keeps_resize))]
    pub(crate) fn resize(&mut self, file: u64, end: FileOffset) -> Result<(), ResizeFault>
        ensures { (result, meaning_of self.new.slots) ≡ edited failed (meaning_of self.old.slots) file (held (meaning_of self.old.slots file)) (resize_answer «end») (after_resize «end») }
    {
        let i = self.held(file)?;
        let slots = &mut self.slots;
        slots[i].file.resize(end.into())
    }

    #[tactic(auto, using(crate::specs::RowsLemmas::order_set, crate::specs::Lifts::edits, crate::specs::Keeps::keeps_header))]
    pub(crate) fn header(&mut self, file: u64, bytes: &[u8]) -> Result<(), WriteFault>
        ensures { (result, meaning_of self.new.slots) ≡ edited failed (meaning_of self.old.slots) file (held (meaning_of self.old.slots file)) (header_answer (length bytes.now)) (after_header bytes.now) }
    {
        let i = self.held(file)?;
        let slots = &mut self.slots;
        slots[i].file.header(bytes)
    }

    // The mark of a file, or 0 where it is not held: a request for a mark has no way to refuse.
    #[tactic(auto, using(crate::specs::Lifts::marks))]
    pub(crate) fn landed(&self, file: u64) -> u64
        ensures { result ≡ mark_of (held (meaning_of self.now.slots file)) }
    {
        match self.held(file) {
            Ok(i) => self.slots[i].file.landed(),
            Err(_) => 0,
        }
    }

    #[tactic(auto, using(crate::specs::RowsLemmas::order_set, crate::specs::Lifts::edits))]
    pub(crate) fn reach(&mut self, file: u64, mark: u64) -> Result<(), FlushFault>
        ensures { (result, meaning_of self.new.slots) ≡ edited failed (meaning_of self.old.slots) file (held (meaning_of self.old.slots file)) end_answer (after_end mark) }
    {
        let i = self.held(file)?;
        let slots = &mut self.slots;
        slots[i].file.reach(mark);
        Ok(())
    }

    // Takes every key that is told, or says that there is none.
    #[tactic(auto, using(crate::specs::Lifts::unbinds))]
    pub(crate) fn unbind<T: Tells<Key>>(&mut self, going: &T) -> Result<(), UnbindFault>
        ensures { (result, meaning_of self.new.slots) ≡ unbind (T.told going.now) (meaning_of self.old.slots) (first_bound (T.told going.now) (meaning_of self.old.slots)) }
    {
        self.bound(going).ok_or(NOT_BOUND)?;
        self.forget(going);
        Ok(())
    }
}
