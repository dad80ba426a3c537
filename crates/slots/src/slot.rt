// One file of the flat disk, in its place.
ghost use Rattle.std.specs.Prelude.{◌≡◌, ◌+◌, ◌-◌, ◌<◌, ◌≤◌, min, ◌++◌, length, take, drop, ◌||◌, is_some, None, nat_lt};
ghost use Rattle.disk.specs.Files.{with_holds, new_file};
ghost use Rattle.disk.specs.Laid.{laid};
ghost use Rattle.disk.specs.Rules.{reached};
ghost use Rattle.slots.specs.Told.{told_by, forgot};
ghost use Rattle.slots.specs.Views.{shown};
ghost use Rattle.slots.specs.FileSteps.{with_bytes, write_answer, after_write, resize_answer, after_resize, header_answer, after_header, hold_answer, after_hold};

use crate::codes::NO_ROOM;
use crate::view::FileView;
use faults::{OpenFault, ResizeFault, WriteFault};
use keys::Key;
use parts::{clear, copy_out, put};
use std::marker::Model;
use table::Tells;

pub mod parts;

// What a file may hold: a page, so that a few boundaries can be met with few bytes.
const CAPACITY: usize = 4096;

// How far a count goes: far from where a `u64` wraps, and far past what is ever asked.
const MOST: u64 = 1 << 40;

// The file's bytes are the first `len` of `bytes`; it is there while it is held or has a key. A length beside an array, since
// a disk in fixed memory allocates nothing: a `Vec` could fail to be made, and an `ArrayVec` has no write past its end that
// leaves zeros between.
#[derive(Drop)]
pub struct FileSlot {
    bytes: [u8; CAPACITY],
    len: usize,
    n: u64,
    k: u64,
    holds: u64,
    key: Option<Key>,
}

// Clauses see the file as a disk's state has it.
impl Model for FileSlot {
    ghost use Rattle.std.specs.Prelude.{◌≤◌, take};
    ghost use Rattle.disk.specs.Files.{FileState};

    ghost Value = { FileState };

    ghost view = { λ s. record { key = s.key; bytes = take s.len s.bytes; n = s.n; k = s.k; holds = s.holds } };

    ghost invariant = { λ s. (s.len ≤ 4096) × (s.k ≤ s.n) };
}

impl FileSlot {
    // A place that no file has: it is not held and has no key. No `Option` of a file, since a place is filled where it lies.
    pub fn empty() -> FileSlot
        ensures { (result.holds ≡ 0) × (result.key ≡ None) }
    {
        FileSlot {
            bytes: [0; CAPACITY],
            len: 0,
            n: 0,
            k: 0,
            holds: 0,
            key: None,
        }
    }

    // Makes a new file of the place, held once.
    pub fn claim(&mut self, key: Key)
        ensures { self.new ≡ new_file key 1 }
    {
        self.key = Some(key);
        self.len = 0;
        self.k = 0;
        self.n = 0;
        self.holds = 1;
    }

    pub fn is_there(&self) -> bool
        ensures { result ≡ (nat_lt 0 self.now.holds || is_some self.now.key) }
    {
        self.holds > 0 || self.key.is_some()
    }

    pub fn is_held(&self) -> bool
        ensures { result ≡ nat_lt 0 self.now.holds }
    {
        self.holds > 0
    }

    pub fn key(&self) -> Option<Key>
        ensures { result ≡ self.now.key }
    {
        self.key
    }

    pub fn is_told<T: Tells<Key>>(&self, by: &T) -> bool
        ensures { result ≡ told_by (T.told by.now) self.now.key }
    {
        self.key.as_ref().is_some_and(|key| by.tells(key))
    }

    // Loses its key, if that is told.
    pub fn forget<T: Tells<Key>>(&mut self, going: &T)
        ensures { self.new ≡ forgot (T.told going.now) self.old }
    {
        if self.is_told(going) {
            self.key = None;
        }
    }

    pub fn size(&self) -> u64
        ensures value { result ≡ length self.now.bytes }
        ensures bound { result ≤ 4096 }
    {
        self.content().len() as u64
    }

    fn content(&self) -> &[u8]
        ensures value { result.now ≡ self.now.bytes }
        ensures bound { length result.now ≤ 4096 }
    {
        &self.bytes[..self.len]
    }

    pub fn view(&self) -> FileView<'_>
        ensures value { shown self.now.key result ≡ self.now }
        ensures covered { result.k ≤ result.n }
        ensures bound { length result.bytes.now ≤ 4096 }
    {
        FileView {
            bytes: self.content(),
            n: self.n,
            k: self.k,
            holds: self.holds,
        }
    }

    pub fn read(&self, offset: u64, into: &mut [u8]) -> usize
        ensures value { result ≡ min (length into.old) (length self.now.bytes - offset) }
        ensures after { into.new ≡ take result (drop offset self.now.bytes) ++ drop result into.old }
        ensures bound { result ≤ 4096 }
    {
        copy_out(self.content(), offset, into)
    }

    pub fn landed(&self) -> u64
        ensures value { result ≡ self.now.n }
        ensures covered { self.now.k ≤ result }
    {
        self.n
    }

    // Lays some bytes; what lies between the end and them becomes 0.
    #[tactic(auto, using(crate::proofs::Lays::lay_is))]
    fn lay(&mut self, at: usize, bytes: &[u8])
        requires { (0 < length bytes.now) × (at + length bytes.now ≤ 4096) }
        ensures { self.new ≡ with_bytes self.old (laid self.old.bytes at bytes.now) }
    {
        let end = at + bytes.len();
        clear(&mut self.bytes, self.len, at);
        put(&mut self.bytes, at, bytes);
        self.len = self.len.max(end);
    }

    // Lands what fits of the bytes, and at most `limit` of them.
    pub fn write(
        &mut self,
        offset: u64,
        bytes: &[u8],
        durable: bool,
        limit: usize,
    ) -> Result<usize, WriteFault>
        ensures value { result ≡ write_answer offset (length bytes.now) durable limit self.old }
        ensures after { self.new ≡ after_write offset bytes.now durable self.old result }
    {
        let at = offset as usize;
        let fits = bytes.len().min(CAPACITY.saturating_sub(at));
        if !bytes.is_empty() && fits == 0 {
            return Err(NO_ROOM.into());
        }
        let count = fits.min(limit);
        if count == 0 {
            return Ok(0);
        }
        if !durable && self.n >= MOST {
            return Err(NO_ROOM.into());
        }
        self.lay(at, &bytes[..count]);
        if !durable {
            self.n += 1;
        }
        Ok(count)
    }

    #[tactic(auto, using(crate::proofs::Lays::size_is))]
    pub fn resize(&mut self, end: u64) -> Result<(), ResizeFault>
        ensures value { result ≡ resize_answer «end» self.old }
        ensures after { self.new ≡ after_resize «end» self.old result }
    {
        let len = end as usize;
        if len > CAPACITY || self.n >= MOST {
            return Err(NO_ROOM.into());
        }
        clear(&mut self.bytes, self.len, len);
        self.len = len;
        self.n += 1;
        Ok(())
    }

    // The bytes become the header's, and all that has landed is covered.
    pub fn header(&mut self, bytes: &[u8]) -> Result<(), WriteFault>
        ensures value { result ≡ header_answer (length bytes.now) self.old }
        ensures after { self.new ≡ after_header bytes.now self.old result }
    {
        if bytes.len() > CAPACITY || self.n >= MOST {
            return Err(NO_ROOM.into());
        }
        put(&mut self.bytes, 0, bytes);
        self.len = bytes.len();
        self.n += 1;
        self.k = self.n;
        Ok(())
    }

    // What had landed at the mark is covered.
    pub fn reach(&mut self, mark: u64)
        ensures { self.new ≡ reached self.old mark }
    {
        self.k = self.k.max(mark.min(self.n));
    }

    // Adds a hold, unless there are too many.
    pub fn hold(&mut self) -> Result<(), OpenFault>
        ensures value { result ≡ hold_answer self.old }
        ensures after { self.new ≡ after_hold self.old result }
    {
        if self.holds >= MOST {
            return Err(NO_ROOM.into());
        }
        self.holds += 1;
        Ok(())
    }

    // Takes a hold off, where there is one.
    pub fn release(&mut self)
        ensures { self.new ≡ with_holds self.old (self.old.holds - 1) }
    {
        self.holds = self.holds.saturating_sub(1);
    }
}
