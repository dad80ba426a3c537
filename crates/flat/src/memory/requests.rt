// What the flat disk is asked. Every request takes an entry of the plan first.
ghost use Rattle.std.specs.Prelude.{◌≡◌, None};
ghost use Rattle.std.proofs.Common.{sym, subst};
ghost use Rattle.disk.specs.Requests.{ask_flush_root};
ghost use Rattle.slots.specs.Views.{seen};
ghost use Rattle.flat.specs.Places.{key_in};
ghost use Rattle.flat.specs.Flat.{flat_meaning, flat_of, FlatDid};
ghost use Rattle.flat.specs.Laws;
ghost use Rattle.disk.specs.Rules.{DiskRules};
ghost use Rattle.slots.specs.Plans.{first, rest};
ghost use Rattle.flat.specs.Distinct.{small};
ghost use Rattle.flat.specs.Laws.{rules};

use super::FlatDisk;
use crate::files::Files;
use disk::{Disk, FileOffset, Path};
use faults::{FlushFault, LengthFault, OpenFault, ResizeFault, UnbindFault, WriteFault};
use keys::{Key, Partition};
use slots::{FileView, Plan};

impl FlatDisk {
    // No file, and this plan.
    pub fn new(plan: Vec<u16>) -> FlatDisk
        ensures { flat_of result ≡ record { files = λ _. None; plan = plan.items } }
    {
        FlatDisk {
            files: Files::new(),
            plan: Plan::new(plan),
        }
    }

    // There is nothing to flush in memory, so that only the plan can make it fail.
    fn flush(&mut self) -> Result<(), WriteFault>
        ensures { FlatDid self.old ask_flush_root result self.new }
    {
        Ok(self.plan.take().pass()?)
    }

    // The file of a number. To look takes no entry of the plan.
    pub fn file(&self, number: u64) -> Option<FileView<'_>>
        ensures { seen (key_in (flat_meaning self.now number)) result ≡ flat_meaning self.now number }
    {
        self.files.view(number)
    }

    // The key that the file of a number is bound to.
    pub fn key(&self, number: u64) -> Option<Key>
        ensures { result ≡ key_in (flat_meaning self.now number) }
    {
        self.files.key(number)
    }
}

impl Disk for FlatDisk {
    ghost meaning = { flat_meaning };

    ghost did = { FlatDid };

    ghost valid = { λ d. Laws.valid d.files.slots d.sound.distinct d.sound.covered };

    ghost keeps = { λ d q a e h.
        let s = flat_meaning d in
        subst (λ r. DiskRules s q r.0 r.1.files) (sym h) (rules s (small d.files.slots d.files.order) (first (rest d.plan)) q) };

    fn open(&mut self, key: &Key) -> Result<u64, OpenFault> {
        self.plan.take().pass()?;
        self.files.open(key)
    }

    fn close(&mut self, file: u64) {
        self.plan.take();
        self.files.close(file);
    }

    fn length(&mut self, file: u64) -> Result<u64, LengthFault> {
        self.plan.take().pass()?;
        self.files.length(file)
    }

    fn read(
        &mut self,
        file: u64,
        offset: FileOffset,
        into: &mut [u8],
    ) -> Result<usize, LengthFault> {
        self.plan.take().pass()?;
        self.files.read(file, offset, into)
    }

    fn write(
        &mut self,
        file: u64,
        offset: FileOffset,
        bytes: &[u8],
        path: Path,
    ) -> Result<usize, WriteFault> {
        let limit = self.plan.take().landing(bytes.len())?;
        self.files.write(file, offset, bytes, path, limit)
    }

    fn resize(&mut self, file: u64, end: FileOffset) -> Result<(), ResizeFault> {
        self.plan.take().pass()?;
        self.files.resize(file, end)
    }

    fn barrier_start(&mut self, file: u64) -> u64 {
        self.plan.take();
        self.files.landed(file)
    }

    fn barrier_end(&mut self, file: u64, mark: u64) -> Result<(), FlushFault> {
        self.plan.take().pass()?;
        self.files.reach(file, mark)
    }

    fn header(&mut self, file: u64, bytes: &[u8]) -> Result<(), WriteFault> {
        self.plan.take().pass()?;
        self.files.header(file, bytes)
    }

    fn flush_directory(&mut self, _partition: &Partition) -> Result<(), WriteFault> {
        self.flush()
    }

    fn flush_root(&mut self) -> Result<(), WriteFault> {
        self.flush()
    }

    fn unbind(&mut self, key: &Key) -> Result<(), UnbindFault> {
        self.plan.take().pass_unbind()?;
        self.files.unbind(key)
    }

    fn unbind_partition(&mut self, partition: &Partition) -> Result<(), UnbindFault> {
        self.plan.take().pass_unbind()?;
        self.files.unbind(partition)
    }
}
