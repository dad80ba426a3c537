// A disk, by what it is asked and what it answers.
#![tactic(auto)]

ghost use Rattle.std.specs.Prelude.{length};
ghost use Rattle.disk.specs.Files.{DiskState, Valid};
ghost use Rattle.disk.specs.Requests.{Request, Answer, ask_open, ask_close, ask_length, ask_read, ask_write, ask_resize, ask_start, ask_end, ask_header, ask_flush_directory, ask_flush_root, ask_unbind, ask_unbind_partition, read_out, Spares};
ghost use Rattle.disk.specs.Rules.{DiskRules};

pub mod offset;
pub mod pages;
pub mod path;

use faults::{FlushFault, LengthFault, OpenFault, ResizeFault, UnbindFault, WriteFault};
use keys::{Key, Partition};
pub use offset::{BlobOffset, FileOffset};
pub use path::Path;

// What is promised of every request, on success and on fault, is one relation: the law `keeps` says that it follows the
// rules. Code over any disk can establish `did` only by asking, so that a chain of it says what was asked, in which order.
pub trait Disk {
    // What the disk stands for.
    ghost meaning: { Self → DiskState };

    // This disk, asked this, gave this answer and became that disk.
    ghost did: { Self → (q : Request) → Answer q → Self → Type 0 };

    // The file of a key, a new one if it has none, with one hold more.
    fn open(&mut self, key: &Key) -> Result<u64, OpenFault>
        ensures { did self.old (ask_open key.now) result self.new };

    // One hold less.
    fn close(&mut self, file: u64)
        ensures { did self.old (ask_close file) result self.new };

    fn length(&mut self, file: u64) -> Result<u64, LengthFault>
        ensures { did self.old (ask_length file) result self.new };

    // The bytes from an offset on, up to the end or the room given, whose rest is left alone.
    fn read(&mut self, file: u64, offset: FileOffset, into: &mut [u8]) -> Result<usize, LengthFault>
        ensures answer { did self.old (ask_read file offset (length into.old)) (read_out result into.new) self.new }
        ensures spares { Spares result into.old into.new };

    // Lands some first bytes of those given, and says how many.
    fn write(
        &mut self,
        file: u64,
        offset: FileOffset,
        bytes: &[u8],
        path: Path,
    ) -> Result<usize, WriteFault>
        ensures { did self.old (ask_write file offset bytes.now path) result self.new };

    // Cuts the file, or extends it with zeros, to end at an offset.
    fn resize(&mut self, file: u64, end: FileOffset) -> Result<(), ResizeFault>
        ensures { did self.old (ask_resize file end) result self.new };

    // A mark of what has landed.
    fn barrier_start(&mut self, file: u64) -> u64
        ensures { did self.old (ask_start file) result self.new };

    // What had landed at the mark is covered.
    fn barrier_end(&mut self, file: u64, mark: u64) -> Result<(), FlushFault>
        ensures { did self.old (ask_end file mark) result self.new };

    // The file's bytes become the header's, and are covered.
    fn header(&mut self, file: u64, bytes: &[u8]) -> Result<(), WriteFault>
        ensures { did self.old (ask_header file bytes.now) result self.new };

    fn flush_directory(&mut self, partition: &Partition) -> Result<(), WriteFault>
        ensures { did self.old (ask_flush_directory partition.now) result self.new };

    fn flush_root(&mut self) -> Result<(), WriteFault>
        ensures { did self.old ask_flush_root result self.new };

    fn unbind(&mut self, key: &Key) -> Result<(), UnbindFault>
        ensures { did self.old (ask_unbind key.now) result self.new };

    fn unbind_partition(&mut self, partition: &Partition) -> Result<(), UnbindFault>
        ensures { did self.old (ask_unbind_partition partition.now) result self.new };

    ghost valid: { (d : Self) → Valid (meaning d) };

    ghost keeps: { (d : Self) (q : Request) (a : Answer q) (e : Self) → did d q a e → DiskRules (meaning d) q a (meaning e) };
}

#[cfg(test)]
mod tests;
