// A disk that counts what it is asked.
ghost use Rattle.std.specs.Prelude.{◌≡◌};

use disk::{Disk, FileOffset, Path};
use faults::{FlushFault, LengthFault, OpenFault, ResizeFault, UnbindFault, WriteFault};
use keys::{Key, Partition};
use std::fmt;

// How often a disk was asked, by kind of request: those that a job makes.
#[derive(Clone, Copy, Default, Debug, PartialEq, Eq)]
pub struct Asked {
    opens: u32,
    closes: u32,
    lengths: u32,
    headers: u32,
    flushes: u32,
    writes: u32,
    reads: u32,
    starts: u32,
    ends: u32,
}

impl fmt::Display for Asked {
    fn fmt<W: fmt::Write>(&self, f: &mut fmt::Formatter<W>) -> fmt::Result {
        writeln!(
            f,
            "requests: open {}, close {}, length {}",
            self.opens, self.closes, self.lengths
        )?;
        writeln!(
            f,
            "requests: header {}, flush {}, write {}",
            self.headers, self.flushes, self.writes
        )?;
        write!(
            f,
            "requests: read {}, barrier start {}, barrier end {}",
            self.reads, self.starts, self.ends
        )
    }
}

// One more, up to the largest count.
pub fn count(n: &mut u32) {
    *n = n.saturating_add(1);
}

// Any disk, and how often it was asked.
#[derive(Drop)]
pub struct Counted<D> {
    disk: D,
    asked: Asked,
}

impl<D: Disk> Counted<D> {
    pub fn new(disk: D) -> Counted<D>
        ensures { ⟦<Counted<D> as Disk>⟧.meaning result ≡ D.meaning disk }
    {
        Counted {
            disk,
            asked: Asked::default(),
        }
    }

    pub fn asked(&self) -> Asked {
        self.asked
    }
}

// It stands for the disk within, and does what that does.
impl<D: Disk> Disk for Counted<D> {
    ghost meaning = { λ d. D.meaning d.disk };

    ghost did = { λ d q a e. D.did d.disk q a e.disk };

    ghost valid = { λ d. D.valid d.disk };

    ghost keeps = { λ d q a e h. D.keeps d.disk q a e.disk h };

    fn open(&mut self, key: &Key) -> Result<u64, OpenFault> {
        count(&mut self.asked.opens);
        self.disk.open(key)
    }

    fn close(&mut self, file: u64) {
        count(&mut self.asked.closes);
        self.disk.close(file);
    }

    fn length(&mut self, file: u64) -> Result<u64, LengthFault> {
        count(&mut self.asked.lengths);
        self.disk.length(file)
    }

    fn read(
        &mut self,
        file: u64,
        offset: FileOffset,
        into: &mut [u8],
    ) -> Result<usize, LengthFault> {
        count(&mut self.asked.reads);
        self.disk.read(file, offset, into)
    }

    fn write(
        &mut self,
        file: u64,
        offset: FileOffset,
        bytes: &[u8],
        path: Path,
    ) -> Result<usize, WriteFault> {
        count(&mut self.asked.writes);
        self.disk.write(file, offset, bytes, path)
    }

    fn resize(&mut self, file: u64, end: FileOffset) -> Result<(), ResizeFault> {
        self.disk.resize(file, end)
    }

    fn barrier_start(&mut self, file: u64) -> u64 {
        count(&mut self.asked.starts);
        self.disk.barrier_start(file)
    }

    fn barrier_end(&mut self, file: u64, mark: u64) -> Result<(), FlushFault> {
        count(&mut self.asked.ends);
        self.disk.barrier_end(file, mark)
    }

    fn header(&mut self, file: u64, bytes: &[u8]) -> Result<(), WriteFault> {
        count(&mut self.asked.headers);
        self.disk.header(file, bytes)
    }

    fn flush_directory(&mut self, partition: &Partition) -> Result<(), WriteFault> {
        count(&mut self.asked.flushes);
        self.disk.flush_directory(partition)
    }

    fn flush_root(&mut self) -> Result<(), WriteFault> {
        count(&mut self.asked.flushes);
        self.disk.flush_root()
    }

    fn unbind(&mut self, key: &Key) -> Result<(), UnbindFault> {
        self.disk.unbind(key)
    }

    fn unbind_partition(&mut self, partition: &Partition) -> Result<(), UnbindFault> {
        self.disk.unbind_partition(partition)
    }
}
