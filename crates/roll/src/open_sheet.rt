// A sheet that is open on a disk: its strips are written, covered and read back.
use crate::counted::count;
use crate::sheet::{HEADER, ORIGIN, STRIP, advance, contour, origin_place, strip_place};
use disk::{BlobOffset, Disk, FileOffset, Path};
use faults::Fault;
use keys::Key;
use std::fmt;

// Interruptions of one write before it is given up.
const PATIENCE: u8 = 64;

// Interrupted by a signal: nothing was written.
pub const EINTR: u16 = 4;

// The faults that a sheet met.
#[derive(Clone, Copy, Default, Debug, PartialEq, Eq)]
pub struct Met {
    short: u32,
    interrupted: u32,
    barriers: u32,
}

impl fmt::Display for Met {
    fn fmt<W: fmt::Write>(&self, f: &mut fmt::Formatter<W>) -> fmt::Result {
        writeln!(
            f,
            "faults: {} short writes went on, {} interrupted writes were asked again",
            self.short, self.interrupted
        )?;
        write!(
            f,
            "faults: {} barriers failed and were not asked again",
            self.barriers
        )
    }
}

#[derive(Drop)]
pub struct OpenSheet<'d, D> {
    disk: &'d mut D,
    file: u64,
    met: &'d mut Met,
}

impl<'d, D: Disk> OpenSheet<'d, D> {
    // A new sheet. Its name is durable before its header is laid.
    pub fn create(disk: &'d mut D, met: &'d mut Met, key: &Key) -> Result<Self, Fault> {
        let file = disk.open(key)?;
        disk.flush_directory(key.partition())?;
        disk.flush_root()?;
        disk.header(file, &HEADER)?;
        disk.length(file)?;
        Ok(OpenSheet { disk, file, met })
    }

    // The sheet that was made under this key.
    pub fn open(disk: &'d mut D, met: &'d mut Met, key: &Key) -> Result<Self, Fault> {
        let file = disk.open(key)?;
        Ok(OpenSheet { disk, file, met })
    }

    pub fn close(self) {
        let OpenSheet { disk, file, .. } = self;
        disk.close(file);
    }

    // The strip and the origin of the next, and then the barrier that makes them safe.
    pub fn make_strip(&mut self, number: usize, origin: u64) -> Result<(), Fault> {
        let strip = contour(number);
        let next = origin.saturating_add(advance(&strip));
        self.write(strip_place(number), &strip)?;
        self.write(origin_place(number), &next.to_be_bytes())?;
        self.flush()
    }

    pub fn read_strip(&mut self, number: usize) -> Result<[u8; STRIP], Fault> {
        let mut strip = [0; STRIP];
        self.read(strip_place(number), &mut strip)?;
        Ok(strip)
    }

    // The origin of the next strip, as it stands behind this one.
    pub fn read_origin(&mut self, number: usize) -> Result<u64, Fault> {
        let mut origin = [0; ORIGIN];
        self.read(origin_place(number), &mut origin)?;
        Ok(u64::from_be_bytes(origin))
    }

    // Writes all the bytes: a short write goes on where it ended, an interrupted one is asked again. A `for` or a
    // chain would be no plainer: each turn goes by what the disk landed, and gives up by how often it was interrupted.
    fn write(&mut self, mut place: u64, mut rest: &[u8]) -> Result<(), Fault> {
        let mut patience = PATIENCE;
        while !rest.is_empty() {
            let offset = in_file(place)?;
            match self.disk.write(self.file, offset, rest, Path::Single) {
                Ok(0) => return Err(Fault::WriteFailed),
                Ok(landed) => {
                    place = place.saturating_add(landed as u64);
                    rest = &rest[landed.min(rest.len())..];
                    if !rest.is_empty() {
                        count(&mut self.met.short);
                    }
                }
                Err(fault) if fault.0.code() == EINTR && patience > 0 => {
                    patience -= 1;
                    count(&mut self.met.interrupted);
                }
                Err(fault) => return Err(fault.into()),
            }
        }
        Ok(())
    }

    // A failed barrier is not asked again: what it lost, the next one would not find.
    fn flush(&mut self) -> Result<(), Fault> {
        let mark = self.disk.barrier_start(self.file);
        let covered = self.disk.barrier_end(self.file, mark);
        if covered.is_err() {
            count(&mut self.met.barriers);
        }
        Ok(covered?)
    }

    // Fills the room, or fails where the file is too short for it.
    fn read(&mut self, place: u64, into: &mut [u8]) -> Result<(), Fault> {
        let offset = in_file(place)?;
        let room = into.len();
        if self.disk.read(self.file, offset, into)? != room {
            return Err(Fault::ReadFailed);
        }
        Ok(())
    }
}

// The data of a sheet begin behind its header.
fn in_file(place: u64) -> Result<FileOffset, Fault> {
    BlobOffset::from(place).in_file(HEADER.len() as u64)
}
