// The job on any disk: strip, origin, barrier, and the next strip from the origin that is read back.
use crate::open_sheet::{Met, OpenSheet};
use crate::sheet::{advance, contour};
use crate::verdicts::{Verdict, Verdicts};
use disk::Disk;
use faults::Fault;
use keys::Key;
use std::fmt;

// Whether the strips that are read back are those that were called safe, with their origins.
#[derive(Clone, Copy, Debug, PartialEq, Eq)]
pub enum Grid {
    Meets,
    Misses,
}

impl fmt::Display for Grid {
    fn fmt<W: fmt::Write>(&self, f: &mut fmt::Formatter<W>) -> fmt::Result {
        match self {
            Grid::Meets => write!(f, "the grid meets the contours"),
            Grid::Misses => write!(f, "the grid does not meet the contours"),
        }
    }
}

#[derive(Drop)]
pub struct Job<D> {
    pub disk: D,
    pub met: Met,
    pub verdicts: Verdicts,
    pub origin: u64,
}

impl<D: Disk> Job<D> {
    pub fn new(disk: D) -> Job<D> {
        Job {
            disk,
            met: Met::default(),
            verdicts: Verdicts::unwritten(),
            origin: 0,
        }
    }

    // A new sheet, with as many strips as the disk takes before it loses one.
    pub fn make(&mut self, key: &Key) -> Result<(), Fault> {
        let mut sheet = OpenSheet::create(&mut self.disk, &mut self.met, key)?;
        for (number, verdict) in self.verdicts.0.iter_mut().enumerate() {
            if let Err(fault) = sheet.make_strip(number, self.origin) {
                *verdict = Verdict::Lost(fault);
                break;
            }
            *verdict = Verdict::Safe;
            self.origin = sheet.read_origin(number)?;
        }
        sheet.close();
        Ok(())
    }

    // Opens the sheet again, and reads back every strip that was called safe.
    pub fn check(&mut self, key: &Key) -> Result<Grid, Fault> {
        let mut sheet = OpenSheet::open(&mut self.disk, &mut self.met, key)?;
        let mut origin: u64 = 0;
        for number in 0..self.verdicts.count(Verdict::Safe) {
            let strip = sheet.read_strip(number)?;
            origin = origin.saturating_add(advance(&strip));
            if strip != contour(number) || sheet.read_origin(number)? != origin {
                return Ok(Grid::Misses);
            }
        }
        sheet.close();
        if origin == self.origin {
            Ok(Grid::Meets)
        } else {
            Ok(Grid::Misses)
        }
    }
}
