// The plan: entries that steer one request each, from the next on, and then 0 for ever.
ghost use Rattle.std.specs.Prelude.{◌≡◌, drop};
ghost use Rattle.std.specs.Result.{result_err};
ghost use Rattle.slots.specs.Plans.{rest, first, planned, planned_unbind, landing};

use crate::codes::{EINTR, ENOENT};
use faults::DiskFault;
use std::marker::Model;
use std::vec::IntoIter;

// Entries below this are codes of faults; from it on they say how many bytes a write lands.
const LANDINGS: u16 = 4096;

// What an entry plans for the request that takes it. A number and no enum: a rule of the project, by which a plan is a list of
// 16-bit numbers; each request reads them its own way.
#[derive(Clone, Copy, PartialEq, Eq, Debug)]
pub struct Planned(u16);

// Clauses see its number.
impl Model for Planned {
    ghost use Rattle.std.specs.Prelude.{ℕ};

    ghost Value = { ℕ };

    ghost view = { λ e. e.0 };

    ghost inverse = { λ n. record { 0 = n } };
}

impl From<Planned> for u16 {
    ghost from_gives = { λ e n. n ≡ e };

    fn from(planned: Planned) -> u16 {
        planned.0
    }
}

impl Planned {
    // Lets a request by that is no write and unbinds nothing, unless a fault is planned for it.
    pub fn pass(self) -> Result<(), DiskFault>
        ensures { result_err result ≡ planned self }
    {
        match self.0 {
            0 | EINTR | LANDINGS.. => Ok(()),
            code => Err(DiskFault::Code(code)),
        }
    }

    // The same for an unbinding, which says itself where nothing is bound.
    pub fn pass_unbind(self) -> Result<(), DiskFault>
        ensures { result_err result ≡ planned_unbind self }
    {
        match self.0 {
            ENOENT => Ok(()),
            _ => self.pass(),
        }
    }

    // Lets a write by, and says how many of `len` bytes it may land, unless a fault is planned for it.
    pub fn landing(self, len: usize) -> Result<usize, DiskFault>
        ensures { result ≡ landing self len }
    {
        match self.0 {
            0 => Ok(len),
            entry @ LANDINGS.. => Ok(usize::from(entry - LANDINGS)),
            code => Err(DiskFault::Code(code)),
        }
    }
}

#[derive(Drop)]
pub struct Plan {
    entries: IntoIter<u16>,
}

impl Plan {
    pub fn new(entries: Vec<u16>) -> Plan
        ensures { rest result ≡ entries.items }
    {
        Plan {
            entries: entries.into_iter(),
        }
    }

    // Takes the next entry.
    pub fn take(&mut self) -> Planned
        ensures value { result ≡ first (rest self.old) }
        ensures rest { rest self.new ≡ drop 1 (rest self.old) }
    {
        Planned(self.entries.next().unwrap_or(0))
    }
}
