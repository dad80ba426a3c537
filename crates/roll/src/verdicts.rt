// What became of the strips of a sheet.
use crate::refused::Refused;
use crate::sheet::STRIPS;
use faults::Fault;
use std::fmt;

#[derive(Clone, Copy, Debug, PartialEq, Eq)]
pub enum Verdict {
    Unwritten,
    // Its bytes and its origin are covered by a barrier that succeeded.
    Safe,
    Lost(Fault),
}

// One for each strip. They are written in their order, so the safe ones come first, then one that was lost, then what was
// not written.
#[derive(Clone, Copy, Debug, PartialEq, Eq)]
pub struct Verdicts(pub [Verdict; STRIPS]);

impl Verdicts {
    pub fn unwritten() -> Verdicts {
        Verdicts([Verdict::Unwritten; STRIPS])
    }

    // How many strips have this verdict.
    pub fn count(&self, verdict: Verdict) -> usize {
        self.0.iter().filter(|v| **v == verdict).count()
    }
}

impl fmt::Display for Verdicts {
    fn fmt<W: fmt::Write>(&self, f: &mut fmt::Formatter<W>) -> fmt::Result {
        let safe = self.count(Verdict::Safe);
        writeln!(
            f,
            "strips safe: {safe} of {STRIPS}, each covered by a barrier that succeeded"
        )?;
        for (number, verdict) in self.0.iter().enumerate() {
            if let Verdict::Lost(fault) = verdict {
                let refused = Refused(*fault);
                writeln!(f, "strip {number} may not be called safe: {refused}")?;
            }
        }
        let unwritten = self.count(Verdict::Unwritten);
        write!(f, "strips not written: {unwritten}")
    }
}
