// A file under its number. The number is stored, though it is the place's index: a rule of the project, by which one search
// serves all that has a number.
ghost use Rattle.flat.specs.Places.{number_of};

use slots::FileSlot;
use table::Keyed;

#[derive(Drop)]
pub(crate) struct Place {
    pub number: u64,
    pub file: FileSlot,
}

impl Keyed for Place {
    type Key = u64;

    ghost id = { number_of };

    fn key(&self) -> u64 {
        self.number
    }
}
