// The eight files, each in the place of its number.
ghost use Rattle.flat.specs.Places.{InOrder};

use place::Place;

// Few, so that a disk without a free number is met soon.
const FILES: usize = 8;

#[derive(Drop)]
pub(crate) struct Files {
    slots: [Place; FILES],
    ghost order: { InOrder slots },
}

pub mod lookups;
pub mod place;
pub mod requests;
