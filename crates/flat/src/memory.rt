// The flat disk: its files and its plan.
ghost use Rattle.flat.specs.Places.{meaning_of, Sound};
ghost use Rattle.flat.specs.Rows.{slots};

use crate::files::Files;
use slots::Plan;

#[derive(Drop)]
pub struct FlatDisk {
    files: Files,
    plan: Plan,
    ghost sound: { Sound (meaning_of (slots files)) },
}

pub mod requests;
