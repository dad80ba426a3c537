// Places in a blob and places in its file. They are apart by as much as the header takes, so neither stands for the other.
ghost use Rattle.std.specs.Prelude.{◌≡◌, ◌+◌, ◌^◌, ◌≤◌, MatchResult};
ghost use Rattle.faults.specs.declared.store.Fault.TheVariants.{OffsetOverflow};

use faults::Fault;
use std::marker::Model;

// Two types and not one with a kind: each has the one conversion that the other must not have.

// A place in a blob's data.
#[derive(Clone, Copy, PartialEq, Eq, PartialOrd, Ord, Debug)]
pub struct BlobOffset(u64);

// A place in a file.
#[derive(Clone, Copy, PartialEq, Eq, PartialOrd, Ord, Debug)]
pub struct FileOffset(u64);

// Clauses see the number of each.
impl Model for BlobOffset {
    ghost use Rattle.std.specs.Prelude.{ℕ};

    ghost Value = { ℕ };

    ghost view = { λ o. o.0 };

    ghost inverse = { λ n. record { 0 = n } };
}

impl Model for FileOffset {
    ghost use Rattle.std.specs.Prelude.{ℕ};

    ghost Value = { ℕ };

    ghost view = { λ o. o.0 };

    ghost inverse = { λ n. record { 0 = n } };
}

impl From<u64> for BlobOffset {
    ghost from_gives = { λ n o. o ≡ n };

    fn from(place: u64) -> BlobOffset {
        BlobOffset(place)
    }
}

impl From<FileOffset> for u64 {
    ghost from_gives = { λ o n. n ≡ o };

    fn from(offset: FileOffset) -> u64 {
        offset.0
    }
}

impl BlobOffset {
    // The place in the file of a blob whose data begin at `data_offset`: the one way across.
    pub fn in_file(self, data_offset: u64) -> Result<FileOffset, Fault>
        ensures { MatchResult result (λ f. f ≡ self + data_offset) (λ f. (2 ^ 64 ≤ self + data_offset) × (f ≡ OffsetOverflow)) }
    {
        let place = self
            .0
            .checked_add(data_offset)
            .ok_or(Fault::OffsetOverflow)?;
        Ok(FileOffset(place))
    }
}
