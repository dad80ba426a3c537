// Why a call was refused. Each case has its number in docs/RULES.md; one that follows from a disk's fault holds it whole.
ghost use Rattle.std.specs.Prelude.{◌≡◌};
ghost use Rattle.faults.specs.Numbers.{carried, number, refusal};

use crate::disk::DiskFault;

#[derive(Clone, Copy, PartialEq, Eq, Debug)]
pub enum Fault {
    PartitionNameInvalid,
    BlobNameInvalid,
    // A header, a body or a list of lengths past its limit, or lengths that do not add up to the body.
    TooLarge,
    // No place left for a name, an opening or a ticket.
    Full,
    // No number left: openings admitted, mutations or syncs begun.
    Exhausted,
    BlobAlreadyOpen,
    OffsetOverflow,
    Io(DiskFault),
    // A submission that landed nothing.
    WriteFailed,
    BlobSyncFailed(DiskFault),
    BlobResizeFailed(DiskFault),
    ReadFailed,
    BlobMissing,
    PartitionMissing,
    BlobOpenFailed(DiskFault),
    // A flush of this opening is running.
    Flushing,
    // The predecessor of this opening has not settled.
    Unsettled,
    // A handle, an opening or a ticket that is not known here.
    Unknown,
    // Not what was begun, or not at this step.
    Mismatched,
}

impl Fault {
    // The number that the refusal is known by outside.
    pub fn number(self) -> u8
        ensures { result ≡ number self }
    {
        match self {
            Fault::PartitionNameInvalid => 1,
            Fault::BlobNameInvalid => 2,
            Fault::TooLarge => 3,
            Fault::Full => 4,
            Fault::Exhausted => 5,
            Fault::BlobAlreadyOpen => 6,
            Fault::OffsetOverflow => 7,
            Fault::Io(_) => 8,
            Fault::WriteFailed => 9,
            Fault::BlobSyncFailed(_) => 10,
            Fault::BlobResizeFailed(_) => 11,
            Fault::ReadFailed => 12,
            Fault::BlobMissing => 13,
            Fault::PartitionMissing => 14,
            Fault::BlobOpenFailed(_) => 15,
            Fault::Flushing => 16,
            Fault::Unsettled => 17,
            Fault::Unknown => 18,
            Fault::Mismatched => 19,
        }
    }

    // The disk's code, where the refusal carries one.
    pub fn code(self) -> Option<u16>
        ensures { result ≡ carried self }
    {
        match self {
            Fault::Io(fault)
            | Fault::BlobSyncFailed(fault)
            | Fault::BlobResizeFailed(fault)
            | Fault::BlobOpenFailed(fault) => Some(fault.code()),
            _ => None,
        }
    }
}

// A failure that is kept: it refuses whatever rests on what was lost, with the number and code that it was kept with.
#[derive(Clone, Copy, PartialEq, Eq, Debug)]
pub enum Failure {
    // The header of a new blob.
    Header(DiskFault),
    // A fused write that landed nothing.
    Write,
    // A barrier, or the barrier in a fused write.
    Sync(DiskFault),
}

impl From<Failure> for Fault {
    ghost from_gives = { λ k f. f ≡ refusal k };

    fn from(failure: Failure) -> Fault {
        match failure {
            Failure::Header(fault) => Fault::Io(fault),
            Failure::Write => Fault::WriteFailed,
            Failure::Sync(fault) => Fault::BlobSyncFailed(fault),
        }
    }
}
