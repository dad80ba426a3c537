// What a ticket stands for.
use disk::FileOffset;

// A write as it was begun; the body stays with the caller.
#[derive(Clone, Copy, PartialEq, Eq, Debug)]
pub struct Writing {
    pub offset: FileOffset,
    pub length: u64,
    pub chunks: u64,
    // Durable by itself, and not counted.
    pub fused: bool,
    // SYNC was asked.
    pub sync: bool,
    // No-cache was asked.
    pub hinted: bool,
}

#[derive(Clone, Copy, PartialEq, Eq, Debug)]
pub enum Step {
    Write(Writing),
    // The file is to end there.
    Resize(FileOffset),
    // A flush that has counted so many finished mutations.
    Flush(u64),
    // A flush that runs: what it has counted, and the barrier's mark, in the order of the rules.
    Running(u64, u64),
}

#[derive(Clone, Copy, PartialEq, Eq, Debug)]
pub struct Ticket {
    pub opening: u64,
    pub step: Step,
}
