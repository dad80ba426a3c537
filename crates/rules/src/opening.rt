// One opening of a blob.
ghost use Rattle.std.specs.Prelude.{◌≡◌};
ghost use Rattle.rules.specs.State.{is_blob, is_ended, is_owing};

use crate::tracker::Tracker;
use keys::Key;

// Whether the name has a header already.
#[derive(Clone, Copy, PartialEq, Eq, Debug)]
pub enum Mode {
    Existing,
    Fresh,
}

#[derive(Clone, Copy, PartialEq, Eq, Debug)]
pub enum Stage {
    // It has to be finished first: an earlier opening left something unflushed.
    Owing,
    // It yields a blob.
    Blob,
    // It was closed or given up, and waits for its tickets.
    Ended,
}

// Three questions, as the rules ask them; one by a value would say no more than `==`.
impl Stage {
    pub fn is_owing(self) -> bool
        ensures { result ≡ is_owing self }
    {
        matches!(self, Stage::Owing)
    }

    pub fn is_blob(self) -> bool
        ensures { result ≡ is_blob self }
    {
        matches!(self, Stage::Blob)
    }

    pub fn is_ended(self) -> bool
        ensures { result ≡ is_ended self }
    {
        matches!(self, Stage::Ended)
    }
}

// What an opening has besides its key.
#[derive(Clone, Copy, PartialEq, Eq, Debug)]
pub struct Account {
    pub file: u64,
    // Where the blob's data begin in the file.
    pub offset: u64,
    pub stage: Stage,
    pub tracker: Tracker,
    // The unsettled opening that the entry had at admission.
    pub predecessor: Option<u64>,
    // Tickets that are not spent.
    pub out: u64,
    // The no-cache hint has not been answered with "unsupported".
    pub hinting: bool,
    // One of its flushes runs.
    pub flushing: bool,
    // Mutations that were given a ticket.
    pub mutations: u64,
    // Syncs begun: skipped, or given a ticket.
    pub syncs: u64,
    pub skipped: u64,
}

// An opening: the key that it opened, and its account.
#[derive(Clone, Copy, PartialEq, Eq, Debug)]
pub struct Opening {
    pub key: Key,
    pub account: Account,
}
