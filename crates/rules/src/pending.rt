// What a name remembers between its openings.
ghost use Rattle.std.specs.Prelude.{◌≡◌};
ghost use Rattle.std.specs.Result.{result_err};
ghost use Rattle.rules.specs.Ends.{clear, registered, settled, unless_free_if};
ghost use Rattle.rules.specs.Opens.{barred_while, waits, soiled, owes, new_entry, failing};
ghost use Rattle.rules.specs.Finishes.{cleaned};

use crate::tracker::Tracker;
use faults::{Failure, Fault};

#[derive(Clone, Copy, PartialEq, Eq, Debug)]
pub struct Entry {
    // The latest opening of the name.
    pub opening: u64,
    // A closed opening whose tickets are still out.
    pub unsettled: Option<u64>,
    // Some opening left mutations that no flush covers.
    pub dirty: bool,
    // A durability failure, until the name is forgotten.
    pub failure: Option<Failure>,
}

// The opening that a name's entry waits for.
pub fn waited_for(was: &Option<Entry>) -> Option<u64>
    ensures { result ≡ waits was.now }
{
    was.and_then(|entry| entry.unsettled)
}

fn is_soiled(was: &Option<Entry>) -> bool
    ensures { result ≡ soiled was.now }
{
    was.is_some_and(|entry| entry.dirty)
}

// Whether a new opening has to be finished before its file is trusted.
pub fn is_owing(was: &Option<Entry>) -> bool
    ensures { result ≡ owes was.now }
{
    waited_for(was).is_some() || is_soiled(was)
}

impl Entry {
    // The entry of a new opening, which takes over the debt of those before it.
    pub fn admit(opening: u64, was: &Option<Entry>) -> Entry
        ensures { result ≡ new_entry opening was.now }
    {
        Entry {
            opening,
            unsettled: waited_for(was),
            dirty: is_soiled(was),
            failure: None,
        }
    }

    // Refuses a second opening of the name while its opening has not ended, and then with the failure that is kept.
    pub fn bar(&self, lives: bool) -> Result<(), Fault>
        ensures { result_err result ≡ barred_while lives self.now }
    {
        if lives {
            return Err(Fault::BlobAlreadyOpen);
        }
        self.failure.map_or(Ok(()), |failure| Err(failure.into()))
    }

    // Whether the entry carries nothing that a later opening must observe.
    pub fn is_clear(&self) -> bool
        ensures { result ≡ clear self.now }
    {
        self.unsettled.is_none() && !self.dirty && self.failure.is_none()
    }

    // An ended opening registers while the entry is its own and no earlier opening is still settling.
    pub fn register(mut self, opening: u64) -> Entry
        ensures { result ≡ registered opening self }
    {
        if self.opening == opening {
            self.unsettled.get_or_insert(opening);
        }
        self
    }

    // Once an opening that the entry waits for has no ticket out, its debt and its failure are taken over.
    pub fn settle(mut self, opening: u64, tracker: &Tracker) -> Entry
        ensures { result ≡ settled opening tracker.now self }
    {
        if self.unsettled == Some(opening) {
            self.unsettled = None;
            self.dirty |= tracker.is_dirty();
            self.failure = tracker.failure.or(self.failure);
        }
        self
    }

    // None where nothing is left to remember: the entry is clear and its opening has ended.
    pub fn keep(self, ended: bool) -> Option<Entry>
        ensures { result ≡ unless_free_if ended self }
    {
        if self.is_clear() && ended {
            None
        } else {
            Some(self)
        }
    }

    // An opening has flushed the debt, and clears it while the entry is still its own.
    pub fn clear(mut self, opening: u64) -> Entry
        ensures { result ≡ cleaned opening self }
    {
        if self.opening == opening {
            self.dirty = false;
        }
        self
    }

    // An opening's failure is kept, while the entry is still its own, until the name is forgotten.
    pub fn fail(mut self, opening: u64, failure: Failure) -> Entry
        ensures { result ≡ failing opening failure self }
    {
        if self.opening == opening {
            self.failure = Some(failure);
        }
        self
    }
}
