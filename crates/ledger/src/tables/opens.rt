// What an open asks of the tables, and how the next opening is admitted.
ghost use Rattle.std.specs.Prelude.{◌≡◌, if◌then◌else◌, Some, None};
ghost use Rattle.std.specs.Result.{result_err};
ghost use Rattle.rules.specs.Ends.{live};
ghost use Rattle.rules.specs.Opens.{admit, barred, new_account, new_number, room};
ghost use Rattle.rules.specs.Finishes.{has_out, unspent};
ghost use Rattle.ledger.specs.Of.{state_of};
ghost use Rattle.ledger.specs.Adds.{OpenCheck, admits, named};

use super::{ADMITTED, Ledger, NAMES, OPENINGS};
use faults::Fault;
use keys::Key;
use rules::{Account, Entry, Opening, Stage, Tracker, is_owing, waited_for};

// The bytes of a header.
const HEADER: usize = 4096;

// The account of a new opening, which owes what the entry of its name says.
fn new_account(file: u64, offset: u64, was: &Option<Entry>) -> Account
    ensures { result ≡ new_account file offset was.now }
{
    let stage = if is_owing(was) {
        Stage::Owing
    } else {
        Stage::Blob
    };
    Account {
        file,
        offset,
        stage,
        tracker: Tracker::new(),
        predecessor: waited_for(was),
        out: 0,
        hinting: true,
        flushing: false,
        mutations: 0,
        syncs: 0,
        skipped: 0,
    }
}

impl Ledger {
    // Whether an opening is there and has not ended.
    pub fn is_live(&self, number: u64) -> bool
        ensures { result ≡ live (state_of self.now) number }
    {
        self.opening(number)
            .is_some_and(|opening| !opening.account.stage.is_ended())
    }

    fn has_out(&self, number: u64) -> bool
        ensures { result ≡ has_out ((state_of self.now).openings.at number) }
    {
        self.opening(number)
            .is_some_and(|opening| opening.account.out > 0)
    }

    // Whether the opening before another, if there was one, has a ticket out.
    pub fn unspent(&self, predecessor: Option<u64>) -> bool
        ensures { result ≡ unspent (state_of self.now) predecessor }
    {
        predecessor.is_some_and(|number| self.has_out(number))
    }

    fn has_room(&self, key: &Key) -> bool
        ensures { result ≡ room (state_of self.now) key.now }
    {
        (self.names.find(key).is_some() || self.names.held() < NAMES)
            && self.openings.taken() < OPENINGS
    }

    fn admits(&self, key: &Key) -> bool
        ensures { result ≡ admits (state_of self.now) key.now }
    {
        self.has_room(key) && self.admitted < ADMITTED
    }

    // What is refused before the disk is asked.
    pub fn check_open(&self, partition: &[u8], name: &[u8], header: usize) -> Result<Key, Fault>
        ensures { OpenCheck (state_of self.now) (named partition.now name.now) header result }
    {
        let key = Key::new(partition, name)?;
        if header > HEADER {
            return Err(Fault::TooLarge);
        }
        if !self.has_room(&key) {
            return Err(Fault::Full);
        }
        if self.admitted >= ADMITTED {
            return Err(Fault::Exhausted);
        }
        Ok(key)
    }

    // Refuses an existing name whose opening has not ended, or left a failure.
    pub fn bar(&self, was: &Option<Entry>) -> Result<(), Fault>
        ensures { result_err result ≡ barred (state_of self.now) was.now }
    {
        was.map_or(Ok(()), |entry| entry.bar(self.is_live(entry.opening)))
    }

    // Admits the next opening of a name whose entry was this, where there is room for it. Nothing is changed where there
    // is not.
    pub fn admit(&mut self, key: &Key, file: u64, offset: u64, was: &Option<Entry>) -> Option<u64>
        ensures value { result ≡ (if admits (state_of self.old) key.now then Some (new_number (state_of self.old)) else None) }
        ensures after { state_of self.new ≡ (if admits (state_of self.old) key.now then admit (state_of self.old) key.now file offset was.now else state_of self.old) }
    {
        if !self.admits(key) {
            return None;
        }
        let account = new_account(file, offset, was);
        self.names.admit(key, self.admitted + 1, was).unwrap();
        self.add_opening(Opening { key: *key, account })
    }
}
