// How openings are changed by what the disk answered, how they end, and how their tickets are spent.
ghost use Rattle.std.specs.Prelude.{◌≡◌};
ghost use Rattle.rules.specs.Ends.{change, last_out, retire};
ghost use Rattle.rules.specs.Opens.{fail_name};
ghost use Rattle.rules.specs.Finishes.{clean_name, keep, made_blob};
ghost use Rattle.ledger.specs.Of.{state_of};
ghost use Rattle.ledger.specs.Parts.{end_file, end_state, owner_over, spend_file, spend_state, spent_state};

use super::Ledger;
use faults::Failure;
use keys::Key;
use rules::{Account, Opening, Stage};

// Whether the ticket that is being spent is the last of an opening that has ended.
fn is_last_out(opened: &Opening) -> bool
    ensures { result ≡ last_out opened.now }
{
    opened.account.stage.is_ended() && opened.account.out == 1
}

impl Ledger {
    // Keeps a failure of an opening in the entry of its name.
    pub fn fail(&mut self, key: &Key, number: u64, failure: Failure)
        ensures { state_of self.new ≡ fail_name (state_of self.old) key.now number failure }
    {
        self.names.fail(key, number, failure);
    }

    // The debt of a name has been flushed by an opening.
    pub fn clean(&mut self, key: &Key, number: u64)
        ensures { state_of self.new ≡ clean_name (state_of self.old) key.now number }
    {
        self.names.clear(key, number);
    }

    // An opening that owed is finished.
    pub fn make_blob(&mut self, number: u64)
        ensures { state_of self.new ≡ change (state_of self.old) number made_blob }
    {
        self.change(
            number,
            |account| Account {
                stage: Stage::Blob,
                ..account
            },
        );
    }

    // Keeps the first failure of an opening in its counts.
    pub fn keep(&mut self, number: u64, failure: Failure)
        ensures { state_of self.new ≡ change (state_of self.old) number (keep failure) }
    {
        self.change(number, |mut account| {
            account.tracker.poison(failure);
            account
        });
    }

    // Whether the opening that a name's entry belongs to is over, as `number` is.
    fn is_over(&self, number: u64, key: &Key) -> bool
        ensures { result ≡ owner_over (state_of self.now) number ((state_of self.now).names.at key.now) }
    {
        self.names.find(key).is_none_or(|entry| entry.opening == number
            || !self.is_live(entry.opening))
    }

    // Settles an ended opening that has no ticket out, and frees its place. The number comes beside its opening, as in the
    // rule of the same name.
    fn retire(&mut self, number: u64, opened: &Opening)
        ensures { state_of self.new ≡ retire (state_of self.old) number opened.now }
    {
        let over = self.is_over(number, &opened.key);
        self.names
            .settle(&opened.key, number, &opened.account.tracker, over);
        self.openings.free(&number);
    }

    // Ends an opening, and answers the file that is to be closed: it stays open while a ticket is out.
    pub fn end(&mut self, number: u64) -> Option<u64>
        ensures value { result ≡ end_file (state_of self.old) number }
        ensures after { state_of self.new ≡ end_state (state_of self.old) number }
    {
        let opened = self.opening(number)?;
        self.names.register(&opened.key, number);
        if opened.account.out > 0 {
            self.change(
                number,
                |account| Account {
                    stage: Stage::Ended,
                    ..account
                },
            );
            return None;
        }
        self.retire(number, &opened);
        Some(opened.account.file)
    }

    // Counts a ticket of an opening as spent, and answers the file that is to be closed.
    fn count_spent(&mut self, number: u64) -> Option<u64>
        ensures value { result ≡ spend_file (state_of self.old) number }
        ensures after { state_of self.new ≡ spent_state (state_of self.old) number }
    {
        let opened = self.opening(number)?;
        if !is_last_out(&opened) {
            self.change(
                number,
                |account| Account {
                    out: account.out.saturating_sub(1),
                    ..account
                },
            );
            return None;
        }
        self.retire(number, &opened);
        Some(opened.account.file)
    }

    // Spends a ticket of an opening, and answers the file that is to be closed: that of an ended opening whose last ticket
    // it was.
    pub fn spend(&mut self, ticket: u64, number: u64) -> Option<u64>
        ensures value { result ≡ spend_file (state_of self.old) number }
        ensures after { state_of self.new ≡ spend_state (state_of self.old) ticket number }
    {
        self.tickets.free(&ticket);
        self.count_spent(number)
    }
}
