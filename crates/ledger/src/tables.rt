// How openings and tickets get their numbers, are found, changed and let go. The functions come in pairs, one on each
// of two tables. A type of table with its counter would be no plainer: each pair says its own words of the rules, so the eight
// calls would stay, a line each, over one type more.
ghost use Rattle.std.specs.Prelude.{◌≡◌, IfOk, if◌then◌else◌, Some, None};
ghost use Rattle.std.specs.Option.{option_map};
ghost use Rattle.rules.specs.State.{empty, with_account, with_opening, with_ticket};
ghost use Rattle.rules.specs.Opens.{new_number};
ghost use Rattle.rules.specs.Begins.{new_ticket};
ghost use Rattle.rules.specs.Ends.{change};
ghost use Rattle.ledger.specs.Of.{state_of};
ghost use Rattle.ledger.specs.Adds.{opening_added, opening_fits, ticket_added, ticket_fits};

pub use pending::NAMES;
use pending::Pending;
use rules::{Account, Opening, Ticket};
use std::alloc::{AllocError, Global};
use table::Table;

pub mod ends;
pub mod opens;

// Openings at once: each worker of the line has its own, and a name is rarely open twice.
pub const OPENINGS: usize = 128;

pub const TICKETS: usize = 256;

// Openings ever admitted: an opening's number is never used again.
pub const ADMITTED: u64 = 1_000_000;

#[derive(Drop)]
pub struct Ledger {
    pub names: Pending,
    openings: Table<u64, Opening, OPENINGS>,
    tickets: Table<u64, Ticket, TICKETS>,
    admitted: u64,
    given: u64,
}

impl Ledger {
    // The only call that allocates.
    pub fn new(heap: Global) -> Result<Ledger, AllocError>
        ensures { IfOk result (λ l. state_of l ≡ empty) }
    {
        let names = Pending::new(heap)?;
        let openings = Table::new(heap)?;
        let tickets = Table::new(heap)?;
        Ok(Ledger {
            names,
            openings,
            tickets,
            admitted: 0,
            given: 0,
        })
    }

    pub fn opening(&self, number: u64) -> Option<Opening>
        ensures { result ≡ (state_of self.now).openings.at number }
    {
        self.openings.get(&number)
    }

    pub fn ticket(&self, number: u64) -> Option<Ticket>
        ensures { result ≡ (state_of self.now).tickets.at number }
    {
        self.tickets.get(&number)
    }

    // Adds an opening under the next number, where there is room for it and a number.
    pub fn add_opening(&mut self, opened: Opening) -> Option<u64>
        ensures value { result ≡ (if opening_fits (state_of self.old) then Some (new_number (state_of self.old)) else None) }
        ensures after { state_of self.new ≡ (if opening_fits (state_of self.old) then opening_added (state_of self.old) opened else state_of self.old) }
    {
        if self.openings.taken() >= OPENINGS || self.admitted >= ADMITTED {
            return None;
        }
        self.admitted += 1;
        self.openings.put(&self.admitted, opened).unwrap();
        Some(self.admitted)
    }

    // Adds a ticket under the next number, where there is room for it and a number.
    pub fn add_ticket(&mut self, ticket: Ticket) -> Option<u64>
        ensures value { result ≡ (if ticket_fits (state_of self.old) then Some (new_ticket (state_of self.old)) else None) }
        ensures after { state_of self.new ≡ (if ticket_fits (state_of self.old) then ticket_added (state_of self.old) ticket else state_of self.old) }
    {
        if self.tickets.taken() >= TICKETS || self.given == u64::MAX {
            return None;
        }
        self.given += 1;
        self.tickets.put(&self.given, ticket).unwrap();
        Some(self.given)
    }

    // Changes the account of an opening that is there.
    fn change<F: FnOnce(Account) -> Account>(&mut self, number: u64, f: F)
        requires { F.IsAlwaysCallable f }
        ensures { (by : Account → Account) → ((a b : Account) → F.post f a b → b ≡ by a) → state_of self.new ≡ change (state_of self.old) number by }
    {
        if let Some(opening) = self.opening(number) {
            let account = f(opening.account);
            self.openings
                .replace(&number, Opening { account, ..opening });
        }
    }

    // Sets the account of an opening that is there; the two go beside each other, as in the rule.
    pub fn set_account(&mut self, number: u64, account: Account)
        ensures { state_of self.new ≡ with_opening (state_of self.old) number (option_map (λ o. with_account o account) ((state_of self.old).openings.at number)) }
    {
        self.change(number, |_| account);
    }

    // Changes a ticket that is there.
    pub fn set_ticket(&mut self, number: u64, ticket: Ticket)
        ensures { state_of self.new ≡ with_ticket (state_of self.old) number (option_map (λ _. ticket) ((state_of self.old).tickets.at number)) }
    {
        self.tickets.replace(&number, ticket);
    }

    pub fn free_opening(&mut self, number: u64)
        ensures { state_of self.new ≡ with_opening (state_of self.old) number None }
    {
        self.openings.free(&number);
    }

    pub fn free_ticket(&mut self, number: u64)
        ensures { state_of self.new ≡ with_ticket (state_of self.old) number None }
    {
        self.tickets.free(&number);
    }
}
