// What can be asked of an opening.
ghost use Rattle.std.specs.Prelude.{◌≡◌};
ghost use Rattle.rules.specs.Asks.{counts_of, share};
ghost use Rattle.store.specs.Of.{counted};

use rules::{Account, Tracker};

// Counted mutations begun, those finished, and the most that a successful flush had counted.
#[derive(Clone, Copy, PartialEq, Eq, Debug)]
pub struct Counts {
    pub written: u64,
    pub completed: u64,
    pub synced: u64,
}

impl From<Tracker> for Counts {
    ghost from_gives = { λ t c. counted c ≡ counts_of t };

    fn from(tracker: Tracker) -> Counts {
        Counts {
            written: tracker.written,
            completed: tracker.completed,
            synced: tracker.synced,
        }
    }
}

// Skipped syncs of a thousand begun. A thousand times a count of 64 bits takes more than 64.
pub(crate) fn share_of(account: &Account) -> u128
    ensures { result ≡ share account.now }
{
    (u128::from(account.skipped) * 1000)
        .checked_div(u128::from(account.syncs))
        .unwrap_or(0)
}
