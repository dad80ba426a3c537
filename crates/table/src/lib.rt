// Things that are looked up by a key, the one search for them, and a table of them that never grows.
#![tactic(auto)]

ghost use Rattle.std.specs.Prelude.{◌≡◌, Bool, nat_eq};
ghost use Rattle.table.specs.Held.{TellsApart};
ghost use Rattle.table.specs.Keys.{Place};
ghost use Rattle.std.proofs.lemmas.Bool.Decides.{eqb_tells};

pub mod slot;
pub mod table;

pub use slot::Slot;
pub use table::{Full, Table};

#[cfg(test)]
mod tests;

// What things are told apart by.
pub trait Identity: Copy {
    ghost same: { Self → Self → Bool };

    fn is(&self, other: &Self) -> bool
        ensures { result ≡ same self.now other.now };

    // Two are the same exactly where they are equal.
    ghost tells: { TellsApart same };
}

impl Identity for u64 {
    ghost same = { nat_eq };

    fn is(&self, other: &u64) -> bool {
        self == other
    }

    ghost tells = { eqb_tells };
}

// What has a key that it is looked up by.
pub trait Keyed {
    type Key: Identity;

    ghost id: { Self → Self.Key };

    // It is answered by value, since it need not be stored.
    fn key(&self) -> Self::Key
        ensures { result ≡ id self.now };

    // Whether it is this key. What stores a large key compares it where it lies.
    fn has(&self, key: &Self::Key) -> bool
        ensures { result ≡ Self.Key.same (id self.now) key.now }
    {
        self.key().is(key)
    }
}

// What tells some keys from the rest.
pub trait Tells<K> {
    ghost told: { Self → K → Bool };

    fn tells(&self, key: &K) -> bool
        ensures { result ≡ told self.now key.now };
}

// The first place of `key` among `items`, or none where it is absent.
pub fn position<T: Keyed>(items: &[T], key: &T::Key) -> Option<usize>
    ensures { Place T.Keyed.id items.now key.now result }
{
    items.iter().position(|item| item.has(key))
}
