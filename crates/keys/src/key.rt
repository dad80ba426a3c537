// A key: a partition and a name. Two are equal when both have the same bytes.
ghost use Rattle.std.specs.Prelude.{◌≡◌, Decides};
ghost use Rattle.keys.specs.KeyName.{same_key, in_partition};
ghost use Rattle.keys.specs.Keys.{KeyCheck};
ghost use Rattle.keys.specs.Laws.{same_key_equivalence, same_key_laws, same_key_tells};

use crate::kinds::{Name, Partition};
use faults::Fault;
use std::marker::Model;
use table::{Identity, Tells};

#[derive(Clone, Copy, Debug)]
pub struct Key {
    partition: Partition,
    name: Name,
}

// Clauses see the bytes of both.
impl Model for Key {
    ghost use Rattle.keys.specs.KeyName.{KeyName};

    ghost Value = { KeyName };

    ghost view = { λ k. record { partition = k.partition; name = k.name } };

    ghost inverse = { λ q. record { partition = q.partition; name = q.name } };
}

impl Key {
    // Refuses a bad partition before a bad name.
    pub fn new(partition: &[u8], name: &[u8]) -> Result<Key, Fault>
        ensures { KeyCheck partition.now name.now result }
    {
        let partition = Partition::new(partition)?;
        let name = Name::new(name)?;
        Ok(Key { partition, name })
    }

    pub fn partition(&self) -> &Partition
        ensures { result.now ≡ self.now.partition }
    {
        &self.partition
    }

    pub fn name(&self) -> &Name
        ensures { result.now ≡ self.now.name }
    {
        &self.name
    }
}

// By hand, since a derive says nothing of the bytes.
impl PartialEq for Key {
    ghost eq = { same_key };

    ghost laws = { same_key_laws };

    #[tactic(auto, unfolding(crate::specs::KeyName::same_key))]
    fn eq(&self, other: &Key) -> bool
        ensures answer { result ≡ same_key self.now other.now }
        ensures bytes { Decides result (self.now ≡ other.now) }
    {
        self.partition == other.partition && self.name == other.name
    }
}

impl Eq for Key {
    ghost laws = { same_key_equivalence };
}

impl Identity for Key {
    ghost same = { same_key };

    fn is(&self, other: &Key) -> bool {
        self == other
    }

    ghost tells = { same_key_tells };
}

// A key tells itself.
impl Tells<Key> for Key {
    ghost told = { same_key };

    fn tells(&self, key: &Key) -> bool {
        self.is(key)
    }
}

// A partition tells the keys in it.
impl Tells<Key> for Partition {
    ghost told = { in_partition };

    fn tells(&self, key: &Key) -> bool {
        key.partition() == self
    }
}
