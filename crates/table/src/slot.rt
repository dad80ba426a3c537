// A value under its key.
ghost use Rattle.table.specs.Slots.{key_of};

use crate::{Identity, Keyed};

#[derive(Clone, Copy)]
pub struct Slot<K, V> {
    pub key: K,
    pub value: V,
}

impl<K: Identity, V> Keyed for Slot<K, V> {
    type Key = K;

    ghost id = { key_of };

    fn key(&self) -> K {
        self.key
    }

    fn has(&self, key: &K) -> bool {
        self.key.is(key)
    }
}
