// A table of at most N values, each under its key. Its memory is reserved when it is made, and never grows, and its keys keep
// the order in which they came: no map of the library has both. It has no Model, since the map that it stands for is a function.
ghost use Rattle.std.specs.Prelude.{◌≡◌, ◌≤◌, IfOk, MatchOption, is_ok, if◌then◌else◌, Some, None, vec_len, vec_capacity};
ghost use Rattle.std.specs.List.{slice_get};
ghost use Rattle.std.specs.Option.{option_map};
ghost use Rattle.table.specs.Keys.{Place};
ghost use Rattle.table.specs.Maps.{taken, fits, put, without, none};
ghost use Rattle.table.specs.Slots.{Distinct};

use crate::slot::Slot;
use crate::{Identity, Tells, position};
use std::alloc::{AllocError, Global};

// There is no place left.
#[derive(Clone, Copy, PartialEq, Eq, Debug)]
pub struct Full;

#[derive(Drop)]
pub struct Table<K: Identity, V, const N: usize> {
    items: Vec<Slot<K, V>>,
    ghost room: { N ≤ vec_capacity items },
    ghost within: { vec_len items ≤ N },
    ghost distinct: { Distinct K.same items.items },
}

impl<K: Identity, V: Copy, const N: usize> Table<K, V, N> {
    ghost use Rattle.table.specs.Slots.{key_of};
    ghost use Rattle.table.specs.Of.{map};

    // The only call that allocates.
    pub fn new(heap: Global) -> Result<Table<K, V, N>, AllocError>
        ensures { IfOk result (λ t. map t ≡ none) }
    {
        let items = Vec::with_capacity(heap, N)?;
        Ok(Table { items })
    }

    // How many places are taken.
    pub fn taken(&self) -> usize
        ensures { result ≡ taken (map self.now) }
    {
        self.items.len()
    }

    // The one place where a key is searched for.
    fn place(&self, key: &K) -> Option<usize>
        ensures { Place key_of self.now.items.items key.now result }
    {
        position(&self.items, key)
    }

    pub fn get(&self, key: &K) -> Option<V>
        ensures { result ≡ (map self.now).at key.now }
    {
        let i = self.place(key)?;
        Some(self.items[i].value)
    }

    // The key in the i-th of the places that are taken.
    pub fn key_at(&self, i: usize) -> Option<K>
        ensures { result ≡ slice_get (map self.now).keys i }
    {
        Some(self.items.get(i)?.key)
    }

    // Puts a value under a key, in the place of what stood there or in a new one, where there is one.
    pub fn put(&mut self, key: &K, value: V) -> Result<(), Full>
        ensures fit { is_ok result ≡ fits N (map self.old) key.now }
        ensures after { map self.new ≡ (if is_ok result then put K.same (map self.old) key.now (Some value) else map self.old) }
    {
        match self.place(key) {
            Some(i) => self.items[i].value = value,
            None => {
                if self.items.len() >= N {
                    return Err(Full);
                }
                self.items.push_reserved(Slot { key: *key, value });
            }
        }
        Ok(())
    }

    // Frees the place of a key.
    pub fn free(&mut self, key: &K)
        ensures { map self.new ≡ put K.same (map self.old) key.now None }
    {
        if let Some(i) = self.place(key) {
            self.items.remove(i);
        }
    }

    // Sets the value of a key that has one.
    pub fn replace(&mut self, key: &K, value: V)
        ensures { map self.new ≡ put K.same (map self.old) key.now (option_map (λ _. value) ((map self.old).at key.now)) }
    {
        if let Some(i) = self.place(key) {
            self.items[i].value = value;
        }
    }

    // Frees the places of the keys that are told.
    pub fn free_told<T: Tells<K>>(&mut self, going: &T)
        ensures { map self.new ≡ without (T.told going.now) (map self.old) }
    {
        self.items.retain(|slot| !going.tells(&slot.key));
    }
}
