// The latest opening of each name, and what the openings before it left behind.
ghost use Rattle.std.specs.Prelude.{◌≡◌, IfOk, is_ok, if◌then◌else◌, Some, None};
ghost use Rattle.std.specs.List.{slice_get};
ghost use Rattle.std.specs.Option.{option_map};
ghost use Rattle.std.specs.Result.{result_err};
ghost use Rattle.keys.specs.KeyName.{same_key, in_partition};
ghost use Rattle.table.specs.Maps.{taken, fits, put, without, none};
ghost use Rattle.rules.specs.Ends.{registered};
ghost use Rattle.rules.specs.Opens.{new_entry, failing};
ghost use Rattle.rules.specs.Finishes.{cleaned};
ghost use Rattle.pending.specs.Of.{barring, entries, settling};

use faults::{Failure, Fault};
use keys::{Key, Partition};
use rules::{Entry, Tracker};
use std::alloc::{AllocError, Global};
use table::{Full, Table};

// Names that can be held at once.
pub const NAMES: usize = 64;

#[derive(Drop)]
pub struct Pending {
    names: Table<Key, Entry, NAMES>,
}

impl Pending {
    // The only call that allocates.
    pub fn new(heap: Global) -> Result<Pending, AllocError>
        ensures { IfOk result (λ p. entries p ≡ none) }
    {
        let names = Table::new(heap)?;
        Ok(Pending { names })
    }

    // How many names have an entry.
    pub fn held(&self) -> usize
        ensures { result ≡ taken (entries self.now) }
    {
        self.names.taken()
    }

    pub fn find(&self, key: &Key) -> Option<Entry>
        ensures { result ≡ (entries self.now).at key.now }
    {
        self.names.get(key)
    }

    // The i-th of the names that have an entry.
    pub fn key_at(&self, i: usize) -> Option<Key>
        ensures { result ≡ slice_get (entries self.now).keys i }
    {
        self.names.key_at(i)
    }

    // Refuses an existing name that is not admitted. `lives` says whether its entry's own opening has not ended.
    pub fn bar(&self, key: &Key, lives: bool) -> Result<(), Fault>
        ensures { result_err result ≡ barring lives ((entries self.now).at key.now) }
    {
        self.find(key).map_or(Ok(()), |entry| entry.bar(lives))
    }

    // Writes the entry of a new opening over what the name's entry was, where there is room for it.
    pub fn admit(&mut self, key: &Key, opening: u64, was: &Option<Entry>) -> Result<(), Full>
        ensures fit { is_ok result ≡ fits 64 (entries self.old) key.now }
        ensures after { entries self.new ≡ (if is_ok result then put same_key (entries self.old) key.now (Some (new_entry opening was.now)) else entries self.old) }
    {
        self.names.put(key, Entry::admit(opening, was))
    }

    // Changes the entry of a name that has one.
    fn change<F: FnOnce(Entry) -> Entry>(&mut self, key: &Key, by: F)
        requires { F.IsAlwaysCallable by }
        ensures { (f : _) → ((v w : _) → F.post by v w → w ≡ f v) → entries self.new ≡ put same_key (entries self.old) key.now (option_map f ((entries self.old).at key.now)) }
    {
        if let Some(entry) = self.find(key) {
            self.names.replace(key, by(entry));
        }
    }

    // An opening that ended registers as unsettled, only while it still owns its name and no earlier one is settling.
    pub fn register(&mut self, key: &Key, opening: u64)
        ensures { entries self.new ≡ put same_key (entries self.old) key.now (option_map (registered opening) ((entries self.old).at key.now)) }
    {
        self.change(key, |entry| entry.register(opening));
    }

    // Settles an ended opening that has no ticket out. `ended` says whether the entry's own opening has ended. The entry is
    // looked up, and then changed or freed: a call of the table for both would serve this one alone.
    pub fn settle(&mut self, key: &Key, opening: u64, tracker: &Tracker, ended: bool)
        ensures { entries self.new ≡ put same_key (entries self.old) key.now (settling ended opening tracker.now ((entries self.old).at key.now)) }
    {
        if let Some(entry) = self.find(key) {
            match entry.settle(opening, tracker).keep(ended) {
                Some(kept) => self.names.replace(key, kept),
                None => self.names.free(key),
            }
        }
    }

    // The debt of a name has been flushed.
    pub fn clear(&mut self, key: &Key, opening: u64)
        ensures { entries self.new ≡ put same_key (entries self.old) key.now (option_map (cleaned opening) ((entries self.old).at key.now)) }
    {
        self.change(key, |entry| entry.clear(opening));
    }

    // Keeps a failure until the name is forgotten.
    pub fn fail(&mut self, key: &Key, opening: u64, failure: Failure)
        ensures { entries self.new ≡ put same_key (entries self.old) key.now (option_map (failing opening failure) ((entries self.old).at key.now)) }
    {
        self.change(key, |entry| entry.fail(opening, failure));
    }

    // Detaches a removed name.
    pub fn forget(&mut self, key: &Key)
        ensures { entries self.new ≡ put same_key (entries self.old) key.now None }
    {
        self.names.free(key);
    }

    // Detaches every name of a removed partition.
    pub fn forget_partition(&mut self, partition: &Partition)
        ensures { entries self.new ≡ without (in_partition partition.now) (entries self.old) }
    {
        self.names.free_told(partition);
    }
}
