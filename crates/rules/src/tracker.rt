// The mutations of one opening that no successful flush covers.
ghost use Rattle.std.specs.Prelude.{◌≡◌};
ghost use Rattle.rules.specs.Track.{begun, credited, finished, is_dirty, poisoned, untouched};

use faults::Failure;

#[derive(Clone, Copy, PartialEq, Eq, Debug, Default)]
pub struct Tracker {
    // Counted mutations begun.
    pub written: u64,
    // Counted mutations finished.
    pub completed: u64,
    // The most that a successful flush had counted.
    pub synced: u64,
    // The first durability failure.
    pub failure: Option<Failure>,
}

impl Tracker {
    pub fn new() -> Tracker
        ensures { result ≡ untouched }
    {
        Tracker::default()
    }

    // Record a mutation that needs a successful flush.
    pub fn write(&mut self)
        ensures { self.new ≡ begun self.old }
    {
        self.written = self.written.saturating_add(1);
    }

    // Count a mutation that has landed whole.
    pub fn complete(&mut self)
        ensures { self.new ≡ finished self.old }
    {
        self.completed = self.completed.saturating_add(1);
    }

    // The finished mutations that a flush about to start will cover.
    pub fn begin_sync(&self) -> u64
        ensures { result ≡ self.now.completed }
    {
        self.completed
    }

    // Credit a successful flush with what it had counted; one that counted less takes nothing back.
    pub fn end_sync(&mut self, seen: u64)
        ensures { self.new ≡ credited self.old seen }
    {
        self.synced = self.synced.max(seen);
    }

    // Whether a mutation was begun that no successful flush covers.
    pub fn is_dirty(&self) -> bool
        ensures { result ≡ is_dirty self.now }
    {
        self.written != self.synced
    }

    // Keep the first durability failure.
    pub fn poison(&mut self, failure: Failure)
        ensures { self.new ≡ poisoned self.old failure }
    {
        self.failure.get_or_insert(failure);
    }

    // The failure that is kept.
    pub fn failure(&self) -> Option<Failure>
        ensures { result ≡ self.now.failure }
    {
        self.failure
    }
}
