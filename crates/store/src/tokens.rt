// What a store gives out and wants back. Each token is a number, 0 once it is spent, and no other can be dropped: code
// that forgets one is not proved. A rule of the project: a token is lent and not moved into a call, since a call that comes too
// early gives it back.
ghost use Rattle.std.specs.Prelude.{◌≡◌, Bool};
ghost use Rattle.rules.specs.declared.opening.Stage.{Stage};
ghost use Rattle.rules.specs.State.{is_blob, is_owing};

use rules::Stage;
use std::marker::PhantomData;

// What a token is of: the stage that its opening has to be at.
pub trait Kind {
    ghost fits: { Stage → Bool };

    fn fits(stage: Stage) -> bool
        ensures { result ≡ fits stage };
}

// It can be read and written; it ends when it is closed.
pub struct Yielded;

// It has to be finished or given up: an earlier opening left something unflushed.
pub struct InDebt;

impl Kind for Yielded {
    ghost fits = { is_blob };

    fn fits(stage: Stage) -> bool {
        stage.is_blob()
    }
}

impl Kind for InDebt {
    ghost fits = { is_owing };

    fn fits(stage: Stage) -> bool {
        stage.is_owing()
    }
}

pub struct Token<K> {
    number: u64,
    kind: PhantomData<K>,
}

pub type Blob = Token<Yielded>;

pub type Owing = Token<InDebt>;

impl<K> Drop for Token<K> {
    fn drop(self)
        requires { self.number ≡ 0 }
    {
        let Token { number: _, kind: _ } = self;
    }
}

impl<K> Token<K> {
    pub(crate) fn new(number: u64) -> Token<K>
        ensures { result.number ≡ number }
    {
        Token {
            number,
            kind: PhantomData,
        }
    }

    pub(crate) fn number(&self) -> u64
        ensures { result ≡ self.now.number }
    {
        self.number
    }

    pub(crate) fn spend(&mut self)
        ensures { self.new.number ≡ 0 }
    {
        self.number = 0;
    }
}

// What an opening yields.
pub enum Opened {
    // With the length of its data.
    Ready(Blob, u64),
    Owed(Owing),
}
