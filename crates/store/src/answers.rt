// What a call answers, as its rule says it.
ghost use Rattle.std.specs.Prelude.{ℕ};
ghost use Rattle.rules.specs.Opens as opens;
ghost use Rattle.store.specs.Of.{opened_of, ready_of};

use crate::tokens::{Blob, Opened};

// An answer with tokens in it: the rules speak of their numbers.
pub(crate) trait Answer {
    ghost Told: { Type 0 };

    ghost told: { Self → Told };
}

impl Answer for Opened {
    ghost Told = { opens.Opened };

    ghost told = { opened_of };
}

impl Answer for (Blob, u64) {
    ghost Told = { ℕ × ℕ };

    ghost told = { ready_of };
}
