// A short text in place, so that a key is copied and never allocated.
ghost use Rattle.std.specs.Prelude.{◌≡◌, ℕ, ◌<◌, ◌≤◌, Bool, true, false, List, ◌++◌, length, drop, Decides, MatchResult};
ghost use Rattle.faults.specs.declared.store.Fault.{Fault};
ghost use Rattle.std.specs.Str.{bytes_eq};
ghost use Rattle.std.specs.Cmp.Rules.{comparing};
ghost use Rattle.std.proofs.Common.{rules};

use faults::Fault;
use std::marker::{Model, PhantomData};

// Which texts are allowed, none of them longer than N bytes, and how another is refused.
pub trait Kind<const N: usize>: Copy {
    ghost ok: { List ℕ → Bool };

    ghost REFUSAL: { Fault };

    const REFUSAL: Fault;

    fn ok(bytes: &[u8]) -> bool
        ensures { result ≡ ok bytes.now };

    // The length of a text is kept in one byte.
    ghost fits: { (t : List ℕ) → ok t ≡ true → (length t ≤ N) × (length t < 256) };
}

// The first `len` of `bytes`, behind which all is 0. A length beside an array, since a key is copied and never allocated: the
// library's vectors of fixed capacity are not copied.
#[derive(Clone, Copy, Debug)]
pub struct Text<K: Kind<N>, const N: usize> {
    bytes: [u8; N],
    len: u8,
    kind: PhantomData<K>,
}

// Clauses see its bytes.
impl<K: Kind<N>, const N: usize> Model for Text<K, N> {
    ghost use Rattle.std.specs.Prelude.{◌≡◌, ◌≤◌, true, ℕ, List, length};
    ghost use Rattle.std.proofs.Common.{sym};
    ghost use Rattle.keys.specs.Texts.{text, padded};

    ghost Value = { List ℕ };

    ghost view = { λ s. text s.len s.bytes };

    ghost invariant = { λ s. (K.ok (text s.len s.bytes) ≡ true) × (s.len ≤ N) × (s.len ≡ length (text s.len s.bytes)) × (s.bytes ≡ padded N (text s.len s.bytes)) };

    ghost inverse = { λ v. record { bytes = padded N v; len = length v; kind = record {} } };

    ghost inverse_ok = { λ s h. λ j. record { bytes = sym h.3 j; len = sym h.2 j; kind = record {} } };
}

// Lays a text at the head of its memory.
fn lay(room: &mut [u8], text: &[u8])
    requires { length text.now ≤ length room.old }
    ensures { room.new ≡ text.now ++ drop (length text.now) room.old }
{
    room[0..text.len()].copy_from_slice(text);
}

impl<K: Kind<N>, const N: usize> Text<K, N> {
    pub fn new(from: &[u8]) -> Result<Text<K, N>, Fault>
        ensures { MatchResult result (λ t. (K.ok from.now ≡ true) × (t ≡ from.now)) (λ f. (K.ok from.now ≡ false) × (f ≡ K.REFUSAL)) }
    {
        if !K::ok(from) {
            return Err(K::REFUSAL);
        }
        let mut bytes = [0; N];
        lay(&mut bytes, from);
        let len = from.len() as u8;
        Ok(Text {
            bytes,
            len,
            kind: PhantomData,
        })
    }

    pub fn as_bytes(&self) -> &[u8]
        ensures bytes { result.now ≡ self.now }
        ensures allowed { K.ok self.now ≡ true }
    {
        let all = &self.bytes[..];
        &all[0..self.len as usize]
    }
}

// By hand, since a derive would compare the memory behind the text too, and says nothing of the bytes.
impl<K: Kind<N>, const N: usize> PartialEq for Text<K, N> {
    ghost eq = { bytes_eq };

    ghost laws = { Prim.search (comparing, rules) };

    fn eq(&self, other: &Text<K, N>) -> bool
        ensures answer { result ≡ bytes_eq self.now other.now }
        ensures bytes { Decides result (self.now ≡ other.now) }
    {
        self.as_bytes() == other.as_bytes()
    }
}

impl<K: Kind<N>, const N: usize> Eq for Text<K, N> {
    ghost laws = { Prim.search (comparing, rules) };
}
