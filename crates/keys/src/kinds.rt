// The two parts of a key: a partition, of 1 to 32 letters, digits, `-` and `_`, and a name, of 1 to 64 bytes of any kind.
ghost use Rattle.std.specs.Prelude.{◌≡◌};
ghost use Rattle.std.proofs.Common.{rules, arith};
ghost use Rattle.std.proofs.lemmas.Grind.{common_steps};
ghost use Rattle.faults.specs.declared.store.Fault.TheVariants.{PartitionNameInvalid, BlobNameInvalid};
ghost use Rattle.keys.specs.Names.{plain, all_plain, partition_ok, name_ok};

use crate::text::{Kind, Text};
use faults::Fault;

pub type Partition = Text<Plain, 32>;

pub type Name = Text<AnyByte, 64>;

#[derive(Clone, Copy, Debug)]
pub struct Plain;

#[derive(Clone, Copy, Debug)]
pub struct AnyByte;

fn is_plain(b: u8) -> bool
    ensures { result ≡ plain b }
{
    matches!(b, b'a'..=b'z' | b'A'..=b'Z' | b'0'..=b'9' | b'-' | b'_')
}

fn are_plain(s: &[u8]) -> bool
    ensures { result ≡ all_plain s.now }
{
    s.iter().all(|b| is_plain(*b))
}

impl Kind<32> for Plain {
    ghost ok = { partition_ok };

    ghost REFUSAL = { PartitionNameInvalid };

    const REFUSAL: Fault = Fault::PartitionNameInvalid;

    fn ok(bytes: &[u8]) -> bool {
        (1..=32).contains(&bytes.len()) && are_plain(bytes)
    }

    ghost fits = { λ p e. Prim.search (rules, common_steps, arith) };
}

impl Kind<64> for AnyByte {
    ghost ok = { name_ok };

    ghost REFUSAL = { BlobNameInvalid };

    const REFUSAL: Fault = Fault::BlobNameInvalid;

    fn ok(bytes: &[u8]) -> bool {
        (1..=64).contains(&bytes.len())
    }

    ghost fits = { λ n e. Prim.search (rules, common_steps, arith) };
}
