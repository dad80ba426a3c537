// Writes to a part of a slice.
ghost use Rattle.std.specs.Prelude.{◌≡◌, ◌+◌, ◌-◌, ◌≤◌, min, ◌++◌, length, take, drop, replicate};
ghost use Rattle.std.proofs.Math.Seq.{paste};

pub(crate) fn put(into: &mut [u8], at: usize, from: &[u8])
    requires { at + length from.now ≤ length into.old }
    ensures { into.new ≡ paste into.old at from.now (length from.now) }
{
    into[at..at + from.len()].copy_from_slice(from);
}

// Zeros from `from` up to `to`, if that is larger.
pub(crate) fn clear(into: &mut [u8], from: usize, to: usize)
    requires { to ≤ length into.old }
    ensures { into.new ≡ paste into.old from (replicate (to - from) 0) (to - from) }
{
    if from < to {
        into[from..to].fill(0);
    }
}

// Copies from `offset` on what there is and has room.
pub(crate) fn copy_out(all: &[u8], offset: u64, into: &mut [u8]) -> usize
    ensures value { result ≡ min (length into.old) (length all.now - offset) }
    ensures after { into.new ≡ take result (drop offset all.now) ++ drop result into.old }
{
    let part = all.get(offset as usize..).unwrap_or(&[]);
    let count = into.len().min(part.len());
    put(into, 0, &part[..count]);
    count
}
