// The lengths that cut a write's body into chunks.
#![tactic(auto)]

ghost use Rattle.std.specs.Prelude.{◌≡◌, ◌+◌, ◌<◌, ◌≤◌, min, length, ◌==◌};
ghost use Rattle.rules.specs.Chunks.{ahead, batch, chunks, header_ok, sizes_ok, total};

// Zero lengths count too, so this bounds every run over the lengths, and how deep the chunk count goes.
pub const MOST_LENGTHS: usize = 4_096;

// One page, behind which a blob's data begin.
pub const MOST_HEADER: usize = 4_096;

// 16 MiB: a caller keeps its body until the write is run. It is far below 2^63 - 1, past which a vectored write is refused.
pub const MOST_BYTES: usize = 16_777_216;

// Linux refuses more buffers in one vectored write (IOV_MAX). All of them are used, so that a body takes few submissions.
pub const IOVEC_BATCH_SIZE: usize = 1_024;

// How many chunks there are: those of the rest, and one more unless the first length is 0.
// It calls itself, and is no chain: a rule of the project, by which the count is written as its rule reads.
pub fn chunk_count(lengths: &[u64]) -> usize
    ensures value { result ≡ chunks lengths.now }
    ensures bound { result ≤ length lengths.now }
{
    match lengths {
        [] => 0,
        [first, rest @ ..] => usize::from(*first != 0) + chunk_count(rest),
    }
}

// Whether the lengths add up to `size`. It takes them off one by one, so no sum can wrap, and stops at one that is more than is
// left. A chain reads all lengths of a body that is refused, or takes nearly twice the instructions.
fn add_up(lengths: &[u64], size: u64) -> bool
    ensures { result ≡ (total lengths.now == size) }
{
    let mut rest = size;
    for length in lengths {
        if rest < *length {
            return false;
        }
        rest -= *length;
    }
    rest == 0
}

// Whether a header of `size` bytes is within its limit.
pub fn header_ok(size: usize) -> bool
    ensures { result ≡ header_ok size }
{
    size <= MOST_HEADER
}

// Whether a body of `size` bytes and its lengths are within their limits, and the lengths cut all of it.
pub fn sizes_ok(size: usize, lengths: &[u64]) -> bool
    ensures { result ≡ sizes_ok size lengths.now }
{
    lengths.len() <= MOST_LENGTHS && size <= MOST_BYTES && add_up(lengths, size as u64)
}

// How many of the `left` bytes of a body the next submission takes, once `landed` are down.
// A chunk of which a part is down counts as one, and a length that is down, or is 0, as none.
pub fn next_len(lengths: &[u64], landed: usize, left: usize) -> usize
    ensures value { result ≡ min left (ahead batch lengths.now landed) }
    ensures progress { total lengths.now ≡ landed + left → 0 < left → 0 < result }
{
    lengths
        .iter()
        .scan(landed as u64, |down, length| {
            let part = length.saturating_sub(*down);
            *down = down.saturating_sub(*length);
            Some(part)
        })
        .filter(|part| *part != 0)
        .take(IOVEC_BATCH_SIZE)
        .fold(0, u64::saturating_add)
        .min(left as u64) as usize
}

#[cfg(test)]
mod tests;
