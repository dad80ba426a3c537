// What a sheet looks like: strips of 64 bytes, each with the origin of the next behind it.
ghost use Rattle.std.specs.Prelude.{◌≡◌, ◌+◌, ◌*◌, ◌%◌};

use std::array;

pub const STRIPS: usize = 40;

pub const STRIP: usize = 64;

pub const ORIGIN: usize = 8;

// The header of a sheet: its data begin behind it.
pub const HEADER: [u8; 16] = *b"a sheet of strip";

// Where a strip begins in the blob.
pub fn strip_place(number: usize) -> u64
    ensures { result ≡ number % 40 * 72 }
{
    (number % STRIPS * (STRIP + ORIGIN)) as u64
}

// Where the origin of the next strip stands: behind this one.
pub fn origin_place(number: usize) -> u64
    ensures { result ≡ number % 40 * 72 + 64 }
{
    strip_place(number) + STRIP as u64
}

// The bytes of a strip.
pub fn contour(number: usize) -> [u8; STRIP] {
    array::from_fn(|i| ((number % STRIPS * 31 + i * 7) % 251) as u8)
}

// How far a strip moves the origin.
pub fn advance(strip: &[u8; STRIP]) -> u64 {
    strip.iter().map(|b| u64::from(*b)).sum()
}
