// Offsets at the edge of what a file can have.
use crate::{BlobOffset, Path};

// The place in the file, or the number of the refusal.
fn place(blob: u64, data: u64) -> Result<u64, u8> {
    BlobOffset::from(blob)
        .in_file(data)
        .map(u64::from)
        .map_err(|fault| fault.number())
}

#[test]
fn sums_of_offsets(rt: HostRuntime) {
    assert_eq!(rt; place(0, 0), Ok(0));
    assert_eq!(rt; place(5, 8), Ok(13));
    assert_eq!(rt; place(u64::MAX, 0), Ok(u64::MAX));
    assert_eq!(rt; place(u64::MAX - 8, 8), Ok(u64::MAX));
    assert_eq!(rt; place(u64::MAX - 7, 8), Err(7));
    assert_eq!(rt; place(1, u64::MAX), Err(7));
    assert_eq!(rt; place(u64::MAX, u64::MAX), Err(7));
}

fn vectored(durable: bool, hinted: bool) -> Path {
    Path::Vectored { durable, hinted }
}

// The hint makes no write durable.
#[test]
fn durable_paths(rt: HostRuntime) {
    assert!(rt; !Path::Single.is_durable());
    assert!(rt; vectored(true, false).is_durable());
    assert!(rt; !vectored(false, true).is_durable());
}
