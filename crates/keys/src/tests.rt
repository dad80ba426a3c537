// Keys on both sides of each of their bounds.
use crate::{Key, Name, Partition};
use faults::Fault;
use std::test::Fail;

// The number of a refusal, where there is one.
fn refusal<T: Drop>(made: Result<T, Fault>) -> Option<u8> {
    made.err().map(|fault| fault.number())
}

#[test]
fn partition_lengths(rt: HostRuntime) {
    let bytes = [b'p'; 33];
    assert_eq!(rt; refusal(Partition::new(&bytes[0..0])), Some(1));
    assert_eq!(rt; refusal(Partition::new(&bytes[0..1])), None);
    assert_eq!(rt; refusal(Partition::new(&bytes[0..32])), None);
    assert_eq!(rt; refusal(Partition::new(&bytes[0..33])), Some(1));
}

// The ends of each class of plain bytes, and what stands next to them.
#[test]
fn partition_bytes(rt: HostRuntime) {
    for b in b"azAZ09-_" {
        assert_eq!(rt; refusal(Partition::new(&[*b])), None);
    }
    for b in b"`{@[/:.,^ \0\xff" {
        assert_eq!(rt; refusal(Partition::new(&[*b])), Some(1));
        assert_eq!(rt; refusal(Partition::new(&[b'p', *b])), Some(1));
    }
}

#[test]
fn name_lengths(rt: HostRuntime) {
    let bytes = [b'n'; 65];
    assert_eq!(rt; refusal(Name::new(&bytes[0..0])), Some(2));
    assert_eq!(rt; refusal(Name::new(&bytes[0..1])), None);
    assert_eq!(rt; refusal(Name::new(&bytes[0..64])), None);
    assert_eq!(rt; refusal(Name::new(&bytes[0..65])), Some(2));
}

#[test]
fn name_bytes(rt: HostRuntime) {
    for b in b"\0/.\x7f\x80\xff" {
        assert_eq!(rt; refusal(Name::new(&[*b])), None);
    }
}

// A bad partition is refused before a bad name.
#[test]
fn refusals_in_order(rt: HostRuntime) {
    assert_eq!(rt; refusal(Key::new(b"p", b"n")), None);
    assert_eq!(rt; refusal(Key::new(b"p", b"")), Some(2));
    assert_eq!(rt; refusal(Key::new(b"", b"n")), Some(1));
    assert_eq!(rt; refusal(Key::new(b"", b"")), Some(1));
}

#[test]
fn equal_by_both_parts(rt: HostRuntime) -> Result<(), Fail> {
    let key = Key::new(b"ab", b"c")?;
    assert!(rt; key == Key::new(b"ab", b"c")?);
    assert!(rt; key != Key::new(b"ab", b"d")?);
    assert!(rt; key != Key::new(b"aa", b"c")?);
    assert!(rt; key != Key::new(b"a", b"bc")?);
    assert!(rt; key != Key::new(b"ab", b"c\0")?);
    Ok(())
}
