// Chunks and submissions on both sides of each of their bounds.
use crate::{chunk_count, header_ok, next_len, sizes_ok};
use std::array;

#[test]
fn chunks_are_counted(rt: HostRuntime) {
    let ones = [1; 4_096];
    assert_eq!(rt; chunk_count(&ones[0..0]), 0);
    assert_eq!(rt; chunk_count(&ones[0..1]), 1);
    assert_eq!(rt; chunk_count(&ones), 4_096);
    assert_eq!(rt; chunk_count(&[0]), 0);
    assert_eq!(rt; chunk_count(&[0, 2, 0, 0, 3, 0]), 2);
    assert_eq!(rt; chunk_count(&[u64::MAX, u64::MAX]), 2);
}

// The third body would add up if sums wrapped.
#[test]
fn sizes_are_checked(rt: HostRuntime) {
    let ones = [1; 4_097];
    assert!(rt; header_ok(4_096));
    assert!(rt; !header_ok(4_097));
    assert!(rt; sizes_ok(0, &[]));
    assert!(rt; !sizes_ok(1, &[]));
    assert!(rt; !sizes_ok(0, &[u64::MAX, 1]));
    assert!(rt; sizes_ok(5, &[0, 2, 0, 0, 3, 0]));
    assert!(rt; !sizes_ok(5, &[2, 2]));
    assert!(rt; sizes_ok(4_096, &ones[0..4_096]));
    assert!(rt; !sizes_ok(4_097, &ones));
    assert!(rt; !sizes_ok(0, &[0; 4_097]));
    assert!(rt; sizes_ok(16_777_216, &[16_777_216]));
    assert!(rt; !sizes_ok(16_777_217, &[16_777_217]));
}

// A submission ends with the 1,024th chunk.
#[test]
fn submissions_end_at_chunks(rt: HostRuntime) {
    let twos = [2; 4_096];
    assert_eq!(rt; next_len(&twos[0..0], 0, 0), 0);
    assert_eq!(rt; next_len(&twos[0..1], 0, 2), 2);
    assert_eq!(rt; next_len(&twos[0..1_023], 0, 2_046), 2_046);
    assert_eq!(rt; next_len(&twos[0..1_024], 0, 2_048), 2_048);
    assert_eq!(rt; next_len(&twos[0..1_025], 0, 2_050), 2_048);
    assert_eq!(rt; next_len(&twos[0..1_025], 2_048, 2), 2);
    assert_eq!(rt; next_len(&twos[0..2_048], 2_048, 2_048), 2_048);
    assert_eq!(rt; next_len(&twos[0..2_049], 2_048, 2_050), 2_048);
    assert_eq!(rt; next_len(&twos, 6_144, 2_048), 2_048);
}

// A chunk of which a part is down counts as one, and a length of 0 as none.
#[test]
fn submissions_from_within_a_chunk(rt: HostRuntime) {
    let twos = [2; 1_025];
    assert_eq!(rt; next_len(&twos, 1, 2_049), 2_047);
    assert_eq!(rt; next_len(&twos, 3, 2_047), 2_047);
    assert_eq!(rt; next_len(&[0, 2, 0, 0, 3, 0], 0, 5), 5);
    assert_eq!(rt; next_len(&[0, 2, 0, 0, 3, 0], 2, 3), 3);
    assert_eq!(rt; next_len(&[0, 2, 0, 0, 3, 0], 4, 1), 1);
    let every_other: [u64; 4_096] = array::from_fn(|i| (i % 2) as u64);
    assert_eq!(rt; next_len(&every_other, 0, 2_048), 1_024);
}

// Lengths that do not cut the body: never more than is left.
#[test]
fn submissions_of_any_lengths(rt: HostRuntime) {
    assert_eq!(rt; next_len(&[], 0, 9), 0);
    assert_eq!(rt; next_len(&[5], 0, 3), 3);
    assert_eq!(rt; next_len(&[u64::MAX, u64::MAX], 0, 7), 7);
    assert_eq!(rt; next_len(&[u64::MAX, 1], usize::MAX, 7), 1);
}
