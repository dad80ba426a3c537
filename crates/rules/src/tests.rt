// The counts of an opening around its flushes, and what an entry and a stage say of themselves.
use crate::{Entry, Stage, Tracker};
use faults::{DiskFault, Failure};

// A flush covers what had finished when it was counted, and not what finishes while it runs.
#[test]
fn finish_during_flush(rt: HostRuntime) {
    let mut tracker = Tracker::new();
    assert!(rt; !tracker.is_dirty());
    tracker.write();
    tracker.write();
    tracker.complete();
    let seen = tracker.begin_sync();
    tracker.complete();
    tracker.end_sync(seen);
    assert_eq!(rt; tracker.synced, 1);
    assert!(rt; tracker.is_dirty());
    tracker.end_sync(tracker.begin_sync());
    assert!(rt; !tracker.is_dirty());
}

// Of two flushes the one that counted less ends last, and takes nothing back.
#[test]
fn two_syncs(rt: HostRuntime) {
    let mut tracker = Tracker::new();
    tracker.write();
    tracker.complete();
    let first = tracker.begin_sync();
    tracker.write();
    tracker.complete();
    let second = tracker.begin_sync();
    tracker.end_sync(second);
    assert!(rt; !tracker.is_dirty());
    tracker.end_sync(first);
    assert!(rt; !tracker.is_dirty());
}

#[test]
fn first_failure_stays(rt: HostRuntime) {
    let mut tracker = Tracker::new();
    assert_eq!(rt; tracker.failure(), None);
    tracker.poison(Failure::Write);
    tracker.poison(Failure::Sync(DiskFault::Code(5)));
    assert_eq!(rt; tracker.failure(), Some(Failure::Write));
}

#[test]
fn full_counts_stay(rt: HostRuntime) {
    let mut tracker = Tracker {
        written: u64::MAX,
        completed: u64::MAX - 1,
        ..Tracker::new()
    };
    tracker.write();
    tracker.complete();
    tracker.complete();
    assert_eq!(rt; tracker.written, u64::MAX);
    assert_eq!(rt; tracker.completed, u64::MAX);
}

#[test]
fn clear_entries(rt: HostRuntime) {
    let clear = Entry {
        opening: 1,
        unsettled: None,
        dirty: false,
        failure: None,
    };
    let waits = Entry {
        unsettled: Some(1),
        ..clear
    };
    let dirty = Entry {
        dirty: true,
        ..clear
    };
    let failed = Entry {
        failure: Some(Failure::Write),
        ..clear
    };
    assert!(rt; clear.is_clear());
    assert!(rt; !waits.is_clear());
    assert!(rt; !dirty.is_clear());
    assert!(rt; !failed.is_clear());
}

#[test]
fn stages(rt: HostRuntime) {
    assert!(rt; Stage::Owing.is_owing() && Stage::Blob.is_blob() && Stage::Ended.is_ended());
    assert!(rt; !Stage::Blob.is_owing() && !Stage::Ended.is_blob() && !Stage::Owing.is_ended());
}
