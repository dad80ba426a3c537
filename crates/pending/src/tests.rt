// What names remember, over a few openings.
use crate::Pending;
use faults::Failure;
use keys::{Key, Partition};
use rules::{Entry, Tracker};
use std::test::Fail;

// The opening, the unsettled opening and the debt of an entry.
fn parts(entry: Option<Entry>) -> Option<(u64, Option<u64>, bool)> {
    entry.map(|entry| (entry.opening, entry.unsettled, entry.dirty))
}

// A dirty opening that ends leaves its debt to the next, and only that one clears it.
#[test]
fn debt_is_taken_over(rt: HostRuntime) -> Result<(), Fail> {
    let mut pending = Pending::new(rt.alloc())?;
    let key = Key::new(b"p", b"n")?;
    assert_eq!(rt; pending.admit(&key, 1, &None), Ok(()));
    pending.register(&key, 1);
    assert_eq!(rt; parts(pending.find(&key)), Some((1, Some(1), false)));
    pending.settle(
        &key,
        1,
        &Tracker {
            written: 2,
            completed: 2,
            synced: 1,
            failure: None,
        },
        true,
    );
    assert_eq!(rt; parts(pending.find(&key)), Some((1, None, true)));
    let was = pending.find(&key);
    assert_eq!(rt; pending.admit(&key, 2, &was), Ok(()));
    assert_eq!(rt; parts(pending.find(&key)), Some((2, None, true)));
    pending.clear(&key, 1);
    assert_eq!(rt; parts(pending.find(&key)), Some((2, None, true)));
    pending.clear(&key, 2);
    assert_eq!(rt; parts(pending.find(&key)), Some((2, None, false)));
    Ok(())
}

// An opening that leaves nothing frees its name's place, unless a later one has it.
#[test]
fn clear_entries_are_freed(rt: HostRuntime) -> Result<(), Fail> {
    let key = Key::new(b"p", b"n")?;
    for (ended, held) in [(true, 0), (false, 1)] {
        let mut pending = Pending::new(rt.alloc())?;
        assert_eq!(rt; pending.admit(&key, 1, &None), Ok(()));
        pending.register(&key, 1);
        pending.settle(
            &key,
            1,
            &Tracker {
                written: 1,
                completed: 1,
                synced: 1,
                failure: None,
            },
            ended,
        );
        assert_eq!(rt; pending.held(), held);
    }
    Ok(())
}

// What is forgotten leaves the others in their order.
#[test]
fn names_are_forgotten(rt: HostRuntime) -> Result<(), Fail> {
    let mut pending = Pending::new(rt.alloc())?;
    let first = Key::new(b"p", b"a")?;
    let second = Key::new(b"q", b"b")?;
    let third = Key::new(b"p", b"c")?;
    assert_eq!(rt; pending.admit(&first, 1, &None), Ok(()));
    assert_eq!(rt; pending.admit(&second, 2, &None), Ok(()));
    assert_eq!(rt; pending.admit(&third, 3, &None), Ok(()));
    pending.fail(&second, 2, Failure::Write);
    pending.forget_partition(&Partition::new(b"p")?);
    assert_eq!(rt; pending.held(), 1);
    assert_eq!(rt; pending.key_at(0), Some(second));
    assert_eq!(rt; pending.key_at(1), None);
    pending.forget(&second);
    assert_eq!(rt; pending.held(), 0);
    Ok(())
}
