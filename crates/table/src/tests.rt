// A table that fills, frees a place and fills again.
ghost use Rattle.std.specs.Prelude.{◌+◌, ◌*◌, ◌%◌, ◌==◌};

use crate::{Full, Keyed, Table, Tells, position};
use std::test::Fail;

#[test]
fn fills(rt: HostRuntime) -> Result<(), Fail> {
    let mut table: Table<u64, u8, 2> = Table::new(rt.alloc())?;
    // The number, and whether there is a place for it.
    for (number, fits) in [
        (7, Ok(())),
        (8, Ok(())),
        (9, Err(Full)),
        (7, Ok(())),
        (8, Ok(())),
    ] {
        assert_eq!(rt; table.put(&number, 1), fits);
    }
    assert_eq!(rt; table.taken(), 2);
    Ok(())
}

#[test]
fn frees(rt: HostRuntime) -> Result<(), Fail> {
    let mut table: Table<u64, u8, 2> = Table::new(rt.alloc())?;
    assert_eq!(rt; table.put(&7, 1), Ok(()));
    assert_eq!(rt; table.put(&8, 2), Ok(()));
    assert_eq!(rt; table.put(&7, 3), Ok(()));
    assert_eq!(rt; table.get(&7), Some(3));
    table.free(&7);
    table.free(&7);
    assert_eq!(rt; table.get(&7), None);
    assert_eq!(rt; table.get(&8), Some(2));
    assert_eq!(rt; table.taken(), 1);
    assert_eq!(rt; table.put(&9, 4), Ok(()));
    assert_eq!(rt; table.get(&9), Some(4));
    Ok(())
}

// A row's number is computed, and is not stored as such.
#[derive(Clone, Copy)]
struct Row {
    tens: u8,
    ones: u8,
}

impl Keyed for Row {
    type Key = u64;

    ghost id = { λ r. r.tens * 10 + r.ones };

    fn key(&self) -> u64 {
        u64::from(self.tens) * 10 + u64::from(self.ones)
    }
}

#[test]
fn rows_are_found_by_what_they_compute(rt: HostRuntime) -> Result<(), Fail> {
    let rows = [(0, 7), (1, 2), (1, 7)].map(|(tens, ones)| Row { tens, ones });
    assert_eq!(rt; position(&rows, &17), Some(2));
    assert_eq!(rt; position(&rows, &12), Some(1));
    assert_eq!(rt; position(&rows, &71), None);
    Ok(())
}

#[derive(Drop)]
struct Even;

impl Tells<u64> for Even {
    ghost told = { λ _ n. n % 2 == 0 };

    fn tells(&self, key: &u64) -> bool {
        key % 2 == 0
    }
}

#[test]
fn changes_what_is_there(rt: HostRuntime) -> Result<(), Fail> {
    let mut table: Table<u64, u8, 3> = Table::new(rt.alloc())?;
    for number in [4, 5, 6] {
        assert_eq!(rt; table.put(&number, 1), Ok(()));
    }
    table.replace(&5, 0);
    table.replace(&7, 0);
    assert_eq!(rt; table.get(&4), Some(1));
    assert_eq!(rt; table.get(&5), Some(0));
    assert_eq!(rt; table.get(&7), None);
    table.free_told(&Even);
    assert_eq!(rt; table.taken(), 1);
    assert_eq!(rt; table.key_at(0), Some(5));
    assert_eq!(rt; table.key_at(1), None);
    Ok(())
}
