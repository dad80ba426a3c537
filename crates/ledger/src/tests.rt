use crate::Ledger;
use crate::tables::{NAMES, OPENINGS, TICKETS};
use faults::Fault;
use keys::Key;
use rules::{Account, Entry, Opening, Ticket};
use std::mem::size_of;
use std::test::Fail;
use table::Slot;

// All that a store takes besides its disk.
#[test]
fn the_tables_take_at_most_64_kib(rt: HostRuntime) {
    let openings = OPENINGS * size_of::<Slot<u64, Opening>>();
    let tickets = TICKETS * size_of::<Slot<u64, Ticket>>();
    let names = NAMES * size_of::<Slot<Key, Entry>>();
    let bytes = size_of::<Ledger>() + openings + tickets + names;
    assert_eq!(rt; bytes, 52_312);
    assert!(rt; bytes <= 65_536);
}

// An opening that ends gives its file back, and leaves the place of its name.
#[test]
fn admitted_again_after_its_end(rt: HostRuntime) -> Result<(), Fail> {
    let mut ledger = Ledger::new(rt.alloc())?;
    let key = ledger.check_open(b"p", b"n", 16)?;
    assert_eq!(rt; ledger.admit(&key, 7, 16, &None), Some(1));
    let was = ledger.names.find(&key);
    assert_eq!(rt; ledger.bar(&was), Err(Fault::BlobAlreadyOpen));
    assert_eq!(rt; ledger.end(1), Some(7));
    assert!(rt; !ledger.is_live(1));
    assert_eq!(rt; ledger.names.held(), 0);
    assert_eq!(rt; ledger.admit(&key, 8, 16, &None), Some(2));
    Ok(())
}

// While a ticket is out the file of an ended opening stays open.
#[test]
fn last_ticket_closes(rt: HostRuntime) -> Result<(), Fail> {
    let mut ledger = Ledger::new(rt.alloc())?;
    let key = ledger.check_open(b"p", b"n", 16)?;
    assert_eq!(rt; ledger.admit(&key, 7, 16, &None), Some(1));
    let opening = ledger
        .opening(1)
        .ok_or_else(|| Fail::new("no opening is there"))?;
    ledger.set_account(
        1,
        Account {
            out: 1,
            ..opening.account
        },
    );
    assert_eq!(rt; ledger.end(1), None);
    assert!(rt; ledger.unspent(Some(1)));
    assert_eq!(rt; ledger.spend(1, 1), Some(7));
    assert!(rt; !ledger.unspent(Some(1)));
    Ok(())
}
