// What the store's calls answer at each fault of the disk and at each limit, and what a refusal leaves.
use disk::BlobOffset;
use faults::{DiskFault, Fault};
use flat::FlatDisk;
use keys::Key;
use rules::Mode;
use std::test::Fail;
use store::{Blob, Counts, Opened, Store};

static BYTES: [u8; 4097] = [7; 4097];

const FAULT: DiskFault = DiskFault::Code(5);

fn header(len: usize) -> &'static [u8] {
    let all = &BYTES[..];
    &all[0..len.min(all.len())]
}

fn store(plan: &[u16], rt: HostRuntime) -> Result<Store<FlatDisk>, Fail> {
    let disk = FlatDisk::new(plan.to_vec(rt.alloc())?);
    Store::new(disk, rt.alloc()).map_err(|_| Fail::new("no memory for the tables"))
}

// A blob and its length. No opening owes here, since nothing is written; one that did would be ended.
fn open(
    store: &mut Store<FlatDisk>,
    partition: &[u8],
    name: &[u8],
    mode: Mode,
    len: usize,
) -> Result<(Blob, u64), Fault> {
    match store.open(partition, name, mode, header(len))? {
        Opened::Ready(blob, length) => Ok((blob, length)),
        Opened::Owed(mut owing) => {
            store.give_up(&mut owing)?;
            Err(Fault::Unsettled)
        }
    }
}

// Opens the blob n of p under a header of 16 bytes and closes it: its length.
fn visit(store: &mut Store<FlatDisk>, mode: Mode) -> Result<u64, Fault> {
    let (mut blob, length) = open(store, b"p", b"n", mode, 16)?;
    store.close(&mut blob)?;
    Ok(length)
}

// Each request of a fresh open is made to fail, and the name is opened again.
#[test]
fn a_fresh_open_meets_a_fault(rt: HostRuntime) -> Result<(), Fail> {
    let cases: [(&[u16], Result<u64, Fault>, Result<u64, Fault>); 6] = [
        (
            &[5],
            Err(Fault::BlobOpenFailed(FAULT)),
            Err(Fault::ReadFailed),
        ),
        (&[0, 5], Err(Fault::Io(FAULT)), Err(Fault::ReadFailed)),
        (&[0, 0, 5], Err(Fault::Io(FAULT)), Err(Fault::ReadFailed)),
        (&[0, 0, 0, 5], Err(Fault::Io(FAULT)), Err(Fault::Io(FAULT))),
        (&[0, 0, 0, 0, 5], Err(Fault::ReadFailed), Ok(0)),
        (&[], Ok(0), Ok(0)),
    ];
    for (plan, fresh, existing) in cases {
        let mut store = store(plan, rt)?;
        assert_eq!(rt; visit(&mut store, Mode::Fresh), fresh);
        assert_eq!(rt; visit(&mut store, Mode::Existing), existing);
        assert_eq!(rt; visit(&mut store, Mode::Fresh), Ok(0), "whatever was kept");
    }
    Ok(())
}

// The plan's first entry waits for the first request.
#[test]
fn a_bad_key_or_header_asks_nothing(rt: HostRuntime) -> Result<(), Fail> {
    let mut store = store(&[5], rt)?;
    let cases: [(&[u8], &[u8], usize, Fault); 5] = [
        (b"", b"n", 16, Fault::PartitionNameInvalid),
        (b"p.q", b"n", 16, Fault::PartitionNameInvalid),
        (b"p", b"", 16, Fault::BlobNameInvalid),
        (b"p", b"n", 4097, Fault::TooLarge),
        (b"", b"", 4097, Fault::PartitionNameInvalid),
    ];
    for (partition, name, len, fault) in cases {
        let refused = match open(&mut store, partition, name, Mode::Fresh, len) {
            Ok((mut blob, _)) => store.close(&mut blob),
            Err(refused) => Err(refused),
        };
        assert_eq!(rt; refused, Err(fault));
    }
    assert_eq!(rt;
        visit(&mut store, Mode::Fresh),
        Err(Fault::BlobOpenFailed(FAULT))
    );
    Ok(())
}

#[test]
fn a_name_is_open_until_its_blob_is_closed(rt: HostRuntime) -> Result<(), Fail> {
    let mut store = store(&[], rt)?;
    let (mut blob, _) = open(&mut store, b"p", b"n", Mode::Fresh, 16)?;
    let open_yet = visit(&mut store, Mode::Existing);
    let held = store.held(0);
    let closed = store.close(&mut blob);
    assert_eq!(rt; open_yet, Err(Fault::BlobAlreadyOpen));
    assert!(rt; held == Some(Key::new(b"p", b"n")?));
    assert_eq!(rt; closed, Ok(()));
    assert!(rt; store.held(0) == None);
    assert_eq!(rt; visit(&mut store, Mode::Existing), Ok(0));
    Ok(())
}

#[test]
fn a_new_blob_counts_nothing(rt: HostRuntime) -> Result<(), Fail> {
    let mut store = store(&[], rt)?;
    let (mut blob, _) = open(&mut store, b"p", b"n", Mode::Fresh, 16)?;
    let counts = store.counts(&blob);
    let share = store.share(&blob);
    let closed = store.close(&mut blob);
    assert_eq!(rt;
        counts,
        Ok(Counts {
            written: 0,
            completed: 0,
            synced: 0,
        })
    );
    assert_eq!(rt; share, Ok(0));
    assert_eq!(rt; closed, Ok(()));
    Ok(())
}

// A token is of one store alone, and a call that refuses it has spent it.
#[test]
fn a_token_is_not_known(rt: HostRuntime) -> Result<(), Fail> {
    let mut first = store(&[], rt)?;
    let mut other = store(&[], rt)?;
    let (mut blob, _) = open(&mut first, b"p", b"n", Mode::Fresh, 16)?;
    let counted = other.counts(&blob);
    let closed = other.close(&mut blob);
    assert_eq!(rt; counted, Err(Fault::Unknown));
    assert_eq!(rt; closed, Err(Fault::Unknown));
    assert_eq!(rt; first.close(&mut blob), Err(Fault::Unknown));
    assert_eq!(rt; first.share(&blob), Err(Fault::Unknown));
    assert_eq!(rt;
        visit(&mut first, Mode::Existing),
        Err(Fault::BlobAlreadyOpen)
    );
    Ok(())
}

// The last four bytes of a header of 20 are data behind one of 16.
#[test]
fn a_read_ends_where_the_file_does(rt: HostRuntime) -> Result<(), Fail> {
    let mut store = store(&[], rt)?;
    let (mut laid, _) = open(&mut store, b"p", b"n", Mode::Fresh, 20)?;
    store.close(&mut laid)?;
    let cases = [
        (0u64, 8usize, Ok(4usize)),
        (0, 4, Ok(4)),
        (0, 3, Ok(3)),
        (3, 8, Ok(1)),
        (4, 8, Ok(0)),
        (u64::MAX - 16, 8, Ok(0)),
        (u64::MAX - 15, 8, Err(Fault::OffsetOverflow)),
    ];
    for (at, room, answer) in cases {
        let mut into = [0u8; 8];
        let (mut blob, length) = open(&mut store, b"p", b"n", Mode::Existing, 16)?;
        let read = {
            let all = &mut into[..];
            store.read(&blob, BlobOffset::from(at), &mut all[0..room.min(8)])
        };
        let closed = store.close(&mut blob);
        assert_eq!(rt; length, 4);
        assert_eq!(rt; read, answer);
        assert_eq!(rt; closed, Ok(()));
        assert_eq!(rt;
            into.iter().filter(|byte| **byte == 7).count(),
            answer.unwrap_or(0)
        );
    }
    Ok(())
}

// How the innermost of so many fresh openings at once is answered. All are closed again.
fn at_once(store: &mut Store<FlatDisk>, openings: u64) -> Result<(), Fault> {
    let (mut blob, _) = open(store, b"p", b"n", Mode::Fresh, 16)?;
    let inner = if openings > 1 {
        at_once(store, openings - 1)
    } else {
        Ok(())
    };
    store.close(&mut blob)?;
    inner
}

#[test]
fn openings_at_once(rt: HostRuntime) -> Result<(), Fail> {
    let mut store = store(&[], rt)?;
    assert_eq!(rt; at_once(&mut store, 128), Ok(()));
    assert_eq!(rt; at_once(&mut store, 129), Err(Fault::Full));
    assert_eq!(rt; at_once(&mut store, 128), Ok(()), "none is left open");
    Ok(())
}
