// What the flat disk answers where a rule begins or ends to hold.
use disk::{BlobOffset, Disk, FileOffset, Path};
use faults::{DiskFault, Fault, LengthFault, OpenFault, ResizeFault, UnbindFault, WriteFault};
use flat::FlatDisk;
use keys::Key;
use std::test::Fail;

// No room in a file, or no number for one.
const NO_ROOM: DiskFault = DiskFault::Code(28);

const NOT_HELD: DiskFault = DiskFault::Code(9);

static BYTES: [u8; 4097] = [7; 4097];

fn part(len: usize) -> &'static [u8] {
    let all = &BYTES[..];
    &all[0..len.min(all.len())]
}

fn key(name: &[u8]) -> Result<Key, Fault> {
    Key::new(b"p", name)
}

fn at(place: u64) -> Result<FileOffset, Fault> {
    BlobOffset::from(place).in_file(0)
}

#[test]
fn a_write_ends_at_4096(rt: HostRuntime) -> Result<(), Fail> {
    let mut disk = FlatDisk::new(Vec::new(rt.alloc()));
    let file = disk.open(&key(b"a")?)?;
    let cases = [
        (0u64, 4095usize, 4095usize),
        (0, 4096, 4096),
        (0, 4097, 4096),
        (4095, 2, 1),
        (4096, 0, 0),
    ];
    for (place, len, landed) in cases {
        assert_eq!(rt;
            disk.write(file, at(place)?, part(len), Path::Single)?,
            landed
        );
    }
    assert_eq!(rt;
        disk.write(file, at(4096)?, part(1), Path::Single),
        Err(WriteFault::from(NO_ROOM))
    );
    Ok(())
}

#[test]
fn a_file_has_at_most_4096(rt: HostRuntime) -> Result<(), Fail> {
    let mut disk = FlatDisk::new(Vec::new(rt.alloc()));
    let file = disk.open(&key(b"a")?)?;
    disk.header(file, part(4096))?;
    assert_eq!(rt;
        disk.header(file, part(4097)),
        Err(WriteFault::from(NO_ROOM))
    );
    disk.resize(file, at(4095)?)?;
    assert_eq!(rt;
        disk.resize(file, at(4097)?),
        Err(ResizeFault::from(NO_ROOM))
    );
    assert_eq!(rt; disk.length(file)?, 4095);
    disk.resize(file, at(4096)?)?;
    assert_eq!(rt; disk.length(file)?, 4096);
    Ok(())
}

#[test]
fn the_lowest_of_eight_numbers(rt: HostRuntime) -> Result<(), Fail> {
    let mut disk = FlatDisk::new(Vec::new(rt.alloc()));
    for (i, name) in b"abcdefgh".iter().enumerate() {
        assert_eq!(rt; disk.open(&key(&[*name])?)?, i as u64);
    }
    assert_eq!(rt; disk.open(&key(b"i")?), Err(OpenFault::from(NO_ROOM)));
    disk.unbind(&key(b"d")?)?;
    disk.close(3);
    assert_eq!(rt; disk.open(&key(b"i")?)?, 3);
    Ok(())
}

#[test]
fn an_open_is_planned(rt: HostRuntime) -> Result<(), Fail> {
    for (entry, code) in [
        (0u16, None),
        (1, Some(1u16)),
        (4, None),
        (28, Some(28)),
        (4095, Some(4095)),
        (4096, None),
        (65535, None),
    ] {
        let mut disk = FlatDisk::new([entry].to_vec(rt.alloc())?);
        let fault = code.map(DiskFault::Code);
        assert_eq!(rt; disk.open(&key(b"a")?).err(), fault.map(OpenFault::from));
        assert_eq!(rt; disk.open(&key(b"a")?).err(), None, "past the end");
    }
    Ok(())
}

#[test]
fn a_write_is_planned(rt: HostRuntime) -> Result<(), Fail> {
    for (entry, code, len) in [
        (0u16, None, 3u64),
        (4, Some(4u16), 0),
        (4095, Some(4095), 0),
        (4096, None, 0),
        (4097, None, 1),
        (4098, None, 2),
        (4099, None, 3),
        (65535, None, 3),
    ] {
        let mut disk = FlatDisk::new([0, entry].to_vec(rt.alloc())?);
        let file = disk.open(&key(b"a")?)?;
        let answer = disk.write(file, at(0)?, part(3), Path::Single);
        let fault = code.map(DiskFault::Code);
        assert_eq!(rt; answer.err(), fault.map(WriteFault::from));
        assert_eq!(rt; disk.length(file)?, len);
    }
    Ok(())
}

#[test]
fn an_unbinding_is_planned(rt: HostRuntime) -> Result<(), Fail> {
    for (entry, bound, absent) in [
        (0u16, None, 2u16),
        (2, None, 2),
        (4, None, 2),
        (5, Some(5u16), 5),
        (4096, None, 2),
    ] {
        let key = key(b"a")?;
        let mut disk = FlatDisk::new([0, entry].to_vec(rt.alloc())?);
        disk.open(&key)?;
        let fault = bound.map(DiskFault::Code);
        assert_eq!(rt; disk.unbind(&key).err(), fault.map(UnbindFault::from));
        let mut disk = FlatDisk::new([entry, entry].to_vec(rt.alloc())?);
        let absent = Err(UnbindFault::from(DiskFault::Code(absent)));
        assert_eq!(rt; disk.unbind(&key), absent);
        assert_eq!(rt; disk.unbind_partition(key.partition()), absent);
    }
    Ok(())
}

#[test]
fn a_file_goes_with_its_last_hold(rt: HostRuntime) -> Result<(), Fail> {
    let mut disk = FlatDisk::new(Vec::new(rt.alloc()));
    let key = key(b"a")?;
    let file = disk.open(&key)?;
    disk.close(file);
    assert!(rt; disk.file(file).is_some(), "bound");
    assert_eq!(rt;
        disk.length(file),
        Err(LengthFault::from(NOT_HELD)),
        "not held"
    );
    assert_eq!(rt; disk.open(&key)?, file);
    disk.unbind(&key)?;
    assert!(rt; disk.file(file).is_some(), "held");
    disk.close(file);
    assert!(rt; disk.file(file).is_none());
    assert_eq!(rt; disk.barrier_start(file), 0);
    Ok(())
}

#[test]
fn a_barrier_covers_what_had_landed(rt: HostRuntime) -> Result<(), Fail> {
    let mut disk = FlatDisk::new(Vec::new(rt.alloc()));
    let file = disk.open(&key(b"a")?)?;
    disk.write(file, at(0)?, part(2), Path::Single)?;
    let mark = disk.barrier_start(file);
    disk.write(file, at(3)?, part(1), Path::Single)?;
    disk.barrier_end(file, mark)?;
    let seen = disk.file(file).ok_or("gone")?;
    assert_eq!(rt; seen.bytes, &[7u8, 7, 0, 7][..]);
    assert_eq!(rt; seen.n, 2);
    assert_eq!(rt; seen.k, 1);
    Ok(())
}
