// What a crash leaves of a disk in memory.
use gl_outside::{Disk, MemoryDisk, Outside, Unsynced};
use std::alloc::{AllocError, Global};
use std::test::*;

// The calls of a disk: 1 writes "abcde" to area 0, 2 "pq" to area 1, 3 syncs area 0, 4 writes "AB" over its front,
// 5 cuts area 1 to one byte, 6 syncs it, 7 cuts area 0 to three, 8 writes "Q" over area 1 and fails.
fn after_eight_calls(alloc: Global) -> Result<MemoryDisk, Outside> {
    let mut disk = MemoryDisk::new(alloc, Vec::from_slice(alloc, &[8])?)?;
    disk.write_at(0, 0, b"abcde")?;
    disk.write_at(1, 0, b"pq")?;
    disk.sync(0)?;
    disk.write_at(0, 0, b"AB")?;
    disk.cut(1, 1)?;
    disk.sync(1)?;
    disk.cut(0, 3)?;
    let _ = disk.write_at(1, 0, b"Q");
    Ok(disk)
}

// Behind how many calls, what became of what was not synced, and what is left of the two areas.
type Row = (u64, Unsynced, &'static [u8], &'static [u8]);

const ROWS: [Row; 15] = [
    (0, Unsynced::Whole, b"", b""),
    (1, Unsynced::Half, b"ab", b""),
    (2, Unsynced::Zeros, b"\0\0\0\0\0", b"\0\0"),
    (3, Unsynced::Ones, b"abcde", b"\xff\xff"),
    (4, Unsynced::Absent, b"abcde", b""),
    (4, Unsynced::Half, b"Abcde", b"p"),
    (4, Unsynced::Whole, b"ABcde", b"pq"),
    (5, Unsynced::Zeros, b"\0\0cde", b"\0\0"),
    (6, Unsynced::Ones, b"\xff\xffcde", b"p"),
    (7, Unsynced::Absent, b"abcde", b"p"),
    (7, Unsynced::Half, b"Abcd", b"p"),
    (7, Unsynced::Zeros, b"\0\0c\0\0", b"p"),
    (8, Unsynced::Absent, b"abcde", b"p"),
    (8, Unsynced::Whole, b"ABc", b"Q"),
    (9, Unsynced::Ones, b"\xff\xffc\xff\xff", b"\xff"),
];

// Whether a crash behind so many of them leaves this of the two areas, and another crash changes nothing.
fn leaves(
    disk: &MemoryDisk,
    (alloc, calls): (Global, u64),
    unsynced: Unsynced,
    first: &[u8],
    second: &[u8],
) -> Result<bool, AllocError> {
    let found = disk.after_crash(alloc, calls, unsynced, Vec::new(alloc))?;
    let again = found.after_crash(alloc, 4, Unsynced::Absent, Vec::new(alloc))?;
    let areas = [
        found.bytes(0),
        again.bytes(0),
        found.bytes(1),
        again.bytes(1),
    ];
    Ok(areas == [first, first, second, second])
}

fn all_hold(alloc: Global, disk: &MemoryDisk, rows: &[Row]) -> Result<bool, AllocError> {
    for row in rows {
        let (calls, unsynced, first, second) = *row;
        if !leaves(disk, (alloc, calls), unsynced, first, second)? {
            return Ok(false);
        }
    }
    Ok(true)
}

#[test]
fn a_crash_leaves_each_kind_of_image(rt: HostRuntime) -> Result<(), Fail> {
    let alloc = rt.alloc();
    let disk = after_eight_calls(alloc).expect(&rt, "eight calls");
    assert!(rt; all_hold(alloc, &disk, &ROWS)?);
    Ok(())
}

#[test]
fn a_found_disk_counts_its_calls_anew(rt: HostRuntime) -> Result<(), Fail> {
    let alloc = rt.alloc();
    let disk = after_eight_calls(alloc).expect(&rt, "eight calls");
    let failing = Vec::from_slice(alloc, &[2])?;
    let mut found = disk.after_crash(alloc, 8, Unsynced::Whole, failing)?;
    assert!(rt; found.length(0) == Ok(3));
    assert!(rt; found.sync(0) == Err(Outside::Failed) && found.faults() == 1);
    assert!(rt; found.cut(0, 1) == Ok(()) && found.bytes(0) == b"A".as_slice());
    Ok(())
}
