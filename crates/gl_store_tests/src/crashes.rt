// What a store opens to that was interrupted anywhere.
use crate::playing::{CHECK, FIRST, FIRST_OUTPUT, SESSION, play_on};
use gl_cli::Status;
use gl_node::{Arrival, Node, Options};
use gl_outside::{MemoryDisk, Unsynced};
use std::alloc::{AllocError, Global};
use std::test::Fail;

/// What may become of the bytes that aren't synced, in the order of the tables below.
const FATES: [Unsynced; 5] = [
    Unsynced::Whole,
    Unsynced::Absent,
    Unsynced::Half,
    Unsynced::Zeros,
    Unsynced::Ones,
];

const NOTHING: &[u8] = b"check journal 0 committed 0 version 0\n";

const JOURNALLED: &[u8] = b"check journal 1 committed 0 version 0\n";

const COMMITTED: &[u8] = b"check journal 1 committed 1 version 0\n";

/// What `check` says of a store that a crash left in the midst of a run of the first script, by the fate of its unsynced bytes.
#[derive(Clone, Copy)]
struct Left {
    /// The first and the last call of the disk for which this holds.
    calls: (u64, u64),
    found: [&'static [u8]; 5],
}

/// A stop behind so many calls. Opening makes eighteen: each area is synced, measured and read, and then begun by six
/// calls. The append makes four, and so does the finish: its batch is written and synced, its gate is written and synced.
const STOPPED: [Left; 5] = [
    Left {
        calls: (0, 20),
        found: [NOTHING, NOTHING, NOTHING, NOTHING, NOTHING],
    },
    Left {
        calls: (21, 21),
        found: [JOURNALLED, NOTHING, NOTHING, NOTHING, NOTHING],
    },
    Left {
        calls: (22, 24),
        found: [JOURNALLED, JOURNALLED, JOURNALLED, JOURNALLED, JOURNALLED],
    },
    Left {
        calls: (25, 25),
        found: [COMMITTED, JOURNALLED, JOURNALLED, JOURNALLED, JOURNALLED],
    },
    Left {
        calls: (26, 26),
        found: [COMMITTED, COMMITTED, COMMITTED, COMMITTED, COMMITTED],
    },
];

const UNTOLD: &[u8] = b"";

// What the first script writes before its range is finished.
const TOLD: &[u8] = b"journalled 0\nclaimed 0 0 1\n";

/// A run in which one call alone fails, and what it wrote before. A write that failed may have been done.
const FAILED: [(Left, &[u8]); 4] = [
    (
        Left {
            calls: (1, 20),
            found: [NOTHING, NOTHING, NOTHING, NOTHING, NOTHING],
        },
        UNTOLD,
    ),
    (
        Left {
            calls: (21, 22),
            found: [JOURNALLED, NOTHING, NOTHING, NOTHING, NOTHING],
        },
        UNTOLD,
    ),
    (
        Left {
            calls: (23, 24),
            found: [JOURNALLED, JOURNALLED, JOURNALLED, JOURNALLED, JOURNALLED],
        },
        TOLD,
    ),
    (
        Left {
            calls: (25, 26),
            found: [COMMITTED, JOURNALLED, JOURNALLED, JOURNALLED, JOURNALLED],
        },
        TOLD,
    ),
];

/// Whether `check` says these lines of what a crash leaves behind so many calls of a disk.
fn opens_to(
    alloc: Global,
    disk: &MemoryDisk,
    calls: u64,
    found: &[&[u8]; 5],
) -> Result<bool, AllocError> {
    for i in 0..5 {
        let mut left = disk.after_crash(alloc, calls, FATES[i], Vec::new(alloc))?;
        let ended = play_on(alloc, CHECK, b"", &mut left)?;
        if ended.status != Status::Done || ended.written.as_slice() != found[i] {
            return Ok(false);
        }
    }
    Ok(true)
}

/// The same behind each of the calls of a row.
fn all_open_to(alloc: Global, disk: &MemoryDisk, row: &Left) -> Result<bool, AllocError> {
    for calls in row.calls.0..=row.calls.1 {
        if !opens_to(alloc, disk, calls, &row.found)? {
            return Ok(false);
        }
    }
    Ok(true)
}

/// Whether a run of the first script in which this call alone fails writes this, and leaves these.
fn fails_as(alloc: Global, call: u64, told: &[u8], found: &[&[u8]; 5]) -> Result<bool, AllocError> {
    let mut disk = MemoryDisk::new(alloc, Vec::from_slice(alloc, &[call])?)?;
    let ended = play_on(alloc, SESSION, FIRST, &mut disk)?;
    if ended.status != Status::DiskFault || ended.written.as_slice() != told {
        return Ok(false);
    }
    opens_to(alloc, &disk, disk.calls(), found)
}

/// The same for each of the calls of a row.
fn all_fail_as(alloc: Global, left: &Left, told: &[u8]) -> Result<bool, AllocError> {
    for call in left.calls.0..=left.calls.1 {
        if !fails_as(alloc, call, told, &left.found)? {
            return Ok(false);
        }
    }
    Ok(true)
}

// A stop at any moment leaves each event that was answered, and at most the one that was under way.
#[test]
fn a_stop_after_each_call(rt: HostRuntime) -> Result<(), Fail> {
    let alloc = rt.alloc();
    let mut disk = MemoryDisk::new(alloc, Vec::new(alloc))?;
    let ended = play_on(alloc, SESSION, FIRST, &mut disk)?;
    assert!(rt; ended.written.as_slice() == FIRST_OUTPUT && disk.calls() == 26);
    for row in &STOPPED {
        assert!(rt; all_open_to(alloc, &disk, row)?);
    }
    Ok(())
}

// Each call of the disk failing, up to the run in which none is left to fail.
#[test]
fn each_call_failing_alone(rt: HostRuntime) -> Result<(), Fail> {
    let alloc = rt.alloc();
    for (left, told) in &FAILED {
        assert!(rt; all_fail_as(alloc, left, told)?);
    }
    let mut disk = MemoryDisk::new(alloc, Vec::from_slice(alloc, &[27])?)?;
    let ended = play_on(alloc, SESSION, FIRST, &mut disk)?;
    assert!(rt; ended.written.as_slice() == FIRST_OUTPUT);
    Ok(())
}

const SMALL: Options = Options {
    segment: 4096,
    journal_limit: 1 << 36,
    index_limit: 1 << 40,
};

/// Opens a store of small segments, journals 1,000 bytes, and says whether they got this position.
fn journals_at(alloc: Global, disk: &mut MemoryDisk, position: u64) -> Result<bool, Fail> {
    let mut node = Node::open(alloc, disk, SMALL)?;
    let payload = [b'x'; 1000];
    let arrival = node.datagram(disk, 1000, "raw", "10.0.0.7", &payload)?;
    Ok(arrival == Arrival::Journalled { position })
}

/// A disk with five such entries, if they got the positions from 0 on.
fn five_entries(alloc: Global) -> Result<Option<MemoryDisk>, Fail> {
    let mut disk = MemoryDisk::new(alloc, Vec::new(alloc))?;
    for position in 0..5 {
        if !journals_at(alloc, &mut disk, position)? {
            return Ok(None);
        }
    }
    Ok(Some(disk))
}

/// How many entries a store of small segments has that a crash left behind so many calls of a disk, by each fate.
fn journalled_after(alloc: Global, disk: &MemoryDisk, calls: u64) -> Result<[u64; 5], Fail> {
    let mut counts = [0; 5];
    for i in 0..5 {
        let mut left = disk.after_crash(alloc, calls, FATES[i], Vec::new(alloc))?;
        let node = Node::open(alloc, &mut left, SMALL)?;
        counts[i] = node.journalled();
    }
    Ok(counts)
}

/// What `journalled_after` tells before the last six calls, and behind each of them.
const BEGUN: [[u64; 5]; 7] = [
    [4, 4, 4, 4, 4],
    [4, 4, 4, 4, 4],
    [4, 4, 4, 4, 4],
    [4, 4, 4, 4, 4],
    [4, 4, 4, 4, 4],
    [5, 4, 4, 4, 4],
    [5, 5, 5, 5, 5],
];

// The fifth of these entries begins the second segment: its gate is shut first, by two calls more.
#[test]
fn a_stop_where_a_segment_begins(rt: HostRuntime) -> Result<(), Fail> {
    let alloc = rt.alloc();
    let Some(disk) = five_entries(alloc)? else {
        return Err("an entry got another position".into());
    };
    assert!(rt; disk.bytes(0).len() == 4214 && disk.bytes(2).len() == 1048);
    let mut calls = disk.calls().saturating_sub(6);
    for counts in BEGUN {
        assert!(rt; journalled_after(alloc, &disk, calls)? == counts);
        calls = calls.saturating_add(1);
    }
    Ok(())
}
