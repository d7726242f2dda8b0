// What is said of a store that is there already.
use crate::playing::{CHECK, FIRST, SESSION, play_on};
use gl_cli::Status;
use gl_node::Log;
use gl_outside::{Disk, MemoryDisk, Outside};
use std::alloc::Global;
use std::test::Fail;

// More bytes than an area of these stores has.
const ALL: u64 = 4096;

const AT_THE_JOURNAL: Status = Status::Damaged {
    log: Log::Journal,
    area: 0,
    at: 0,
};

const AT_THE_ENTRY: Status = Status::Damaged {
    log: Log::Journal,
    area: 0,
    at: 25,
};

const AT_THE_INDEX: Status = Status::Damaged {
    log: Log::Index,
    area: 1,
    at: 0,
};

const AT_THE_OUTCOME: Status = Status::Damaged {
    log: Log::Index,
    area: 1,
    at: 25,
};

/// The store of the first script of which the two areas are cut to so many bytes, and what `check` says of it.
#[derive(Clone, Copy)]
struct Row {
    journal: u64,
    index: u64,
    status: Status,
    line: &'static [u8],
}

const ROWS: [Row; 12] = [
    Row {
        journal: ALL,
        index: ALL,
        status: Status::Done,
        line: b"check journal 1 committed 1 version 0\n",
    },
    // A log without a batch is begun.
    Row {
        journal: ALL,
        index: 1,
        status: Status::Done,
        line: b"check journal 1 committed 0 version 0\n",
    },
    Row {
        journal: ALL,
        index: 0,
        status: Status::Done,
        line: b"check journal 1 committed 0 version 0\n",
    },
    Row {
        journal: 0,
        index: 0,
        status: Status::Done,
        line: b"check journal 0 committed 0 version 0\n",
    },
    Row {
        journal: 20,
        index: ALL,
        status: AT_THE_JOURNAL,
        line: b"",
    },
    Row {
        journal: 20,
        index: 20,
        status: AT_THE_JOURNAL,
        line: b"",
    },
    // An open gate with nothing behind it.
    Row {
        journal: 26,
        index: ALL,
        status: AT_THE_ENTRY,
        line: b"",
    },
    // The byte behind the last batch is gone.
    Row {
        journal: 77,
        index: ALL,
        status: AT_THE_ENTRY,
        line: b"",
    },
    Row {
        journal: ALL,
        index: 26,
        status: AT_THE_OUTCOME,
        line: b"",
    },
    // An outcome without its entry.
    Row {
        journal: 0,
        index: ALL,
        status: AT_THE_OUTCOME,
        line: b"",
    },
    Row {
        journal: ALL,
        index: 20,
        status: AT_THE_INDEX,
        line: b"",
    },
    // Both logs are read before the journal would be begun.
    Row {
        journal: 0,
        index: 20,
        status: AT_THE_INDEX,
        line: b"",
    },
];

/// The store of the first script, cut.
fn cut_store(alloc: Global, row: &Row) -> Result<MemoryDisk, Outside> {
    let mut disk = MemoryDisk::new(alloc, Vec::new(alloc))?;
    let _ = play_on(alloc, SESSION, FIRST, &mut disk)?;
    disk.cut(0, row.journal)?;
    disk.cut(1, row.index)?;
    Ok(disk)
}

/// Whether `check` and then a session end as a row has it, `check` with its line, and both leave a damaged store as it was.
fn is_as_said(alloc: Global, row: &Row) -> Result<bool, Outside> {
    let untouched = cut_store(alloc, row)?;
    let mut disk = cut_store(alloc, row)?;
    let ended = play_on(alloc, CHECK, b"", &mut disk)?;
    if ended.status != row.status || ended.written.as_slice() != row.line {
        return Ok(false);
    }
    let ended = play_on(alloc, SESSION, FIRST, &mut disk)?;
    if ended.status != row.status {
        return Ok(false);
    }
    Ok(
        ended.status == Status::Done
            || (disk.bytes(0) == untouched.bytes(0) && disk.bytes(1) == untouched.bytes(1)),
    )
}

// A damaged store is told as such, at the first unlawful batch, and left as it is.
#[test]
fn stores_that_are_there(rt: HostRuntime) -> Result<(), Fail> {
    let alloc = rt.alloc();
    for row in &ROWS {
        assert!(rt; is_as_said(alloc, row)?);
    }
    Ok(())
}

// The next session on a store goes on behind what is there.
#[test]
fn a_session_goes_on(rt: HostRuntime) -> Result<(), Fail> {
    let alloc = rt.alloc();
    let mut disk = MemoryDisk::new(alloc, Vec::new(alloc))?;
    let _ = play_on(alloc, SESSION, FIRST, &mut disk)?;
    let second = b"at 2000\nudp raw 10.0.0.8 more\nlist\nclaim 0 10\nfinish 0\n";
    let ended = play_on(alloc, SESSION, second, &mut disk)?;
    assert!(rt; ended.status == Status::Done);
    assert!(rt;
        ended.written.as_slice()
            == b"journalled 1\njournal 2 committed 1\n0 stored 000000000000000000000001 message=hello&source=10.0.0.7&timestamp:1000\nclaimed 0 1 2\ncommitted 2\ndone 2 2\n".as_slice()
    );
    Ok(())
}
