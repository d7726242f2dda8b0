// Scripts over a source that gives pieces or fails, and a sink that takes pieces or fails.
use crate::playing::{FIRST, FIRST_OUTPUT, SESSION};
use gl_base::Text;
use gl_cli::{Status, run_command};
use gl_outside::{MemoryDisk, MemorySink, MemorySource};
use gl_patterns::ListShop;
use std::alloc::{AllocError, Global};
use std::test::Fail;

/// A script that comes and is answered in pieces of so many bytes, and which calls of the source and of the sink fail.
#[derive(Clone, Copy)]
struct Given<'a> {
    script: &'a [u8],
    piece: usize,
    source: &'a [u64],
    sink: &'a [u64],
}

/// What is to come of it: the status, what is written, and how long the journal is.
#[derive(Clone, Copy)]
struct Wanted {
    status: Status,
    written: &'static [u8],
    journal: usize,
}

/// Whether a session over a new store comes to what is wanted.
fn ends_as_said(alloc: Global, given: &Given<'_>, wanted: &Wanted) -> Result<bool, AllocError> {
    let words = [
        Text::from_str(alloc, SESSION[0])?,
        Text::from_str(alloc, SESSION[1])?,
    ];
    let mut disk = MemoryDisk::new(alloc, Vec::new(alloc))?;
    let mut shop = ListShop::new(alloc, Vec::new(alloc));
    let mut source = MemorySource::new(given.script, given.piece, given.source);
    let mut sink = MemorySink::new(alloc, given.piece, Vec::from_slice(alloc, given.sink)?);
    let status = run_command(alloc, &words, &mut disk, &mut shop, &mut source, &mut sink);
    Ok(
        status == wanted.status
            && sink.bytes() == wanted.written
            && disk.bytes(0).len() == wanted.journal,
    )
}

/// The begin batch of the journal and a shut gate behind it.
const BEGUN: usize = 26;

/// With the entry of the first script.
const WITH_HELLO: usize = 78;

const ROWS: [(Given<'static>, Wanted); 6] = [
    // However the source cuts a script, and however little the sink takes.
    (
        Given {
            script: FIRST,
            piece: 1,
            source: &[],
            sink: &[],
        },
        Wanted {
            status: Status::Done,
            written: FIRST_OUTPUT,
            journal: WITH_HELLO,
        },
    ),
    (
        Given {
            script: FIRST,
            piece: 7,
            source: &[],
            sink: &[],
        },
        Wanted {
            status: Status::Done,
            written: FIRST_OUTPUT,
            journal: WITH_HELLO,
        },
    ),
    (
        Given {
            script: FIRST,
            piece: 4096,
            source: &[1],
            sink: &[],
        },
        Wanted {
            status: Status::SourceFault,
            written: b"",
            journal: BEGUN,
        },
    ),
    // The sink isn't written to again.
    (
        Given {
            script: FIRST,
            piece: 4096,
            source: &[],
            sink: &[1],
        },
        Wanted {
            status: Status::SinkFault,
            written: b"",
            journal: WITH_HELLO,
        },
    ),
    // The answers of the lines that came are in the sink before more of the source is asked for.
    (
        Given {
            script: b"udp raw p x\nudp raw p y\nudp raw p z\n",
            piece: 25,
            source: &[2],
            sink: &[],
        },
        Wanted {
            status: Status::SourceFault,
            written: b"journalled 0\njournalled 1\n",
            journal: 108,
        },
    ),
    // Behind a bad line the source isn't asked again.
    (
        Given {
            script: b"claim 64 1\nlist\n",
            piece: 11,
            source: &[2],
            sink: &[],
        },
        Wanted {
            status: Status::BadScript { line: 1 },
            written: b"",
            journal: BEGUN,
        },
    ),
];

#[test]
fn the_first_fault_ends_the_run(rt: HostRuntime) -> Result<(), Fail> {
    for (given, wanted) in &ROWS {
        assert!(rt; ends_as_said(rt.alloc(), given, wanted)?);
    }
    Ok(())
}
