// How the tests run the program's words over a disk in memory, and the script that most of them run.
use gl_base::Text;
use gl_cli::{Status, run_command};
use gl_outside::{MemoryDisk, MemorySink, MemorySource};
use gl_patterns::ListShop;
use std::alloc::{AllocError, Global};

pub const SESSION: [&str; 2] = ["session", "x"];

pub const CHECK: [&str; 2] = ["check", "x"];

/// One datagram that is journalled, claimed and committed.
pub const FIRST: &[u8] = b"at 1000\nudp raw 10.0.0.7 hello\nclaim 0 10\nfinish 0\nlist\n";

pub const FIRST_OUTPUT: &[u8] =
    b"journalled 0\nclaimed 0 0 1\ncommitted 1\njournal 1 committed 1\n0 stored 000000000000000000000001 message=hello&source=10.0.0.7&timestamp:1000\ndone 1 1\n";

/// How a run on a disk ended, and what it wrote.
#[derive(Drop)]
pub struct Ended {
    pub status: Status,
    pub written: Vec<u8>,
}

/// Runs words over a script, on a disk that is there already.
pub fn play_on(
    alloc: Global,
    words: [&str; 2],
    script: &[u8],
    disk: &mut MemoryDisk,
) -> Result<Ended, AllocError> {
    let words = [
        Text::from_str(alloc, words[0])?,
        Text::from_str(alloc, words[1])?,
    ];
    let mut shop = ListShop::new(alloc, Vec::new(alloc));
    let mut source = MemorySource::new(script, 4096, &[]);
    let mut sink = MemorySink::new(alloc, 4096, Vec::new(alloc));
    let status = run_command(alloc, &words, disk, &mut shop, &mut source, &mut sink);
    let written = Vec::from_slice(alloc, sink.bytes())?;
    Ok(Ended { status, written })
}

/// Whether a script over a new store ends well and writes just this.
pub fn writes(alloc: Global, script: &[u8], written: &[u8]) -> Result<bool, AllocError> {
    let mut disk = MemoryDisk::new(alloc, Vec::new(alloc))?;
    let ended = play_on(alloc, SESSION, script, &mut disk)?;
    Ok(ended.status == Status::Done && ended.written.as_slice() == written)
}
