// What a node answers.
use crate::mark::Mark;
use crate::work::Range;

/// What became of a payload.
#[derive(Clone, Copy, Debug, PartialEq, Eq)]
pub enum Arrival {
    /// It is an entry of the journal, at this position, and on the disk.
    Journalled { position: u64 },
    /// It has no bytes.
    Empty,
    /// It is a chunk of a message that isn't whole yet, and is kept.
    Held,
    /// This chunk came before, or its message was completed or given up at most 5,000 milliseconds ago. Nothing changed.
    Repeat,
    /// It begins as a chunk and is none: it has less than 12 bytes, a count of 0 or above 128, or a number not below its count.
    BadChunk,
    /// It is a chunk of a message whose first chunk gave `kept` as its count, and gives `given`. Nothing changed.
    CountMismatch { kept: u8, given: u8 },
    /// It is the first chunk of a message while 1,024 others aren't whole. Nothing changed.
    ChunkTableFull,
    /// It has more than 1,048,576 bytes, or so have the chunks of its message; the message is then given up.
    FrameTooLong,
    /// No input has this name.
    UnknownInput,
    /// The journal has `bytes` bytes, and with this payload it would pass `limit`.
    JournalFull { bytes: u64, limit: u64 },
}

/// What a claim gives.
#[derive(Drop)]
pub enum Claimed {
    /// A range to work on.
    Range(Range),
    /// Every position of the journal is claimed or finished.
    Nothing,
    /// The worker holds this range already.
    Busy(Mark),
}

/// What became of a finished range.
#[derive(Clone, Copy, Debug, PartialEq, Eq)]
pub enum Finished {
    /// Every position below this one is committed.
    Committed(u64),
    /// It waits: a position before it isn't finished. Every position below this one is committed.
    Kept(u64),
    /// The worker holds no range. Nothing changed.
    NoClaim,
    /// The work isn't of the range that the worker holds. Nothing changed.
    Stale { kept: Mark, given: Mark },
    /// The index log has `bytes` bytes, and with the next range it would pass `limit`. That range waits.
    IndexFull { bytes: u64, limit: u64 },
}
