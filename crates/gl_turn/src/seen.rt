// What a seat sees of the value. No value of these types is made: they stand in contracts alone.
use std::collections::LinkedList;

/// What stood when the store was opened, and never changes.
pub struct Base {
    /// The outcomes that were found, by their bytes.
    pub outcomes: LinkedList<LinkedList<u8>>,
    /// The number of entries that were found.
    pub journalled: u64,
    /// The most bytes that each log may have.
    pub journal_limit: u64,
    pub index_limit: u64,
    /// The bytes of each log after opening.
    pub journal_bytes: u64,
    pub index_bytes: u64,
    /// The disk's count of faults after opening.
    pub faults: u64,
}

/// What one value of the lock shows.
pub struct Seen {
    pub base: Base,
    /// The entries, by their bytes.
    pub journal: LinkedList<LinkedList<u8>>,
    /// How many positions are committed.
    pub commits: u64,
    /// How many lawful chunks were answered, and how many tries of a processor.
    pub chunks: u64,
    pub tries: u64,
    /// The count of faults of the shop of patterns, and the last text that it refused.
    pub faults: u64,
    pub refused: LinkedList<u8>,
    /// The disk's count of faults at which the node was stopped, and 0 while it isn't.
    pub stop: u64,
}
