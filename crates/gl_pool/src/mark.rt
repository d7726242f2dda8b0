// Ranges of positions, who holds them, and what became of one.

/// A range of positions of the journal: `count` of them, from `first` on.
#[derive(Clone, Copy, Debug, PartialEq, Eq)]
pub struct Mark {
    pub first: u64,
    pub count: u64,
}

/// A range that a worker claimed, and neither finished nor gave up.
#[derive(Clone, Copy, Debug, PartialEq, Eq)]
pub struct Claim {
    /// Below 64.
    pub worker: u32,
    pub mark: Mark,
}

/// What became of a range that was finished. The number is the least position that isn't finished.
#[derive(Clone, Copy, Debug, PartialEq, Eq)]
pub enum PoolAnswer {
    /// All before the range is finished too.
    Committed(u64),
    /// A position before the range isn't finished yet.
    Kept(u64),
    /// The worker holds no claim. Nothing changed.
    NoClaim,
}
