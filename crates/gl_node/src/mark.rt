// Ranges of positions, and who holds them.

/// A range of positions of the journal: `count` of them, from `first` on.
#[derive(Clone, Copy, Debug, PartialEq, Eq)]
pub struct Mark {
    pub first: u64,
    pub count: u64,
}

/// A range that a worker claimed, and neither finished nor gave up.
#[derive(Clone, Copy, Debug, PartialEq, Eq)]
pub struct Claim {
    /// Below 64.
    pub worker: u32,
    pub mark: Mark,
}
