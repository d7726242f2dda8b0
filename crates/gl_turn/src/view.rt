// What one seat knows. No value of these types is made: they stand in contracts alone.
use crate::seen::Seen;
use std::collections::LinkedList;

/// What one seat did itself, between its enters and leaves, and what the lock began with.
pub struct Own {
    /// How many entries and how many commits the first value of the lock had.
    pub journalled: u64,
    pub committed: u64,
    /// How often it entered.
    pub turns: u64,
    /// By how much the journal, the commits, the chunks and the tries grew.
    pub appends: u64,
    pub commits: u64,
    pub chunks: u64,
    pub tries: u64,
    /// The positions that the journal gained, in the order in which it gained them.
    pub positions: LinkedList<u64>,
}

/// What one seat knows of the lock.
pub struct View {
    /// 1 from the draw of its ticket until it passes the turn, and else 0.
    pub waits: u64,
    /// 1 while the value is out with it, and else 0.
    pub holds: u64,
    /// How often the count of seats has it: once, twice in the middle of a split or a join, and not at all once it was joined away.
    pub counts: u64,
    /// 1 where it was counted past the limit of seats, until it is counted back, and else 0.
    pub over: u64,
    /// 1 where it was told that it is the only seat, and split off none since, and else 0.
    pub alone: u64,
    pub ticket: u64,
    /// The appends and the commits that it has counted in this turn.
    pub gained: u64,
    pub settled: u64,
    pub own: Own,
    /// What the value showed as it was taken.
    pub out: Seen,
    pub seen: Seen,
    /// What a seat that it joined had seen.
    pub told: Seen,
}
