//! Tests of `FileDisk` on a file system in memory, which notes what a disk over it does: what is synced, how many files are open,
//! who has the lock. It cuts reads and writes short, and fails a call of one's choice.
#![tactic(auto)]

#[cfg(test)]
mod memory_files;
#[cfg(test)]
mod tests;
