//! Tests of the store and of the program over it: logs in segments, limits, objects that fail, and what a crash leaves.
//!
//! They show what no clause says: that runs succeed with ample memory, and that a store comes out to the byte as
//! docs/FORMATS.md and docs/SCRIPT.md say, call by call of the disk. Expected values are worked out by hand.
//! What a script alone can show stands as rows of data in `gl_rows`.
#![tactic(auto)]

#[cfg(test)]
mod crashes;
#[cfg(test)]
mod failing;
#[cfg(test)]
mod limits;
#[cfg(test)]
mod logs;
#[cfg(test)]
mod opening;
#[cfg(test)]
mod playing;
