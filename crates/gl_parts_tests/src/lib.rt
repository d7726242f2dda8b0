//! Tests of the parts below the node: the kinds of outside objects in memory, those of the system, patterns, the pool of
//! claims, the turn, and index sets.
//!
//! They show what no clause says: that calls succeed with ample memory, that kinds in memory fail at their listed calls
//! alone, what files, sockets and threads do, and each trait at a concrete type. Expected values are worked out by hand.
//! What a row of data can show stands in `gl_rows`.
#![tactic(auto)]

#[cfg(test)]
mod crash_images;
#[cfg(test)]
mod index_sets;
#[cfg(test)]
mod kinds;
#[cfg(test)]
mod patterns;
#[cfg(test)]
mod pools;
#[cfg(test)]
mod system;
#[cfg(test)]
mod turns;
