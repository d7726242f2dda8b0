//! The chunks of messages (GELF by UDP), which are put together.
//!
//! `chunk_head` tells the lawful chunks. `Chunks` puts them together: its answer to a datagram is the
//! one that all datagrams so far give (`chunk_answer`, `specs/Chunks`), whatever it has discarded, and
//! for want of memory nothing changes. Which answer that is, is told without a table by `specs/Answers`: the opener of a
//! set and its members are found among all datagrams and their answers, and the first case that fits decides
//! (`law_chunk_answers`). Whether 1,024 sets are live, and which one makes room, is told by
//! the oldest (`Sets`, `specs/Openings`). Not proved: a chunk costs a few searches among 1,024 sets at most,
//! and the ids of ended messages, which are remembered for 5,000 ms, take memory without a bound.
//!
//! `specs/Growing`, `specs/Openings` and `specs/Rows` are cited between private functions alone.
#![tactic(auto)]

mod chunk;
mod chunk_set;
mod chunks;
mod laws;
mod sets;

pub use chunk::chunk_head;
pub use chunks::{Chunked, Chunks};
pub use laws::law_chunk_answers;
