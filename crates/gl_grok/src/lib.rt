//! Grok: patterns that refer to named patterns, expanded.
//!
//! `expand` gives the text that a pattern becomes by a table of named patterns, with the fields of its groups, or
//! says why it becomes none. `specs/Pieces` says what is a reference, `specs/Names` which names are reached from a
//! text and in which order they are met, `specs/Expansion` what a text becomes, and `specs/Answers` which refusal
//! comes first. `initial_patterns` is the table to begin with.
#![tactic(auto)]

mod expansion;
mod initial;
mod laws;
mod names;
mod pieces;
mod refusal;
mod table;
mod writing;

pub use expansion::{Expanded, expand};
pub use initial::{initial_patterns, name_pattern};
pub use laws::{law_depth_is_enough, law_names_reached, law_other_names_play_no_part};
pub use refusal::GrokRefusal;
