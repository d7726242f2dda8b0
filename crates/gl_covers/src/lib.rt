//! Which rows a search has to look at where its query requires no term.
//!
//! `suspects` gives the positions of the rows that have a term of the query's cover (`specs/Covers`): terms of which each
//! message has one of which the query holds (`law_cover`). A word or phrase has one, with or without a field, unless its
//! tokens are digits alone; OR has one where each of its members has; of the members of AND the one serves that the fewest
//! rows have. NOT, patterns, ranges and `_exists_` have none.
#![tactic(auto)]

mod finding;
mod laws;
mod merging;
mod texts;

pub use finding::suspects;
pub use laws::law_cover;
