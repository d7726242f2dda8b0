//! The index of words: which rows have a token in a field.
//!
//! `Postings` takes rows in order of their positions and forgets them in any order. For a query it gives the positions of
//! the rows that have the rarest of the terms that the query requires (`specs/Candidates`), so that a search need look at
//! no other rows. Of which rows an index is, is told by `specs/Words`; each call speaks of every such list of rows.
#![tactic(auto)]

mod positions;
mod postings;
mod row;
mod table;
mod word;

pub use positions::Positions;
pub use postings::Postings;
