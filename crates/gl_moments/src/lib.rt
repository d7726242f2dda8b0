//! The index of time: which rows came about in a minute.
//!
//! `Moments` takes rows in order of their positions and forgets them in any order. For a span of time it gives the positions
//! of the rows of the minutes that have a part of it (`specs/Minutes`), so that a search of the last minutes of a long store
//! need look at no other rows; each row that such a search finds is among them (`law_near`). Of which rows an index is, is
//! told by `specs/Moments`; each call speaks of every such list of rows.
#![tactic(auto)]

mod laws;
mod minute;
mod moments;
mod span;
mod table;

pub use laws::law_near;
pub use moments::Moments;
