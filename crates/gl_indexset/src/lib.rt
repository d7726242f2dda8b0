//! Index sets: the rows of a search, in sets that rotate their indexes and drop the oldest.
//!
//! A stored row goes once into each set that it names. A set begins a new index where the newest has
//! enough rows or is old enough, and keeps as many indexes as its rule says; a row is live while one of
//! its indexes is. Contracts see the live rows as a list in order of position, each once, and which rows
//! are live is defined by index numbers over the whole list of rows that were stored
//! (`specs/Retention`). The sets keep of it the first positions of their live indexes and the live rows.
#![tactic(auto)]

mod counted;
mod leaving;
mod ranks;
mod row;
mod set;
mod sets;
mod shelf;
mod steps;
mod sweep;

pub use counted::Counted;
pub use gl_fields::SetRule;
pub use row::Row;
pub use sets::IndexSets;
pub use steps::Steps;
