//! Lookup tables, read from comma-separated records whose first names the columns.
//!
//! A contract sees a `LookupTable` as the list of its pairs of a key and a value, in rising order of the keys'
//! bytes, each key once. `specs/Rows` says what the records of a text are, `specs/Tables` which table they
//! make and what is refused.
#![tactic(auto)]

mod columns;
mod refusal;
mod rows;
mod table;

pub use refusal::LookupRefusal;
pub use table::LookupTable;
