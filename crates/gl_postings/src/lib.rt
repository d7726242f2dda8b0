//! Searching the live rows of index sets by an index of words.
//!
//! `specs/Found` says what a search finds among rows: those of one of the chosen streams, between two moments, of which the
//! query holds, by time and then position, their number, and the page that is cut from them. `search_rows` and
//! `Indexed::search` answer exactly that page. They look up only the rows that have the query's rarest required term, where
//! it requires one, and else those that have a term of its cover; or those of the minutes that are asked for, where they are
//! fewer. How many rows that are at most is said by `specs/Bound`, and counted by `Steps`. The work stands in functions that have the rows only as `Counted`.
//!
//! `Indexed` holds index sets and the words of their live rows together (`specs/Indexed`), and takes rows in two steps:
//! `prepare`, which may find no memory, and `settle` or `give_up`, which take none.
#![tactic(auto)]

mod finding;
mod indexed;
mod laws;
mod postings;
mod search;
mod settling;

pub use gl_pages::{Ask, Page};
pub use indexed::Indexed;
pub use laws::law_found_in_order;
pub use postings::Postings;
pub use search::search_rows;
