//! Rows of tests as data: how a row is written, and how its answer is shown.
//!
//! A program of rows prints each row of its files and what the call that the row names answers, and its `stdout` says
//! what the documents and the standards have as the answers, worked out beforehand and never taken from a run. So
//! a further row costs no proof. `ROWS.md` tells how a row is written. The programs stand beside the crates whose
//! calls they make; here is what they share. No clause says what is shown: that is what the rows are for.
#![tactic(auto)]

mod fields;
mod notation;
mod page;
mod row;
mod shown;

pub use fields::{fields_of, named_value, push_fields, push_named, push_refusal, set_words};
pub use notation::{expanded, number, whole};
pub use page::{Answering, told};
pub use row::Row;
pub use shown::{push_bytes, push_fed, push_field, push_span, push_truth, push_word};
