//! Messages of RFC 5424 as text.
//!
//! `print_5424` prints a text exactly where some text has the parts, and that text reads back to them. Which parts these
//! are, as one test, and which of their texts is printed, is told in `specs/Printing`.
#![tactic(auto)]

mod lawful;
mod print;
mod print_data;

pub use print::print_5424;
