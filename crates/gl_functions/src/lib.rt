//! What the functions and signs of rules give: of the values of their arguments, the value of the call.
//!
//! A `Value` is a text, a whole number, a truth value, or missing; a text borrows from the rule, the message's fields or a lookup
//! table where it can. `give` answers each function that computes, `give_by_pattern` the two that search for a pattern, and
//! `prefixed` and `infixed` the signs, each exactly by the definitions; only want of memory keeps a call from its answer. What has
//! no result is missing: a text over 1,048,576 bytes, a whole number past 64 bits, a division by zero, a part that isn't there. A
//! missing argument is settled before the function by the one table of parameters: the call is missing, or false where it asks.
//!
//! The definitions, in the order in which they build on each other: `specs/Contents` (what a value is made of), `Worlds` (streams
//! and lookup tables), `Operations` (the signs) and `Calls` (each function by one line). Nothing here knows a tree of expressions.
#![tactic(auto)]

mod arguments;
mod asking;
mod comparing;
mod computing;
mod content;
mod converting;
mod cutting;
mod giving;
mod making;
mod matching;
mod naming;
mod searching;
mod signs;
mod value;
mod world;

pub use arguments::{one_misses, text_at, truth_at};
pub use giving::{asks_pattern, give, give_by_pattern};
pub use signs::{infixed, prefixed};
pub use value::{MAX_TEXT, Value};
pub use world::World;
