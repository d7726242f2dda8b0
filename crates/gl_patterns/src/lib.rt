//! Patterns of text, and who builds them.
//!
//! A `Pattern` means what `regex` defines for its text: what it finds is a function of its text and of the text that is
//! searched, so contracts name no engine. It owns the compiled expression and all that a search writes to; a search can't
//! fail, and `groups` gives all groups by one. A `PatternShop` builds patterns: `RegexShop` each that `regex` takes,
//! `ListShop` the same where the call isn't listed.
#![tactic(auto)]

mod engine;
mod pattern;
mod shop;
mod spans;

pub use pattern::Pattern;
pub use shop::{ListShop, PatternShop, RegexShop};
