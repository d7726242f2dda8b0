//! The rule language at work: whether a checked rule's condition holds of a message, and what its actions do.
//!
//! Each expression means a value in every message, which may be missing, and an action that can't be done changes nothing. So a
//! checked rule has no way to fail: `holds` and `act` answer exactly by the meaning, and only want of memory keeps them from it.
//! Both take the compiled patterns of the rule, as `RulePatterns`, and leave them as they were.
//!
//! `specs/Meaning` says what an expression means, by cases of its tree, with the functions and signs of `gl_functions`; `Actions`
//! what each action makes of a message and what all actions of a rule do in order. `Typing` says what a checked rule never meets.
#![tactic(auto)]

mod acting;
mod arguments;
mod asking;
mod change;
mod holding;
mod laws;
mod passing;
mod patterns;
mod scope;
mod staged;
mod walking;

pub use acting::act;
pub use holding::holds;
pub use laws::law_checked_is_typed;
pub use patterns::RulePatterns;
pub use staged::Staged;
