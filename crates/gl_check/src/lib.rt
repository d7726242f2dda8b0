//! Checking of rules: whether a rule is lawful, and what its calls ask for.
//!
//! `check` takes a rule exactly where none of its nodes has a fault, and else tells the fault of the first faulty node, by its
//! number. A `Checked` rule says which patterns its calls take, in the order of their nodes. `Function` and `Parameter` are the
//! one table of the functions and actions of rules: their names, what they ask of their arguments, and what they give.
//!
//! The definitions, in the order in which they build on each other: `specs/Values` (what expressions compute), `Functions` (the
//! table), `Arguments` (which argument each parameter gets) and `Checking` (kinds, nodes and their faults, patterns). `Codes`
//! lets a struct be seen as a rule.
//!
//! Checking takes a time that grows with the length of the rule, times its `let`s for each variable.
#![tactic(auto)]

mod arguments;
mod call;
mod checked;
mod faults;
mod function;
mod kind;
mod kinds;
mod named;
mod parameter;
mod patterns;
mod preset;
mod refusal;
mod stand;
mod walk;

pub use arguments::place_for;
pub use checked::{Checked, check};
pub use function::Function;
pub use kind::Kind;
pub use parameter::Parameter;
pub use preset::Preset;
pub use refusal::CheckRefusal;
pub use stand::Stand;
