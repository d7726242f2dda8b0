//! The texts of rules and pipelines: reading and printing.
//!
//! `read_rule` and `read_pipeline` give a value exactly where the tokens of the text are those of a lawful rule, or of
//! stages; each text has at most one. Else they say the first fault. A token or comment that doesn't read comes first,
//! wherever it stands. Else the first token that can't follow those before it is refused at its place, and an
//! expression that nests too deep at the token that makes it so.
//! What `print_rule` and `print_pipeline` print of a value that was read reads back to that value.
//!
//! The definitions, in the order in which they build on each other: `specs/Bytes` and `Fronts` (what stands at the
//! front of a text), `Cutting` (the tokens of a whole text), `Tree` (a rule as a plain value), `Grammar` (the forms of
//! expressions), `Sentences` (rules and pipelines as their tokens) and `Printing`. Which fault it is they don't say:
//! that is in `Nesting`, `Expressions` (what each token of an expression may follow), `Rules` and `Pipelines`.
//!
//! Reading takes a time that grows with the length of the text, and a stack that doesn't grow with it.
#![tactic(auto)]

mod copy;
mod cut;
mod expression;
mod front;
mod laws;
mod nest;
mod pipeline;
mod place;
mod print;
mod read;
mod refusal;
mod rule;
mod same;
mod stages;
mod text;
mod token;

pub use laws::{
    law_forms_are_read, law_one_pipeline, law_one_rule, law_one_tree, law_read_is_a_form,
    law_shown_form,
};
pub use pipeline::{LAST_STAGE, Mode, Pipeline, Stage};
pub use print::{print_pipeline, print_rule};
pub use read::read_rule;
pub use refusal::TextRefusal;
pub use rule::{Action, Binary, Call, Expr, Rule, Unary};
pub use stages::read_pipeline;
