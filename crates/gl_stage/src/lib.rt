//! Pipelines: the way of a message through the stages of the pipelines that are connected to its streams.
//!
//! `run_pipelines` answers with the one end to which a message runs. `specs/Stages` says what happens at one stage number: which
//! rules hold is told by the message as it stands before it, in all pipelines of the round, and only then do their actions run, as
//! one list. `specs/Rounds` chains the numbers of a round, and rounds for as long as there are pipelines that haven't run: as a
//! relation step by step (`RunsTo`), and as a function beside it; `law_one_end` ties the two. `specs/Books` is what a run is given.
//!
//! A name of a rule that isn't in the book, or of a pipeline that isn't there, is passed over.
#![tactic(auto)]

mod book;
mod laws;
mod moving;
mod names;
mod round;
mod running;
mod stage;

pub use book::RuleBook;
pub use laws::law_one_end;
pub use running::run_pipelines;
