//! Ranges of the journal: a configuration compiled, and what the entries of a range become under it.
//!
//! `specs/Journal` says what the entries of a journal become, each under the configuration of its own version. `compile` builds
//! the patterns of a configuration; a `Compiled` is seen as that configuration, so that it fits a range is an equation.
//! `stage_range` gives the outcomes of a range's entries, and a `Work` keeps that they are those; by `law_ranges_follow` they follow on
//! those of the journal before the range. `law_configurations_compile` says that each configuration that commands make can be compiled.
#![tactic(auto)]

mod compiling;
mod laws;
mod work;

pub use compiling::compile;
pub use gl_outcome::{Compiled, StageFault, stage_message};
pub use laws::{law_configurations_compile, law_ranges_follow};
pub use work::{Range, Work, stage_range};
