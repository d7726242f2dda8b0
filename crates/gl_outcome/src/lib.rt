//! One message whole, under the parts of a configuration.
//!
//! `specs/Outcomes` says what a message becomes: it is decoded, and goes through the extractors of its input, into its
//! streams, and through their pipelines, each as the layer below says. `compile` builds the patterns of a configuration once;
//! contracts see a `Compiled` as the configuration that it was built of, and any number of messages of its version is staged
//! by it.
#![tactic(auto)]

mod compiled;
mod entries;
mod staging;

pub use compiled::{Compiled, compile, stage_message};
pub use entries::stage_entries;
pub use gl_building::StageFault;
