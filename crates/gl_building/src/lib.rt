//! The patterns of a configuration, built by a shop, each at its place.
//!
//! `specs/Places` says what is built of streams, extractors and rules, and what the extractors of an input make of fields with
//! what was built for them. `specs/Building` says which text a shop refused, and that else all of them are patterns.
#![tactic(auto)]

mod building;
mod extracting;
mod extractors;
mod fault;
mod inputs;
mod rules;
mod streams;

pub use extracting::{extract, place_of};
pub use fault::StageFault;
pub use inputs::{ExtractorPatterns, build_inputs};
pub use rules::build_rules;
pub use streams::build_streams;
