//! The configurations of a store, version by version.
//!
//! `specs/Versions` is the configuration at a version of a journal: what its first so many commands make of that of a new store.
//! A `History` keeps those that are needed (`specs/History`). `specs/Lawful` is what each of them keeps: names that differ, what is
//! named is there, patterns of grok expand, and the limits.
#![tactic(auto)]

mod history;
mod laws;
mod same;

pub use history::History;
pub use laws::{
    law_configurations_are_lawful, law_messages_change_no_version, law_settings_stay,
    law_stream_ids_are_few, law_versions_are_counted, law_versions_stay,
};
pub use same::same_configs;
