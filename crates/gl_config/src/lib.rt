//! The configuration of a server, and what commands make of it.
//!
//! A contract sees a `Config` as plain data, the `Settings` of gl_settings. `specs/Applying` says why a command is refused, of
//! each kind in the order in which the causes count, and `specs/Next` what it makes of a configuration; `Config::apply` answers
//! exactly that. Each command that is taken gives the next version.
#![tactic(auto)]

mod applying;
mod config;
mod connecting;
mod groks;
mod index_sets;
mod inputs;
mod known;
mod lookups;
mod own;
mod rules;
mod sources;
mod streams;
mod texts;
mod users;

pub use config::Config;
pub use gl_commands::{Command, RuleParts, TestKind, command_from, decode_command, encode_command};
pub use gl_fields::InputKind;
pub use gl_settings::{Bound, ConfigRefusal, Input, Text, User};
