//! What an administrator tells the server: commands of sixteen kinds, and the one text in which each is kept.
//!
//! A command comes as a JSON value, `command_from`, and is kept as a text, `encode_command`, of which `decode_command` gives
//! it back. `specs/Texts` says which object a command is, which text that has, and which commands may be kept; `specs/CommandReading`
//! reads a value by its keys, and a text as the command whose text it is, byte for byte. Each call gives exactly that.
//! `law_one_command` says the same of texts and commands alone, both ways.
#![tactic(auto)]

mod command;
mod extractor_values;
mod extractors;
mod keys;
mod laws;
mod lists;
mod names;
mod reading;
mod rules;
mod text;
mod unread;
mod writing;

pub use command::{Command, RuleParts, TestKind};
pub use gl_extract::{Condition, Converter, ExtractorKind, ExtractorParts};
pub use gl_fields::InputKind;
pub use laws::law_one_command;
pub use text::{command_from, decode_command, encode_command};
