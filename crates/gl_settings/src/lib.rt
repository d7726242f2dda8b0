//! What a configuration is made of, and what it may be at most.
//!
//! A contract sees `Parts` as plain data (`specs/Settings`): inputs, index sets, streams, rules, pipelines, connections,
//! lookup tables, named patterns of grok and users. Each part is shared by the copies, and replaced as a whole.
//! `specs/Patterns` are the patterns of a configuration, `specs/Limits` the first bound that one passes, and `specs/Names`
//! the names that things may have. What a command makes of them is for the crate above.
#![tactic(auto)]

mod connection;
mod initial;
mod input;
mod limits;
mod lower;
mod named;
mod names;
mod parts;
mod patterns;
mod refusal;
mod tables;
mod user;

pub use connection::{connected, copy_names, same_connections};
pub use input::{Input, copy_extractors};
pub use limits::within_limits;
pub use named::{Named, are_same, copies, has_name, placed};
pub use names::{is_grok_name, is_hash, is_short_name, is_title};
pub use parts::Parts;
pub use refusal::{Bound, ConfigRefusal, Text};
pub use tables::{copy_patterns, copy_tables, has_pattern, has_table, name_table};
pub use user::User;
