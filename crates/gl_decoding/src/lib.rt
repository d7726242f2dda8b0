//! The fields of a message, by the kind of its input.
//!
//! `specs/Decoding` says which fields a payload gives, or why it gives none, and that the port of its peer, where one is
//! known, is the field `remote_port`. `decode` answers exactly that.
#![tactic(auto)]

mod message;
mod port;

pub use message::decode;
