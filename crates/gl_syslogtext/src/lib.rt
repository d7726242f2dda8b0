//! The texts of syslog: messages of RFC 5424 and RFC 3164, and their parts.
//!
//! `read_5424` reads exactly the messages of RFC 5424 with version 1, and gives their parts. The grammar is a relation
//! between a whole text and its parts (`specs/Rfc5424`, over `specs/Sections` and `specs/Data`); how it is read from left
//! to right is told in `specs/MessageReading`. `read_3164` reads exactly the texts of the BSD form (`specs/Rfc3164`). That the one
//! way of telling is the other is a law, which holds whatever the calls answer for want of memory
//! (`law_messages_are_read`).
//!
//! Not proved: reading takes time as the length of the text, times the logarithm of the number of its elements.
#![tactic(auto)]

mod bsd;
pub mod data;
mod laws;
mod parts;
mod read;
pub mod sections;
pub mod stamp;
mod unread;

pub use bsd::{BsdParts, BsdStamp, process_at, read_3164, tag_at};
pub use laws::law_messages_are_read;
pub use parts::{Element, Parts, Stamp};
pub use read::{are_distinct, read_5424};
pub use unread::Unread;
