//! What a caller of a search can see, and what a search finds of it.
//!
//! `specs/Sight` says what a caller sees of the live messages: those with a permitted stream, with their fields and their
//! permitted streams. What a reply to a search tells is a function of that alone. `specs/Finding` says which of the messages
//! a search finds, in which order, how many they are, and which stand on its page. `search` gives just that page of messages
//! that are lent. `law_only_what_is_seen` says that it may look at live messages with all of their streams: what is found and
//! then shown is what is found of the messages as they are seen.
#![tactic(auto)]

mod laws;
mod live;

pub use gl_pages::{Ask, Page};
pub use laws::{law_hidden_messages, law_only_what_is_seen};
pub use live::{Live, is_permitted, search};
