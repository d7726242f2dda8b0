//! What a search asks for, finds and gets, whatever holds the messages.
//!
//! `specs/Pages` says what a search finds among messages in order of their positions: those of one of the chosen streams,
//! between two moments, of which the query holds, by time and then as they stood; their number; and the page that is cut
//! from them. `Ask::finds` tells whether it finds a message. `Hits` collects the times and positions of those that were
//! found, and gives the page: in order, cut, and with the number of all.
#![tactic(auto)]

mod ask;
mod hits;

pub use ask::Ask;
pub use hits::{Hit, Hits, Page};
