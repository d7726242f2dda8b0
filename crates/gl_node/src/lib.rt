//! The core of the server: a journal of entries, the outcomes of the entries as far as they are
//! committed, and the ranges of positions that processors hold between the two.
//!
//! A node *keeps* a state (`specs/Node`, `Keeps`): each call answers by that state, and makes on it
//! the events that belong to the call (`specs/State`, `specs/Arrivals`, `specs/Claims`), whatever its
//! disk tells. Where the disk tells its content, a node *stands on* it (`NodeOn`): then each image
//! that a crash may leave shows exactly what the node keeps (`law_images_show_the_state`).
//!
//! A datagram of an input of kind gelf goes through the input's chunk table, which answers by all datagrams
//! that it was given since the opening; a message that it makes whole is a payload. A payload is decoded by
//! the kind of its input, when its range is staged (`specs/Decoding`).
//!
//! However the calls come one after another, the outcomes are those that one thread gets by staging
//! the journal in order (`law_outcomes_of_one_thread`).
#![tactic(auto)]

mod answer;
mod arriving;
mod claiming;
mod committing;
mod config;
mod entering;
mod fault;
mod law;
mod mark;
mod node;
mod processing;
mod reading;
mod resuming;
mod staging;
mod work;

pub use answer::{Arrival, Claimed, Finished};
pub use config::{Config, Input};
pub use fault::{NodeFault, OpenFault};
pub use gl_gatelog::Log;
pub use law::{law_longest_chain_is_committed, law_one_store, law_outcomes_of_one_thread};
pub use mark::{Claim, Mark};
pub use node::{Node, Options, law_images_show_the_state};
pub use work::{Range, Work, stage_range};
