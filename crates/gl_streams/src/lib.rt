//! Streams: which of them a message goes to, by rules over its fields.
//!
//! `specs/Matching` says whether a rule and a stream hold of a message's fields, where a pattern means what
//! `regex` defines for its text, and `specs/Ids` to which streams a message goes: those that match, in rising
//! order of their ids, and the default stream unless one that matches removes it. `streams_of` answers exactly
//! that, with the compiled patterns of the rules beside them; only matching a pattern and keeping ids takes
//! memory. `law_streams_rise` says the same of each id, both ways. `ids` puts an id among rising ones, and takes one out.
#![tactic(auto)]

pub mod ids;
mod laws;
mod passing;
mod patterns;
mod stream;
mod walking;

pub use laws::{law_ids_stay_rising, law_streams_rise};
pub use passing::{matches, plain_matches};
pub use patterns::StreamPatterns;
pub use stream::{Stream, StreamRule, Test};
pub use walking::streams_of;
