//! What requests of the HTTP interface ask for, and what they are told, as functions of plain data.
//!
//! `search_reply` is the reply to a search: a function (`specs/Search`) of what its caller sees of the live messages and of the
//! text behind the `?`, of which `specs/Parameters` reads the parameters. `law_searches_are_isolated` says that nothing else
//! can be learned from what it says; how long it takes is no part of that. `search_request` reads the text before a message is
//! looked at, and `found_reply` gives the page. `commanding_of` reads the body of a command (`specs/Commands`), and `config_reply`
//! tells why one is refused (`specs/Refusals`). `streams_reply`, `system_reply`, `rule_reply` and `pipeline_reply` tell the rest
//! (`specs/Callers`). A caller is the user whose token a request has; `None` is one whose token is no user's. An error means that
//! memory ran out.
#![tactic(auto)]

mod callers;
mod commands;
mod laws;
mod parameters;
mod refusals;
mod searching;

pub use callers::{pipeline_reply, rule_reply, streams_reply, system_reply};
pub use commands::{Commanding, Wanted, commanding_of};
pub use gl_bodies::{
    Reply, empty_body_reply, journal_full_reply, journalled_reply, page_reply, stopped_reply,
    version_reply,
};
pub use gl_sight::{Ask, Live, Page, law_only_what_is_seen};
pub use laws::{law_hidden_messages, law_searches_are_isolated};
pub use parameters::{Parameter, Request, Unasked, request_in};
pub use refusals::config_reply;
pub use searching::{Searching, found_reply, search_reply, search_request};
