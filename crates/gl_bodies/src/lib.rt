//! The replies of the HTTP interface as bodies of JSON: each refusal with its values, a page of messages, the streams, the server.
//!
//! Each call gives exactly the reply that `specs/Replies`, `specs/Pages` and `specs/Listings` define: a status, and the compact
//! text of a JSON value, which `specs/Json` builds with its keys in the order of their bytes. Bodies are written token by token,
//! with no value of JSON in between. An error means that memory ran out.
#![tactic(auto)]

mod listings;
mod object;
mod page;
mod replies;

pub use gl_http::Reply;
pub use listings::{source_reply, streams_reply, system_reply};
pub use object::{begin, finish, put_number, put_text};
pub use page::page_reply;
pub use replies::{
    admin_only_reply, bad_body_reply, bad_parameter_reply, bad_query_reply, count_reply,
    empty_body_reply, error_reply, journal_full_reply, journalled_reply, name_reply,
    not_permitted_reply, place_reply, stopped_reply, unknown_name_reply, unknown_token_reply,
    version_reply,
};
