//! HTTP/1.1 (RFC 9110, RFC 9112) as the server speaks it: heads of requests, and replies.
//!
//! `read_head` answers all that a client sent so far. A head of the grammar that `httparse` reads, whole within the
//! first 16,384 bytes and with at most 64 fields, gets the answer that `specs/Answers` defines: the first refusal in
//! a fixed order, or its route, its token, its body's length and its own length. Routes are defined in `specs/Routes`,
//! what the fields say in `specs/Fields`. Each call reads from the first byte on. `read_exchange` answers all that a client
//! sent which has ended: it is the function `exchange_in` (`specs/Exchanges`), over the head that `specs/Heads` computes, which
//! by `law_head_in` is the head of the grammar.
//!
//! `write_reply` appends exactly the bytes of a reply (`specs/ReplyBytes`): the status line with the
//! canonical phrase of the status, three header fields, an empty line and the body. `memory_reply` is the
//! reply for want of memory, and takes none.
#![tactic(auto)]

mod exchange;
mod fields;
mod head;
mod refusal;
mod reply;
mod route;

pub use exchange::{Exchange, law_head_in, read_exchange};
pub use head::{Head, HeadAnswer, MAX_BODY, MAX_HEAD, read_head};
pub use refusal::Refusal;
pub use reply::{Reply, law_statuses_have_phrases, memory_reply, write_reply};
pub use route::Route;
