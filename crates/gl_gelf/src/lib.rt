//! GELF 1.1: the fields of a message.
//!
//! `decode_gelf` gives exactly the fields that `specs/Decoding` defines of a payload, or the cause that
//! it has none: timestamps are exact decimals (`specs/Decimals`), and of equal names the last counts
//! (`specs/Members`). That these are the fields of the members that RFC 8259 gives the payload is a law
//! (`law_gelf_fields`). Not proved: its time is that of a sort of the members.
//!
//! The frames of a connection and the chunks of datagrams are those of gl_lines and gl_chunks.
#![tactic(auto)]

mod decode;
mod laws;
mod members;
mod moment;
mod number;

pub use decode::decode_gelf;
pub use gl_chunks::{Chunked, Chunks, chunk_head};
pub use gl_lines::{Fed, ZeroFrames, law_frames_begin};
pub use laws::law_gelf_fields;
