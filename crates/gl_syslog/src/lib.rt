//! Syslog: the fields of a payload.
//!
//! `decode_syslog` gives the fields of any payload, or the cause for which a map refuses one of them, and nothing else but
//! for want of memory: `specs/Decoding` says which, and `specs/Moments` which time a stamp means. What a text is, is
//! told by the grammars of RFC 5424 and RFC 3164 (gl_syslogtext, `law_messages_are_read`).
//!
//! Reading and printing of texts are those of gl_syslogtext and gl_syslogprint, and the frames of a connection those of
//! gl_lines.
#![tactic(auto)]

mod content;
mod decode;
mod fields;
mod moment;

pub use decode::decode_syslog;
pub use gl_lines::{Fed, LineFrames, law_frames_of_bytes, law_one_framing};
pub use gl_syslogprint::print_5424;
pub use gl_syslogtext::{
    BsdParts, BsdStamp, Element, Parts, Stamp, law_messages_are_read, read_3164, read_5424,
};
pub use gl_text::facility_name;
