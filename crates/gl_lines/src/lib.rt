//! Frames: what a connection sends, cut into messages, in whatever pieces it comes.
//!
//! `LineFrames` cuts into lines and, where asked, counted frames (RFC 6587, `specs/LineFraming`), and `ZeroFrames` into
//! the parts that zero bytes end (GELF by TCP, `specs/ZeroFraming`). However the bytes are cut into pieces, the frames so
//! far are those of the bytes so far: of all bytes at once they are told by `specs/LineFrames` and `specs/ZeroFraming`,
//! and the laws say that these are the same and only grow. Both readers take their memory when they are made, and none
//! later. Which answer comes, and how much of a piece is taken, is told by one relation for both (`specs/Reader`).
//!
//! `specs/Fronts`, `specs/ZeroFronts` and `specs/Inside` are cited between private functions alone, and by the two models.
#![tactic(auto)]

mod front;
mod laws;
mod line_frames;
mod zero_frames;
mod zero_front;

pub use gl_base::Fed;
pub use laws::{law_frames_begin, law_frames_of_bytes, law_one_framing};
pub use line_frames::LineFrames;
pub use zero_frames::ZeroFrames;
