// The reader of a connection's frames.
ghost use Rattle.std.specs.Prelude.{◌≡◌, ◌≤◌, ◌++◌, ℕ, List, [], length, take, IfOk};
ghost use Rattle.gl_fields.specs.declared.input_kind.InputKind.{InputKind};
ghost use Rattle.gl_cli.specs.Connections.{ended_frames, last_frame};
ghost use Rattle.gl_cli.specs.Opened.{FramesStandFor, Took, Ended, frame_in};

use gl_base::Fed;
use gl_fields::InputKind;
use gl_lines::{LineFrames, ZeroFrames, law_frames_begin, law_frames_of_bytes};
use std::alloc::{AllocError, Global};

/// Cuts what a connection sends into frames, as the kind of its input asks: parts that zero bytes end, lines,
/// or lines and counted frames.
#[derive(Drop)]
pub enum Frames {
    Zero(ZeroFrames),
    Lines(LineFrames),
}

impl Frames {
    /// A reader at the start of a connection. It reserves room for the longest frame.
    pub fn new(alloc: Global, kind: InputKind) -> Result<Frames, AllocError>
        ensures { IfOk result (λ frames. FramesStandFor kind frames []) }
    {
        match kind {
            InputKind::Gelf => Ok(Frames::Zero(ZeroFrames::new(alloc)?)),
            InputKind::Raw => Ok(Frames::Lines(LineFrames::new(alloc, false)?)),
            InputKind::Syslog => Ok(Frames::Lines(LineFrames::new(alloc, true)?)),
        }
    }

    /// Takes bytes from the front of a piece until a frame ends, and says how many it took.
    pub fn take(&mut self, piece: &[u8]) -> (usize, Fed)
        requires { (kind : InputKind) × (bytes : List ℕ) × FramesStandFor kind self.old bytes }
        ensures within { result.0 ≤ length piece.now }
        ensures took { (kind : InputKind) (bytes : List ℕ) → FramesStandFor kind self.old bytes
            → Took result.1 kind bytes piece.now result.0 (frame_in self.new) × FramesStandFor kind self.new (bytes ++ take result.0 piece.now) }
    {
        law_frames_of_bytes();
        match self {
            Frames::Zero(reader) => reader.take(piece),
            Frames::Lines(reader) => reader.take(piece),
        }
    }

    /// The frame that the last call answered `Whole` for.
    pub fn frame(&self) -> &[u8]
        ensures { result.now ≡ frame_in self.now }
    {
        match self {
            Frames::Zero(reader) => reader.frame(),
            Frames::Lines(reader) => reader.frame(),
        }
    }

    /// Ends the connection: a rest of a line that isn't empty is its last frame.
    pub fn end(&mut self) -> Fed
        requires { (kind : InputKind) × (bytes : List ℕ) × FramesStandFor kind self.old bytes }
        ensures { (kind : InputKind) (bytes : List ℕ) → FramesStandFor kind self.old bytes → Ended result (last_frame kind bytes) (frame_in self.new) }
    {
        law_frames_of_bytes();
        match self {
            Frames::Zero(reader) => reader.end(),
            Frames::Lines(reader) => reader.end(),
        }
    }
}

/// More bytes of a connection give further frames, and change none that ended before.
pub fn law_frames_go_on(frames: &Frames)
    ensures { (kind : InputKind) (bytes : List ℕ) → FramesStandFor kind frames.now bytes
        → (more : List ℕ) → (later : List (List ℕ)) × (ended_frames kind (bytes ++ more) ≡ ended_frames kind bytes ++ later) }
{
    law_frames_of_bytes();
    law_frames_begin();
}
