ghost use Rattle.std.specs.Prelude.{◌≡◌, ◌≢◌, ◌+◌, ◌≤◌, ◌++◌, ℕ, Bool, List, Option, [], take, length, IfOk, Some, None, MatchOption};
ghost use Rattle.gl_lines.specs.LineFraming.{last_frame};
ghost use Rattle.gl_lines.specs.Reader.{StandsFor, IsAnswer, IsLast, told};

use crate::front::{self, Front, State};
use gl_base::Fed;
use std::alloc::{AllocError, Global};
use std::marker::Model;

/// Cuts the bytes of a connection into frames, in whatever pieces they come (RFC 6587).
///
/// A frame is a line that ends at LF; one CR before the LF is taken off. Where counts are read, a digit from 1 to 9, at
/// most six more and a space at the start of a frame say how many bytes behind them are the frame. An empty
/// frame gives nothing. A frame has at most 1,048,576 bytes.
#[derive(Debug, Drop)]
pub struct LineFrames {
    counts: bool,
    front: Front,
}

impl Model for LineFrames {
    ghost use Rattle.gl_lines.specs.Reader.{ReaderView};

    ghost Value = { ReaderView };

    ghost use Rattle.gl_lines.specs.Inside.{reader_of, IsReader};

    ghost view = { reader_of };

    ghost invariant = { IsReader };
}

impl LineFrames {
    /// A reader at the start of a connection; `counted`: counted frames are read beside lines. It reserves room for the longest
    /// frame, and no later call takes memory.
    pub fn new(alloc: Global, counted: bool) -> Result<LineFrames, AllocError>
        ensures counts { IfOk result (λ r. r.counts ≡ counted) }
        ensures begun { IfOk result (λ r. r.rest ≡ Some []) }
        ensures empty { IfOk result (λ r. StandsFor r [] []) }
    {
        Ok(LineFrames {
            counts: counted,
            front: front::new(alloc, counted)?,
        })
    }

    /// Takes bytes from the front of a piece until a frame ends that isn't empty, and says how many it took.
    ///
    /// But for `Whole` it takes all of the piece.
    pub fn take(&mut self, piece: &[u8]) -> (usize, Fed)
        ensures within { result.0 ≤ length piece.now }
        ensures counts { self.new.counts ≡ self.old.counts }
        // Whatever was given before: the frames so far are those of the bytes so far.
        ensures frames { (bytes : List ℕ) (frames : List (ℕ × List ℕ)) → StandsFor self.old bytes frames
            → StandsFor self.new (bytes ++ take result.0 piece.now) (frames ++ told result.1 (length bytes + result.0) self.new.frame) }
        ensures answer { IsAnswer result.1 self.old.rest self.new.rest self.new.frame result.0 (length piece.now) }
    {
        if let State::Closed = self.front.state {
            return (piece.len(), Fed::Closed);
        }
        if let State::Whole { .. } = self.front.state {
            front::begin(&mut self.front, self.counts);
        }
        front::feed(&mut self.front, self.counts, piece)
    }

    /// The frame that the last call of `take` or `end` answered `Whole` for; else nothing.
    pub fn frame(&self) -> &[u8]
        ensures { result.now ≡ self.now.frame }
    {
        match self.front.state {
            State::Whole { from, to } => &self.front.bytes[from..to],
            _ => &[],
        }
    }

    /// Ends the connection: a rest of a line that isn't empty is its last frame, as it stands. The reader is then at the start of
    /// another connection, unless it is closed.
    pub fn end(&mut self) -> Fed
        ensures counts { self.new.counts ≡ self.old.counts }
        ensures last { MatchOption self.old.rest
            ((result ≡ Fed.Closed) × (self.new.rest ≡ None) × (self.new.frame ≡ []))
            (λ rest. (self.new.rest ≡ Some []) × IsLast (last_frame self.old.counts rest) result self.new.frame) }
    {
        front::end(&mut self.front, self.counts)
    }
}
