ghost use Rattle.std.specs.Prelude.{◌≡◌, ◌≤◌, [], List, ℕ, Some, length, IfOk};
ghost use Rattle.gl_lines.specs.Reader.{IsAnswer};
ghost use Rattle.gl_lines.specs.ZeroReader.{StandsFor, Takes, IsDropped, IsEnd};

use crate::zero_front::{self, Stage, ZeroFront};
use gl_base::Fed;
use std::alloc::{AllocError, Global};
use std::marker::Model;

/// Cuts the bytes of a connection into frames, in whatever pieces they come: a frame ends at a zero byte. An empty frame
/// gives nothing. A frame has at most 1,048,576 bytes.
#[derive(Debug, Drop)]
pub struct ZeroFrames {
    front: ZeroFront,
}

impl Model for ZeroFrames {
    ghost use Rattle.gl_lines.specs.ZeroReader.{ZeroView};

    ghost Value = { ZeroView };

    ghost use Rattle.gl_lines.specs.ZeroFronts.{zero_reader_of, IsZeroReader};

    ghost view = { zero_reader_of };

    ghost invariant = { IsZeroReader };
}

impl ZeroFrames {
    /// A reader at the start of a connection. It reserves room for the longest frame, and no later call takes memory.
    pub fn new(alloc: Global) -> Result<ZeroFrames, AllocError>
        ensures begun { IfOk result (λ z. z.rest ≡ Some []) }
        ensures empty { IfOk result (λ z. StandsFor z []) }
    {
        Ok(ZeroFrames {
            front: zero_front::new(alloc)?,
        })
    }

    /// Takes bytes from the front of a piece until a frame ends that isn't empty, and says how many it took.
    ///
    /// But for `Whole` it takes all of the piece.
    pub fn take(&mut self, piece: &[u8]) -> (usize, Fed)
        ensures within { result.0 ≤ length piece.now }
        // Whatever was given before: the frames so far are those of the bytes so far.
        ensures frames { (given : List ℕ) → StandsFor self.old given → Takes self.new given piece.now result.0 result.1 }
        ensures answer { IsAnswer result.1 self.old.rest self.new.rest self.new.frame result.0 (length piece.now) }
    {
        if let Stage::Closed = self.front.stage {
            return (piece.len(), Fed::Closed);
        }
        if let Stage::Ended = self.front.stage {
            zero_front::begin(&mut self.front);
        }
        zero_front::feed(&mut self.front, piece)
    }

    /// The frame that the last call of `take` answered `Whole` for; else nothing.
    pub fn frame(&self) -> &[u8]
        ensures { result.now ≡ self.now.frame }
    {
        match self.front.stage {
            Stage::Ended => self.front.bytes.as_slice(),
            _ => &[],
        }
    }

    /// Ends the connection: the bytes behind the last frame are dropped. The reader is then at the start of another
    /// connection, unless it is closed.
    pub fn end(&mut self) -> Fed
        ensures ended { (given : List ℕ) → StandsFor self.old given → IsEnd result self.new given }
        ensures last { IsDropped self.old.rest result self.new }
    {
        zero_front::end(&mut self.front)
    }
}
