// The connections of a session.
ghost use Rattle.std.specs.Prelude.{◌≡◌, ◌≤◌, ◌<◌, [], false, length, nat_le, IfOk, MatchOption, All};
ghost use Rattle.gl_cli.specs.Connections.{most_connections};
ghost use Rattle.gl_cli.specs.Opened.{IsOpen, IsPlace, ConnectionsStandFor, begun, is_named};

use crate::frames::Frames;
use gl_base::Text;
use gl_fields::InputKind;
use std::alloc::{AllocError, Global};

/// How many connections may be open.
const MOST_CONNECTIONS: usize = 256;

/// A connection that is open.
#[derive(Drop)]
pub struct Open {
    pub input: Text,
    pub number: u32,
    /// The peer that sent last.
    pub peer: Text,
    pub frames: Frames,
    /// A frame was too long.
    pub closed: bool,
}

/// The connections that are open, in the order in which they began.
#[derive(Drop)]
pub struct Connections {
    pub all: Vec<Open>,
}

impl Open {
    /// A connection that was sent nothing.
    pub fn new(
        alloc: Global,
        input: &str,
        number: u32,
        kind: InputKind,
        peer: &str,
    ) -> Result<Open, AllocError>
        requires some_peer { 0 < length peer.now }
        requires short_peer { length peer.now ≤ 255 }
        ensures { IfOk result (λ o. IsOpen o (begun input.now number kind peer.now)) }
    {
        Ok(Open {
            input: Text::from_str(alloc, input)?,
            number,
            peer: Text::from_str(alloc, peer)?,
            frames: Frames::new(alloc, kind)?,
            closed: false,
        })
    }

    /// Whether it is the one of this input and number.
    fn is_named(&self, input: &str, number: u32) -> bool
        ensures { result ≡ is_named input.now number self.now }
    {
        self.input.as_str().as_bytes() == input.as_bytes() && self.number == number
    }
}

impl Connections {
    pub fn new(alloc: Global) -> Connections
        ensures { ConnectionsStandFor result.all.items [] }
    {
        Connections {
            all: Vec::new(alloc),
        }
    }

    /// Whether no further connection may begin.
    pub fn is_full(&self) -> bool
        ensures { result ≡ nat_le most_connections (length self.now.all.items) }
    {
        self.all.len() >= MOST_CONNECTIONS
    }

    /// Where the connection of this input and number stands.
    pub fn place_of(&self, input: &str, number: u32) -> Option<usize>
        ensures { MatchOption result (All (λ o. is_named input.now number o ≡ false) self.now.all.items) (IsPlace self.now.all.items input.now number) }
    {
        self.all.iter().position(|one| one.is_named(input, number))
    }
}
