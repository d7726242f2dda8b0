ghost use Rattle.std.specs.Prelude.{◌≡◌, ◌↔◌, IsTrue, IfOk};

use crate::{FieldMap, InputKind};
use gl_base::{Items, Joint, Text};
use std::alloc::AllocError;

/// Where a message came from: the kind of its input, and the port of its peer.
#[derive(Clone, Copy, PartialEq, Eq)]
pub struct Origin {
    pub kind: InputKind,
    /// 0 where none is known.
    pub port: u16,
}

/// A payload as it came in.
#[derive(Drop)]
pub struct Message {
    pub input: Text,
    pub peer: Text,
    /// None of a message in the first format, which keeps no origin.
    pub origin: Option<Origin>,
    /// When it came in, in milliseconds since 1970.
    pub moment: u64,
    /// How many commands stand before it.
    pub version: u64,
    pub bytes: Items<u8>,
}

/// An entry of the journal.
#[derive(Drop)]
pub enum Entry {
    Admin(Items<u8>),
    Message(Message),
}

impl Message {
    /// An equal message.
    pub fn copy(&self) -> Result<Message, AllocError>
        ensures { IfOk result (λ m. m ≡ self.now) }
    {
        Ok(Message {
            input: self.input.copy()?,
            peer: self.peer.copy()?,
            origin: self.origin,
            moment: self.moment,
            version: self.version,
            bytes: self.bytes.copy()?,
        })
    }

    /// Whether both are equal. It takes no memory.
    pub fn same(&self, other: &Message) -> bool
        ensures { IsTrue result ↔ (self.now ≡ other.now) }
    {
        self.moment == other.moment
            && self.version == other.version
            && self.origin == other.origin
            && self.input.same(&other.input)
            && self.peer.same(&other.peer)
            && self.bytes.same(&other.bytes)
    }
}

impl Entry {
    /// An equal entry.
    pub fn copy(&self) -> Result<Entry, AllocError>
        ensures { IfOk result (λ e. e ≡ self.now) }
    {
        match self {
            Entry::Admin(command) => Ok(Entry::Admin(command.copy()?)),
            Entry::Message(message) => Ok(Entry::Message(message.copy()?)),
        }
    }

    /// Whether both are equal. It takes no memory.
    pub fn same(&self, other: &Entry) -> bool
        ensures { IsTrue result ↔ (self.now ≡ other.now) }
    {
        match (self, other) {
            (Entry::Admin(command), Entry::Admin(other)) => command.same(other),
            (Entry::Message(message), Entry::Message(other)) => message.same(other),
            _ => false,
        }
    }
}

/// Why a payload can't be decoded.
#[derive(Clone, Copy, Debug, PartialEq, Eq)]
pub enum Cause {
    NotJson { at: u32 },
    TooDeep,
    Compressed,
    NoShortMessage,
    TooManyFields,
    TooLarge,
}

/// What became of an entry.
#[derive(Drop)]
pub enum Outcome {
    Applied,
    Stored {
        streams: Joint<Items<u64>>,
        fields: Joint<FieldMap>,
    },
    Dropped,
    Undecodable(Cause),
}
