//! The limits of messages and of their fields.

/// How many bytes the name of an input has at most.
pub const MAX_INPUT: usize = 64;

/// How many bytes a peer has at most.
pub const MAX_PEER: usize = 255;

/// How many bytes the payload of a message has at most.
pub const MAX_PAYLOAD: usize = 1_048_576;

/// How many bytes a command has at most.
pub const MAX_COMMAND: usize = 4_194_299;

/// The last moment, in milliseconds since 1970: the end of the year 9999.
pub const LAST_MOMENT: u64 = 253_402_300_799_999;

/// How many fields a message has at most.
pub const MAX_FIELDS: usize = 256;

/// How many bytes the name of a field has at most.
pub const MAX_NAME: usize = 255;

/// How many bytes the names and the texts of the fields of a message count at most.
pub const MAX_SIZE: usize = 2_097_152;
