//! What the journal and the index log hold: entries and outcomes, the fields of a message, and their bytes.
//!
//! A contract sees a `FieldMap` as the list of its fields in rising order of their names' bytes. The
//! map keeps at most 256 lawful fields; `set`, `remove` and `rename` change the fields that they name, or
//! say the first rule that this would break. The encoders give exactly the bytes that `specs/Entries` and
//! `specs/Outcomes` define, and within the bounds of `specs/Bounds` no two entries and no two outcomes
//! have the same bytes. The decoders read just those bytes back; of any others they say the place that
//! `specs/EntryReading` gives: that of the first part that isn't lawful behind those before it.
#![tactic(auto)]

mod decode;
mod encode;
mod entry;
mod fault;
mod field;
mod input_kind;
mod limits;
mod map;
mod peer;
mod place;
mod read_outcome;
mod rename;
mod set_rule;
mod size;
mod units;
mod value;

pub use decode::{EntryRefusal, decode_entry};
pub use encode::{encode_entry, encode_outcome, law_bytes_read_back};
pub use entry::{Cause, Entry, Message, Origin, Outcome};
pub use fault::DecodeFault;
pub use field::{Field, FieldRefusal};
pub use input_kind::InputKind;
pub use limits::{
    LAST_MOMENT, MAX_COMMAND, MAX_FIELDS, MAX_INPUT, MAX_NAME, MAX_PAYLOAD, MAX_PEER, MAX_SIZE,
};
pub use map::FieldMap;
pub use peer::split_peer;
pub use place::is_field_name;
pub use read_outcome::decode_outcome;
pub use set_rule::SetRule;
pub use value::Value;
