use gl_base::{Items, Joint, Text};
use gl_fields::FieldMap;

/// A stored message. Rows may share what they have in common.
#[derive(Drop)]
pub struct Row {
    /// Its position in the journal.
    pub position: u64,
    /// When it was received, in milliseconds since 1970.
    pub moment: u64,
    /// The ids of its streams.
    pub streams: Joint<Items<u64>>,
    /// The names of its index sets.
    pub sets: Joint<Items<Text>>,
    pub fields: Joint<FieldMap>,
}
