// Commands.
use gl_base::{Items, Text};
use gl_extract::ExtractorParts;
use gl_fields::InputKind;

/// How a rule of a stream tests a field.
#[derive(Clone, Copy)]
pub enum TestKind {
    Exact,
    Regex,
    Greater,
    Smaller,
    Presence,
    Contains,
    Always,
}

/// A rule of a stream as a command gives it.
#[derive(Drop)]
pub struct RuleParts {
    pub field: Text,
    pub test: TestKind,
    /// The text that is compared, searched or matched, or a whole number; presence and always don't look at it.
    pub value: Text,
    pub inverted: bool,
}

/// What an administrator tells the server. Numbers other than ids are at most 2^53 where a command is kept.
#[derive(Drop)]
pub enum Command {
    CreateInput {
        name: Text,
        kind: InputKind,
    },
    /// Replaces the extractors of an input, in the order in which they run.
    SetExtractors {
        input: Text,
        extractors: Items<ExtractorParts>,
    },
    /// An index set never changes. 0 stands for no limit of rows, and of milliseconds.
    CreateIndexSet {
        name: Text,
        max_docs: u64,
        max_ms: u64,
        keep: u64,
    },
    CreateStream {
        name: Text,
        index_set: Text,
        any: bool,
        remove_from_default: bool,
        rules: Items<RuleParts>,
    },
    /// Replaces what the stream of this id does; its name and its index set stay.
    SetStream {
        id: u64,
        any: bool,
        remove_from_default: bool,
        paused: bool,
        rules: Items<RuleParts>,
    },
    /// The name of a rule or a pipeline is the one in its source.
    CreateRule {
        source: Text,
    },
    SetRule {
        source: Text,
    },
    CreatePipeline {
        source: Text,
    },
    SetPipeline {
        source: Text,
    },
    /// Replaces the list of the pipelines to which a stream is connected.
    Connect {
        stream: u64,
        pipelines: Items<Text>,
    },
    /// A table of comma-separated records, by the names of the columns of its keys and its values.
    CreateLookup {
        name: Text,
        csv: Text,
        key: Text,
        value: Text,
    },
    SetLookup {
        name: Text,
        csv: Text,
        key: Text,
        value: Text,
    },
    CreateGrok {
        name: Text,
        pattern: Text,
    },
    SetGrok {
        name: Text,
        pattern: Text,
    },
    /// The token itself isn't kept, but its SHA-256, in hexadecimal digits.
    CreateUser {
        name: Text,
        token_sha256: Text,
        admin: bool,
        streams: Items<u64>,
    },
    SetUser {
        name: Text,
        token_sha256: Text,
        admin: bool,
        streams: Items<u64>,
    },
}
