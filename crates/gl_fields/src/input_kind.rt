/// What decodes the payloads of an input.
#[derive(Clone, Copy, Debug, PartialEq, Eq)]
pub enum InputKind {
    /// The payload is the message.
    Raw,
    /// GELF 1.1: a JSON object, by its fields.
    Gelf,
    /// RFC 5424, or else RFC 3164.
    Syslog,
}
