use gl_base::{Items, Text};

/// An element of structured data (RFC 5424 section 6.3).
#[derive(Debug, Drop)]
pub struct Element {
    pub id: Text,
    /// Names and values, without the backslashes of escapes.
    pub params: Items<(Text, Text)>,
}

/// A time stamp as it is written (RFC 5424 section 6.2.3).
#[derive(Debug, Drop)]
pub struct Stamp {
    pub year: u16,
    pub month: u8,
    pub day: u8,
    pub hour: u8,
    pub minute: u8,
    pub second: u8,
    /// The digits behind the point, 1 to 6; empty where there is no point.
    pub fraction: Text,
    /// None for `Z`.
    pub offset_minutes: Option<i16>,
}

/// The parts of a message (RFC 5424 section 6). None stands for `-`, and for a message that isn't there.
#[derive(Debug, Drop)]
pub struct Parts {
    /// 0 to 191: the facility times 8 and the severity.
    pub pri: u8,
    pub stamp: Option<Stamp>,
    pub host: Option<Text>,
    pub app: Option<Text>,
    pub proc_id: Option<Text>,
    pub msg_id: Option<Text>,
    pub elements: Items<Element>,
    /// Whether a byte order mark stands before the message, which `msg` is without.
    pub bom: bool,
    pub msg: Option<Text>,
}
