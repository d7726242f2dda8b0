use gl_base::{Items, Text};

/// The greatest number of a stage.
pub const LAST_STAGE: u32 = 9_999;

/// When a message goes on to the next stage.
#[derive(Clone, Copy, Debug, PartialEq, Eq)]
pub enum Mode {
    /// Where each rule of the stage held.
    All,
    /// Where one held.
    Either,
    /// Always.
    Pass,
}

/// A stage: its number, at most `LAST_STAGE`, and the names of its rules in the order of the text.
#[derive(Debug, Drop)]
pub struct Stage {
    pub number: u32,
    pub mode: Mode,
    pub rules: Items<Text>,
}

/// A pipeline, whose stages stand by rising number.
#[derive(Debug, Drop)]
pub struct Pipeline {
    pub name: Text,
    pub stages: Items<Stage>,
}
