// What an extractor is made of.
ghost use Rattle.std.specs.Prelude.{◌≡◌, IfOk};

use gl_base::{Items, Text};
use std::alloc::AllocError;

/// How a text gives fields.
#[derive(Drop)]
pub enum ExtractorKind {
    /// Group 1 of the pattern's first match.
    Regex { pattern: Text, target: Text },
    /// The characters from `begin` to before `end`, counted from 0.
    Substring { begin: u64, end: u64, target: Text },
    /// The piece of this index, from 1, of those that the occurrences of `by` part.
    Split { by: Text, index: u64, target: Text },
    /// The named fields of a grok pattern.
    Grok { pattern: Text },
    /// The fields of the JSON object that the text is.
    Json,
}

/// Which texts an extractor takes.
#[derive(Drop)]
pub enum Condition {
    None,
    /// Those in which this text stands.
    Contains(Text),
    /// Those in which this pattern is found.
    Regex(Text),
}

/// How the value that was taken is changed before it is set.
#[derive(Clone, Copy, PartialEq, Eq)]
pub enum Converter {
    /// A text of digits, with or without `-` before them, becomes a whole number.
    Numeric,
    Lowercase,
    Uppercase,
    /// The severity of a syslog priority, 0 to 191, as a whole number.
    SyslogLevel,
    /// The name of the facility of a syslog priority, 0 to 191.
    SyslogFacility,
}

/// What an extractor is made of.
#[derive(Drop)]
pub struct ExtractorParts {
    pub kind: ExtractorKind,
    /// The name of the field whose text is read.
    pub source: Text,
    /// Whether what was taken is cut out of the source.
    pub cut: bool,
    pub condition: Condition,
    /// They work in order. They play no part for Grok and Json.
    pub converters: Items<Converter>,
}

impl ExtractorKind {
    /// An equal kind.
    fn copy(&self) -> Result<ExtractorKind, AllocError>
        ensures { IfOk result (λ k. k ≡ self.now) }
    {
        match self {
            ExtractorKind::Regex { pattern, target } => Ok(ExtractorKind::Regex {
                pattern: pattern.copy()?,
                target: target.copy()?,
            }),
            ExtractorKind::Substring { begin, end, target } => Ok(ExtractorKind::Substring {
                begin: *begin,
                end: *end,
                target: target.copy()?,
            }),
            ExtractorKind::Split { by, index, target } => Ok(ExtractorKind::Split {
                by: by.copy()?,
                index: *index,
                target: target.copy()?,
            }),
            ExtractorKind::Grok { pattern } => Ok(ExtractorKind::Grok {
                pattern: pattern.copy()?,
            }),
            ExtractorKind::Json => Ok(ExtractorKind::Json),
        }
    }
}

impl Condition {
    /// An equal condition.
    fn copy(&self) -> Result<Condition, AllocError>
        ensures { IfOk result (λ c. c ≡ self.now) }
    {
        match self {
            Condition::None => Ok(Condition::None),
            Condition::Contains(part) => Ok(Condition::Contains(part.copy()?)),
            Condition::Regex(pattern) => Ok(Condition::Regex(pattern.copy()?)),
        }
    }
}

impl ExtractorParts {
    /// Equal parts.
    pub fn copy(&self) -> Result<ExtractorParts, AllocError>
        ensures { IfOk result (λ parts. parts ≡ self.now) }
    {
        Ok(ExtractorParts {
            kind: self.kind.copy()?,
            source: self.source.copy()?,
            cut: self.cut,
            condition: self.condition.copy()?,
            converters: self.converters.copy()?,
        })
    }
}
