ghost use Rattle.std.specs.Prelude.{◌≡◌};

use gl_base::{Items, Text};
use gl_patterns::Pattern;

/// What was built for an extractor.
#[derive(Drop)]
pub struct Built {
    /// That of a Regex, or the expanded one of a Grok.
    pub pattern: Option<Pattern>,
    /// That of a condition.
    pub condition: Option<Pattern>,
    /// The field names of a Grok: the name at index N is that of the group `gN`.
    pub names: Items<Text>,
}

impl Built {
    pub fn new(pattern: Option<Pattern>, condition: Option<Pattern>, names: Items<Text>) -> Built
        ensures { result ≡ record { pattern = pattern; condition = condition; names = names } }
    {
        Built {
            pattern,
            condition,
            names,
        }
    }
}
