ghost use Rattle.std.specs.Prelude.{◌≡◌};

use gl_patterns::Pattern;
use std::marker::Model;

/// The compiled patterns of a rule, in the order of the calls that take them. Contracts see their texts.
#[derive(Drop)]
pub struct RulePatterns {
    pub(crate) row: Row,
}

/// Compiled patterns, and the place of the next one that an expression takes.
#[derive(Drop)]
pub struct Row {
    pub patterns: Vec<Pattern>,
    pub next: usize,
}

impl Model for RulePatterns {
    ghost use Rattle.std.specs.Prelude.{ℕ, List};

    ghost Value = { List (List ℕ) };

    ghost view = { λ p. p.row.patterns.items };
}

impl RulePatterns {
    pub fn new(patterns: Vec<Pattern>) -> RulePatterns
        ensures { result ≡ patterns.items }
    {
        RulePatterns {
            row: Row { patterns, next: 0 },
        }
    }
}
