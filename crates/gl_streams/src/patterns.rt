ghost use Rattle.std.specs.Prelude.{◌≡◌, map};

use gl_patterns::Pattern;
use std::marker::Model;

/// The compiled patterns of streams: for each rule of each stream one, or none where it looks for none.
/// Contracts see their texts.
#[derive(Drop)]
pub struct StreamPatterns {
    pub(crate) patterns: Vec<Vec<Option<Pattern>>>,
}

impl Model for StreamPatterns {
    ghost use Rattle.std.specs.Prelude.{ℕ, map, List, Option};

    ghost Value = { List (List (Option (List ℕ))) };

    ghost view = { λ p. map (λ own. own.items) p.patterns.items };
}

impl StreamPatterns {
    pub fn new(patterns: Vec<Vec<Option<Pattern>>>) -> StreamPatterns
        ensures { result ≡ map (λ own. own.items) patterns.items }
    {
        StreamPatterns { patterns }
    }
}
