use gl_base::Items;

/// How a number is compared.
#[derive(Clone, Copy)]
pub enum Comparison {
    Above,
    AtLeast,
    Below,
    AtMost,
}

/// Whether a range has the number that bounds it: `[` and `]` include it, `{` and `}` exclude it.
#[derive(Clone, Copy)]
pub enum Edge {
    Including,
    Excluding,
}

/// A unit of a query's text.
#[derive(Drop)]
pub enum Token {
    /// A word as it stands, with its backslashes.
    Word(Items<u8>),
    /// A word as it stands, and the `:` that follows it at once.
    Field(Items<u8>),
    /// `_exists_:`
    Exists,
    /// A phrase as it stands between its quotes.
    Phrase(Items<u8>),
    Open,
    Close,
    /// `AND` or `&&`
    And,
    /// `OR` or `||`
    Or,
    /// `NOT` or `!`
    Not,
    To,
    Compare(Comparison),
    /// `[` or `{`
    Begin(Edge),
    /// `]` or `}`
    End(Edge),
    /// What reads as no token.
    Unreadable,
}
