use gl_base::Items;

/// A unit of a word with wildcards.
#[derive(Clone, Copy)]
pub enum Piece {
    /// This byte, in either case of an ASCII letter.
    Byte(u8),
    /// `*`: any run of bytes.
    AnyRun,
    /// `?`: one character.
    AnyOne,
}

/// An end of a range.
#[derive(Clone, Copy)]
pub enum Limit {
    Unbounded,
    Included(i64),
    Excluded(i64),
}

/// What a query asks of one field, or of `message`, `full_message` and `source`.
#[derive(Drop)]
pub enum Term {
    /// Holds of every message.
    All,
    /// The field is there.
    Exists(Items<u8>),
    /// In this field, or in one of the three, stand the tokens of this text one after another.
    Text(Option<Items<u8>>, Items<u8>),
    /// In this field, or in one of the three, stands a token that the pattern covers, or it covers the whole.
    Pattern(Option<Items<u8>>, Items<Piece>),
    /// The field has a number between these limits.
    Within(Items<u8>, Limit, Limit),
}

/// A node of a query's tree in Polish notation: an operation stands before its members.
#[derive(Drop)]
pub enum Node {
    Leaf(Term),
    /// The member behind it doesn't hold.
    Negation,
    /// Each of so many members behind it holds.
    Both(usize),
    /// One of so many members behind it holds.
    Either(usize),
}
