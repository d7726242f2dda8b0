ghost use Rattle.std.specs.Prelude.{◌≡◌, option_map};
ghost use Rattle.gl_rulelang.specs.Tokens.{token_view, left, first, rest, place, is_sign};

use crate::rule::Binary;

/// The keywords, and the signs that stand between no two operands.
#[derive(Clone, Copy, Debug, PartialEq, Eq)]
pub enum Sign {
    Rule,
    When,
    Then,
    End,
    Let,
    Pipeline,
    Stage,
    Match,
    All,
    Either,
    Pass,
    True,
    False,
    Not,
    Open,
    Close,
    Comma,
    Semicolon,
    Colon,
    Dot,
    Assign,
    Message,
}

/// A token, in pieces of the text. A string is kept as it is spelled between its quotes.
#[derive(Clone, Copy, Debug)]
pub enum Token<'t> {
    Name(&'t str),
    String(&'t str),
    /// At least 0.
    Number(i64),
    Operator(Binary),
    Sign(Sign),
}

/// A token, and the place in bytes where it begins.
#[derive(Clone, Copy, Debug)]
pub struct Placed<'t> {
    pub token: Token<'t>,
    pub at: usize,
}

/// The tokens that are still to be read, and the length of the text.
#[derive(Drop)]
pub struct Cursor<'t> {
    pub tokens: &'t [Placed<'t>],
    pub end: usize,
}

impl<'t> Cursor<'t> {
    /// Where the next token begins, or the length of the text.
    pub fn place(&self) -> u64
        ensures { result ≡ place (left self.now) }
    {
        match self.tokens {
            [] => self.end as u64,
            [placed, ..] => placed.at as u64,
        }
    }

    pub fn peek(&self) -> Option<Token<'t>>
        ensures { option_map token_view result ≡ first (left self.now) }
    {
        match self.tokens {
            [] => None,
            [placed, ..] => Some(placed.token),
        }
    }

    pub fn advance(&mut self)
        ensures { left self.new ≡ rest (left self.old) }
    {
        if let [_, behind @ ..] = self.tokens {
            self.tokens = behind;
        }
    }

    /// Whether this sign or keyword is next.
    pub fn is_at(&self, sign: Sign) -> bool
        ensures { result ≡ is_sign sign (first (left self.now)) }
    {
        match self.peek() {
            Some(Token::Sign(found)) => found == sign,
            _ => false,
        }
    }
}
