use gl_base::Text;

/// An operation on one operand.
#[derive(Clone, Copy, Debug, PartialEq, Eq)]
pub enum Unary {
    Minus,
    Not,
}

/// An operation on two operands.
#[derive(Clone, Copy, Debug, PartialEq, Eq)]
pub enum Binary {
    Or,
    And,
    Equal,
    NotEqual,
    Less,
    AtMost,
    Greater,
    AtLeast,
    Plus,
    Minus,
    Times,
    Divide,
    Remainder,
}

/// What a condition, an argument or a `let` computes.
#[cycle(expression)]
#[derive(Debug, Drop)]
pub enum Expr {
    Text(Text),
    Whole(i64),
    Bool(bool),
    /// A field of the message, `$message.NAME`.
    Field(Text),
    /// A name that a `let` gave.
    Var(Text),
    Unary(Unary, Box<Expr>),
    Binary(Binary, Box<Expr>, Box<Expr>),
    Call(Call),
}

/// A call of a function: its name, and its arguments, some with a name, in the order of the text.
#[cycle(expression)]
#[derive(Debug, Drop)]
pub struct Call {
    pub name: Text,
    pub arguments: Vec<(Option<Text>, Expr)>,
}

/// What a rule does where its condition holds.
#[derive(Debug, Drop)]
pub enum Action {
    /// Gives a name to a value.
    Let(Text, Expr),
    Do(Call),
}

/// A rule.
#[derive(Debug, Drop)]
pub struct Rule {
    pub name: Text,
    pub condition: Expr,
    pub actions: Vec<Action>,
}
