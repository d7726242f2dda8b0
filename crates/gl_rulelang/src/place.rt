ghost use Rattle.std.specs.Prelude.{◌≡◌, option_map, Option};
ghost use Rattle.gl_rulelang.specs.Places.{start_view, place_view};

use crate::rule::Expr;

/// Where an operand is to come.
#[derive(Clone, Copy, Debug, PartialEq, Eq)]
pub enum Start {
    Anywhere,
    FirstArgument,
    NextArgument,
}

/// A place of an expression, told by what stands before it.
#[derive(Debug, Drop)]
pub enum Place<'t> {
    /// An operand is to come.
    Wants(Start),
    /// A name of a variable or a function was read.
    Named(&'t str),
    /// The same where an argument begins, so that it may be the argument's name.
    MaybeNamed(&'t str),
    /// `$message` was read.
    Message,
    /// `$message.` was read.
    Dotted,
    Has(Expr),
    /// A call that is an action was read.
    Acted(Expr),
}

/// What a token does at a place.
#[derive(Debug, Drop)]
pub enum Move<'t> {
    /// It is taken.
    Goes(Place<'t>),
    /// The expression ends before it.
    Ends(Expr),
}
