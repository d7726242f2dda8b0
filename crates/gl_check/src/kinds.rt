// The kind of an expression, told by its outermost node.
ghost use Rattle.std.specs.Prelude.{◌≡◌, reverse, bytes_eq, if◌then◌else◌};
ghost use Rattle.gl_rulelang.specs.Tree.{tree_of};
ghost use Rattle.gl_check.specs.Functions.{gives_named};
ghost use Rattle.gl_check.specs.Checking.{kind_in, kind_of, prefix_kind, operand_kind, infix_kind};

use crate::call::function_of;
use crate::function::Function;
use crate::kind::Kind;
use gl_base::Text;
use gl_rulelang::{Binary, Expr, Unary};

/// The kind where both names are one, else the one that was found before.
fn newer(name: &Text, other: &Text, kind: Kind, found: Option<Kind>) -> Option<Kind>
    ensures { result ≡ (if bytes_eq name.now other.now then Some kind else found) }
{
    if name.as_str() == other.as_str() {
        Some(kind)
    } else {
        found
    }
}

/// The kind of a variable, of those that were given so far, the last one last.
pub fn kind_in(name: &Text, known: &[(Text, Kind)]) -> Option<Kind>
    ensures { result ≡ kind_in name.now (reverse known.now) }
{
    let mut found = None;
    for (other, kind) in known {
        found = newer(name, other, *kind, found);
    }
    found
}

pub fn prefix_kind(sign: Unary) -> Kind
    ensures { result ≡ prefix_kind sign }
{
    match sign {
        Unary::Minus => Kind::Whole,
        Unary::Not => Kind::Bool,
    }
}

/// The kind of the operands, where they have to be of one.
pub fn operand_kind(sign: Binary) -> Option<Kind>
    ensures { result ≡ operand_kind sign }
{
    match sign {
        Binary::Or | Binary::And => Some(Kind::Bool),
        Binary::Equal | Binary::NotEqual => None,
        Binary::Less | Binary::AtMost | Binary::Greater | Binary::AtLeast => Some(Kind::Whole),
        Binary::Plus | Binary::Minus | Binary::Times | Binary::Divide | Binary::Remainder => {
            Some(Kind::Whole)
        }
    }
}

pub fn infix_kind(sign: Binary) -> Kind
    ensures { result ≡ infix_kind sign }
{
    match sign {
        Binary::Or | Binary::And | Binary::Equal | Binary::NotEqual => Kind::Bool,
        Binary::Less | Binary::AtMost | Binary::Greater | Binary::AtLeast => Kind::Bool,
        Binary::Plus | Binary::Minus | Binary::Times | Binary::Divide | Binary::Remainder => {
            Kind::Whole
        }
    }
}

/// What a function gives as an expression.
fn gives_of(function: Option<Function>) -> Option<Kind>
    ensures { result ≡ gives_named function }
{
    match function {
        None => None,
        Some(function) => function.gives(),
    }
}

/// The kind of an expression; none of an unknown variable, an unknown function or an action.
pub fn kind_of(known: &[(Text, Kind)], e: &Expr) -> Option<Kind>
    ensures { result ≡ kind_of (reverse known.now) (tree_of e.now) }
{
    match e {
        Expr::Text(_) => Some(Kind::Text),
        Expr::Whole(_) => Some(Kind::Whole),
        Expr::Bool(_) => Some(Kind::Bool),
        Expr::Field(_) => Some(Kind::Any),
        Expr::Var(name) => kind_in(name, known),
        Expr::Unary(sign, _) => Some(prefix_kind(*sign)),
        Expr::Binary(sign, _, _) => Some(infix_kind(*sign)),
        Expr::Call(call) => gives_of(function_of(call)),
    }
}
