// What signs make of values.
ghost use Rattle.std.specs.Prelude.{◌≡◌};
ghost use Rattle.gl_check.specs.Values.{bounded};
ghost use Rattle.gl_functions.specs.Operations.{prefixed, infixed};

use crate::comparing::{are_equal, is_at_most, is_less};
use crate::computing::{difference, negation, product, quotient, remainder, sum};
use crate::value::Value;
use gl_rulelang::{Binary, Unary};

/// What a sign before an operand makes of it. It takes no memory.
pub fn prefixed<'a>(sign: Unary, operand: &Value<'_>) -> Value<'a>
    ensures { result ≡ bounded (prefixed sign operand.now) }
{
    match sign {
        Unary::Minus => negation(operand),
        Unary::Not => Value::of_truth(!operand.is_true()),
    }
}

/// What a sign between two operands makes of them. Division cuts toward zero, and a remainder has the sign of the left side; there
/// is none by zero. An order is false where an operand is no whole number, and equality where one is missing. It takes no memory.
pub fn infixed<'a>(sign: Binary, left: &Value<'_>, right: &Value<'_>) -> Value<'a>
    ensures { result ≡ bounded (infixed sign left.now right.now) }
{
    match sign {
        Binary::Or => Value::of_truth(left.is_true() || right.is_true()),
        Binary::And => Value::of_truth(left.is_true() && right.is_true()),
        Binary::Equal => Value::of_truth(are_equal(left, right)),
        Binary::NotEqual => Value::of_truth(!are_equal(left, right)),
        Binary::Less => Value::of_truth(is_less(left, right)),
        Binary::AtMost => Value::of_truth(is_at_most(left, right)),
        Binary::Greater => Value::of_truth(is_less(right, left)),
        Binary::AtLeast => Value::of_truth(is_at_most(right, left)),
        Binary::Plus => sum(left, right),
        Binary::Minus => difference(left, right),
        Binary::Times => product(left, right),
        Binary::Divide => quotient(left, right),
        Binary::Remainder => remainder(left, right),
    }
}
