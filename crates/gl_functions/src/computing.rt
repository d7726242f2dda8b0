// Arithmetic within 64 bits.
ghost use Rattle.std.specs.Prelude.{◌≡◌, ◌+ℤ◌, ◌-ℤ◌, ◌*ℤ◌, int_div, int_rem};
ghost use Rattle.gl_check.specs.Values.{bounded, whole};
ghost use Rattle.gl_functions.specs.Contents.{whole_in};
ghost use Rattle.gl_functions.specs.Operations.{of_numbers, unless_zero, negated, number_or_missing};

use crate::comparing::both;
use crate::value::Value;

pub fn of_checked<'a>(number: Option<i64>) -> Value<'a>
    ensures { result ≡ number_or_missing number }
{
    match number {
        Some(number) => Value::of_whole(number),
        None => Value::missing(),
    }
}

pub fn negation<'a>(operand: &Value<'_>) -> Value<'a>
    ensures { result ≡ bounded (negated (whole_in operand.now)) }
{
    match operand.as_whole() {
        Some(number) => of_checked(number.checked_neg()),
        None => Value::missing(),
    }
}

pub fn sum<'a>(left: &Value<'_>, right: &Value<'_>) -> Value<'a>
    ensures { result ≡ bounded (of_numbers (λ x y. whole (x +ℤ y)) left.now right.now) }
{
    match both(left, right) {
        Some((left, right)) => of_checked(left.checked_add(right)),
        None => Value::missing(),
    }
}

pub fn difference<'a>(left: &Value<'_>, right: &Value<'_>) -> Value<'a>
    ensures { result ≡ bounded (of_numbers (λ x y. whole (x -ℤ y)) left.now right.now) }
{
    match both(left, right) {
        Some((left, right)) => of_checked(left.checked_sub(right)),
        None => Value::missing(),
    }
}

pub fn product<'a>(left: &Value<'_>, right: &Value<'_>) -> Value<'a>
    ensures { result ≡ bounded (of_numbers (λ x y. whole (x *ℤ y)) left.now right.now) }
{
    match both(left, right) {
        Some((left, right)) => of_checked(left.checked_mul(right)),
        None => Value::missing(),
    }
}

/// Cut toward zero; missing by zero, and where the least number is divided by -1.
pub fn quotient<'a>(left: &Value<'_>, right: &Value<'_>) -> Value<'a>
    ensures { result ≡ bounded (of_numbers (unless_zero int_div) left.now right.now) }
{
    match both(left, right) {
        Some((left, right)) => of_checked(left.checked_div(right)),
        None => Value::missing(),
    }
}

/// With the sign of the left side; missing by zero.
pub fn remainder<'a>(left: &Value<'_>, right: &Value<'_>) -> Value<'a>
    ensures { result ≡ bounded (of_numbers (unless_zero int_rem) left.now right.now) }
{
    match both(left, right) {
        Some((left, right)) => remainder_of(left, right),
        None => Value::missing(),
    }
}

fn remainder_of<'a>(left: i64, right: i64) -> Value<'a>
    ensures { result ≡ bounded (unless_zero int_rem left right) }
{
    if right == 0 {
        return Value::missing();
    }
    Value::of_whole(left.wrapping_rem(right))
}
