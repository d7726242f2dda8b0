// Comparisons of values.
ghost use Rattle.std.specs.Prelude.{◌≡◌, int_lt, int_le};
ghost use Rattle.gl_check.specs.Values.{is_equal};
ghost use Rattle.gl_functions.specs.Operations.{both, pair_passes};

use crate::content;
use crate::value::Value;

pub fn are_equal(left: &Value<'_>, right: &Value<'_>) -> bool
    ensures { result ≡ is_equal left.now right.now }
{
    content::are_equal(&left.content, &right.content)
}

/// Both, where both are whole numbers.
pub fn both(left: &Value<'_>, right: &Value<'_>) -> Option<(i64, i64)>
    ensures { result ≡ both left.now right.now }
{
    match left.as_whole() {
        Some(left) => match right.as_whole() {
            Some(right) => Some((left, right)),
            None => None,
        },
        None => None,
    }
}

pub fn is_less(left: &Value<'_>, right: &Value<'_>) -> bool
    ensures { result ≡ pair_passes int_lt (both left.now right.now) }
{
    match both(left, right) {
        Some((left, right)) => left < right,
        None => false,
    }
}

pub fn is_at_most(left: &Value<'_>, right: &Value<'_>) -> bool
    ensures { result ≡ pair_passes int_le (both left.now right.now) }
{
    match both(left, right) {
        Some((left, right)) => left <= right,
        None => false,
    }
}
