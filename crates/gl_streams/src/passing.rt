// Whether a rule holds of a message's fields.
ghost use Rattle.std.specs.Prelude.{◌≡◌, Some, None, option_map, not, if◌then◌else◌, IfOk, int_lt};
ghost use Rattle.std.specs.Str.{bytes_eq};
ghost use Rattle.gl_fields.specs.Fields.{value_text};
ghost use Rattle.gl_patterns.specs.Patterns.{is_found};
ghost use Rattle.gl_text.specs.Texts.{contains};
ghost use Rattle.gl_streams.specs.Matching.{given_back, number_of, is_number_that, passes, is_always, pattern_of, rule_holds};

use crate::stream::{StreamRule, Test};
use gl_fields::{FieldMap, Value};
use gl_patterns::Pattern;
use gl_text::{Decimal, contains, whole_number};
use std::alloc::AllocError;

// The number that a value is, or that its text writes.
fn number_of(value: &Value) -> Option<i64>
    ensures { result ≡ number_of value.now }
{
    match value {
        Value::Text(text) => whole_number(text.as_str()),
        Value::Whole(number) => Some(*number),
    }
}

fn is_greater(value: &Value, bound: i64) -> bool
    ensures { result ≡ is_number_that (λ number. int_lt bound number) (number_of value.now) }
{
    match number_of(value) {
        Some(number) => number > bound,
        None => false,
    }
}

fn is_smaller(value: &Value, bound: i64) -> bool
    ensures { result ≡ is_number_that (λ number. int_lt number bound) (number_of value.now) }
{
    match number_of(value) {
        Some(number) => number < bound,
        None => false,
    }
}

fn text_is(value: &Value, text: &str) -> bool
    ensures { result ≡ bytes_eq text.now (value_text value.now) }
{
    match value {
        Value::Text(held) => text == held.as_str(),
        Value::Whole(number) => text == Decimal::new(*number).as_str(),
    }
}

fn text_has(value: &Value, part: &str) -> bool
    ensures { result ≡ contains part.now (value_text value.now) }
{
    match value {
        Value::Text(held) => contains(held.as_str(), part),
        Value::Whole(number) => contains(Decimal::new(*number).as_str(), part),
    }
}

// Whether a value passes a test that looks for no pattern.
fn passes(test: &Test, value: &Value) -> bool
    requires { pattern_of test.now ≡ None }
    ensures { result ≡ passes test.now value.now }
{
    match test {
        Test::Exact(text) => text_is(value, text.as_str()),
        Test::Regex(_) => false,
        Test::Greater(bound) => is_greater(value, *bound),
        Test::Smaller(bound) => is_smaller(value, *bound),
        Test::Presence => true,
        Test::Contains(part) => text_has(value, part.as_str()),
        Test::Always => true,
    }
}

fn is_always(test: &Test) -> bool
    ensures { result ≡ is_always test.now }
{
    matches!(test, Test::Always)
}

fn turned(holds: bool, inverted: bool) -> bool
    ensures { result ≡ (if inverted then not holds else holds) }
{
    holds != inverted
}

/// Whether a rule that looks for no pattern holds of a message's fields. It takes no memory.
pub fn plain_matches(rule: &StreamRule, fields: &FieldMap) -> bool
    requires { pattern_of rule.now.test ≡ None }
    ensures { result ≡ rule_holds rule.now fields.now }
{
    let holds = match fields.get(rule.field.as_str()) {
        Some(value) => passes(&rule.test, value),
        None => is_always(&rule.test),
    };
    turned(holds, rule.inverted)
}

// Whether the pattern is found in a value's text.
fn is_found(pattern: &mut Pattern, value: &Value) -> Result<bool, AllocError>
    ensures value { IfOk result (λ yes. yes ≡ is_found pattern.old (value_text value.now)) }
    ensures same { pattern.new ≡ pattern.old }
{
    match value {
        Value::Text(text) => pattern.found(text.as_str()),
        Value::Whole(number) => pattern.found(Decimal::new(*number).as_str()),
    }
}

// Whether a rule that looks for this pattern holds.
fn pattern_matches(
    rule: &StreamRule,
    pattern: &mut Pattern,
    fields: &FieldMap,
) -> Result<bool, AllocError>
    requires { pattern_of rule.now.test ≡ Some pattern.old }
    ensures value { IfOk result (λ yes. yes ≡ rule_holds rule.now fields.now) }
    ensures same { pattern.new ≡ pattern.old }
{
    match fields.get(rule.field.as_str()) {
        Some(value) => Ok(turned(is_found(pattern, value)?, rule.inverted)),
        None => Ok(turned(false, rule.inverted)),
    }
}

/// Whether a rule holds of a message's fields, beside the pattern that it looks for, if it does.
///
/// Only the search for a pattern takes memory.
pub fn matches(
    rule: &StreamRule,
    pattern: Option<&mut Pattern>,
    fields: &FieldMap,
) -> Result<bool, AllocError>
    requires { option_map (λ p. p.now) pattern ≡ pattern_of rule.now.test }
    ensures value { IfOk result (λ yes. yes ≡ rule_holds rule.now fields.now) }
    ensures same { given_back pattern.exit ≡ option_map (λ p. p.now) pattern.entry }
{
    match pattern {
        Some(pattern) => pattern_matches(rule, pattern, fields),
        None => Ok(plain_matches(rule, fields)),
    }
}

// The same, with the pattern where it is kept.
pub(crate) fn rule_matches(
    rule: &StreamRule,
    pattern: &mut Option<Pattern>,
    fields: &FieldMap,
) -> Result<bool, AllocError>
    requires { pattern.old ≡ pattern_of rule.now.test }
    ensures value { IfOk result (λ yes. yes ≡ rule_holds rule.now fields.now) }
    ensures same { pattern.new ≡ pattern.old }
{
    match pattern {
        Some(pattern) => pattern_matches(rule, pattern, fields),
        None => Ok(plain_matches(rule, fields)),
    }
}
