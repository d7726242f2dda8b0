// Functions that cut a part out of a text.
ghost use Rattle.std.specs.Prelude.{◌≡◌, IfOk, IfSome, slice_range};
ghost use Rattle.gl_check.specs.Values.{bounded, text};
ghost use Rattle.gl_text.specs.Changing.{trimmed};
ghost use Rattle.gl_text.specs.Texts.{piece, characters};
ghost use Rattle.gl_functions.specs.Calls.{text_at, number_at, part_of, from_zero_on, IsCut};

use crate::arguments::{borrowed_at, natural_at, text_at};
use crate::value::Value;
use std::alloc::{AllocError, Global};

/// The text without the spaces at both ends.
pub fn trim<'a>(alloc: Global, arguments: &[Value<'a>]) -> Result<Value<'a>, AllocError>
    ensures { IfOk result (λ v. v ≡ bounded (text (trimmed (text_at 0 arguments.now)))) }
{
    match borrowed_at(arguments, 0) {
        Some(text) => Ok(Value::of_text(gl_text::trimmed(text))),
        None => Value::copied(alloc, gl_text::trimmed(text_at(arguments, 0))),
    }
}

/// The bytes in a span of an argument's text.
pub fn part_at<'a>(
    alloc: Global,
    arguments: &[Value<'a>],
    at: usize,
    span: Option<(usize, usize)>,
) -> Result<Value<'a>, AllocError>
    requires { IfSome span (IsCut (text_at at arguments.now)) }
    ensures { IfOk result (λ v. v ≡ bounded (part_of (text_at at arguments.now) span)) }
{
    match span {
        Some((from, to)) => cut_at(alloc, arguments, at, from, to),
        None => Ok(Value::missing()),
    }
}

fn cut_at<'a>(
    alloc: Global,
    arguments: &[Value<'a>],
    at: usize,
    from: usize,
    to: usize,
) -> Result<Value<'a>, AllocError>
    requires { IsCut (text_at at arguments.now) (from, to) }
    ensures { IfOk result (λ v. v ≡ bounded (text (slice_range (text_at at arguments.now) from to))) }
{
    match borrowed_at(arguments, at) {
        Some(text) => Ok(Value::of_text(&text[from..to])),
        None => Value::copied(alloc, &text_at(arguments, at)[from..to]),
    }
}

/// The characters from one number to before another, from 0.
pub fn substring<'a>(alloc: Global, arguments: &[Value<'a>]) -> Result<Value<'a>, AllocError>
    ensures { IfOk result (λ v. v ≡ bounded (from_zero_on (λ begin. from_zero_on (λ end. part_of (text_at 0 arguments.now) (characters begin end (text_at 0 arguments.now))) (number_at 2 arguments.now)) (number_at 1 arguments.now))) }
{
    let Some(begin) = natural_at(arguments, 1) else {
        return Ok(Value::missing());
    };
    let Some(end) = natural_at(arguments, 2) else {
        return Ok(Value::missing());
    };
    let span = gl_text::characters(text_at(arguments, 0), begin, end);
    part_at(alloc, arguments, 0, span)
}

/// One of the pieces between separators, from 1.
pub fn split_item<'a>(alloc: Global, arguments: &[Value<'a>]) -> Result<Value<'a>, AllocError>
    ensures { IfOk result (λ v. v ≡ bounded (from_zero_on (λ index. part_of (text_at 0 arguments.now) (piece (text_at 1 arguments.now) index (text_at 0 arguments.now))) (number_at 2 arguments.now))) }
{
    let Some(index) = natural_at(arguments, 2) else {
        return Ok(Value::missing());
    };
    let span = gl_text::piece(text_at(arguments, 0), text_at(arguments, 1), index);
    part_at(alloc, arguments, 0, span)
}
