// What a value is made of.
ghost use Rattle.std.specs.Prelude.{◌≡◌, IfOk, IfSome};
ghost use Rattle.gl_check.specs.Values.{is_equal, is_missing, is_text, is_true, is_whole, truth_text, text, whole, truth};
ghost use Rattle.gl_fields.specs.declared.value.Value.TheVariants.{Text as HeldText};
ghost use Rattle.gl_functions.specs.Contents.{value_in, text_in, whole_in, to_hold};

use gl_base::Text;
use std::alloc::{AllocError, Global};
use std::borrow::CowStr;

#[derive(Drop)]
pub enum Content<'a> {
    Text(CowStr<'a, Global>),
    Whole(i64),
    Truth(bool),
    Missing,
}

pub fn is_missing(content: &Content<'_>) -> bool
    ensures { result ≡ is_missing (value_in content.now) }
{
    matches!(content, Content::Missing)
}

pub fn is_text(content: &Content<'_>) -> bool
    ensures { result ≡ is_text (value_in content.now) }
{
    matches!(content, Content::Text(_))
}

pub fn is_whole(content: &Content<'_>) -> bool
    ensures { result ≡ is_whole (value_in content.now) }
{
    matches!(content, Content::Whole(_))
}

pub fn is_true(content: &Content<'_>) -> bool
    ensures { result ≡ is_true (value_in content.now) }
{
    match content {
        Content::Truth(truth) => *truth,
        _ => false,
    }
}

pub fn text_of<'c>(content: &'c Content<'_>) -> &'c str
    ensures { result.now ≡ text_in (value_in content.now) }
{
    match content {
        Content::Text(text) => text.as_str(),
        _ => "",
    }
}

pub fn borrowed_text<'a>(content: &Content<'a>) -> Option<&'a str>
    ensures { IfSome result (λ text. text.now ≡ text_in (value_in content.now)) }
{
    match content {
        Content::Text(CowStr::Borrowed(text)) => Some(*text),
        _ => None,
    }
}

pub fn whole_of(content: &Content<'_>) -> Option<i64>
    ensures { result ≡ whole_in (value_in content.now) }
{
    match content {
        Content::Whole(number) => Some(*number),
        _ => None,
    }
}

pub fn truth_text(truth: bool) -> &'static str
    ensures { result.now ≡ truth_text truth }
{
    if truth { "true" } else { "false" }
}

/// Whether both are there, of one type and equal.
pub fn are_equal(left: &Content<'_>, right: &Content<'_>) -> bool
    ensures { result ≡ is_equal (value_in left.now) (value_in right.now) }
{
    match left {
        Content::Text(text) => is_this_text(right, text.as_str()),
        Content::Whole(number) => is_this_number(right, *number),
        Content::Truth(truth) => is_this_truth(right, *truth),
        Content::Missing => false,
    }
}

fn is_this_text(content: &Content<'_>, this: &str) -> bool
    ensures { result ≡ is_equal (text this.now) (value_in content.now) }
{
    match content {
        Content::Text(text) => this == text.as_str(),
        Content::Whole(_) => false,
        Content::Truth(_) => false,
        Content::Missing => false,
    }
}

fn is_this_number(content: &Content<'_>, this: i64) -> bool
    ensures { result ≡ is_equal (whole this) (value_in content.now) }
{
    match content {
        Content::Text(_) => false,
        Content::Whole(number) => this <= *number && *number <= this,
        Content::Truth(_) => false,
        Content::Missing => false,
    }
}

fn is_this_truth(content: &Content<'_>, this: bool) -> bool
    ensures { result ≡ is_equal (truth this) (value_in content.now) }
{
    match content {
        Content::Text(_) => false,
        Content::Whole(_) => false,
        Content::Truth(truth) => this == *truth,
        Content::Missing => false,
    }
}

/// What a field is to hold of it.
pub fn to_hold(alloc: Global, content: &Content<'_>) -> Result<Option<gl_fields::Value>, AllocError>
    ensures { IfOk result (λ held. held ≡ to_hold (value_in content.now)) }
{
    match content {
        Content::Text(text) => Ok(Some(text_held(alloc, text.as_str())?)),
        Content::Whole(number) => Ok(Some(gl_fields::Value::Whole(*number))),
        Content::Truth(truth) => Ok(Some(text_held(alloc, truth_text(*truth))?)),
        Content::Missing => Ok(None),
    }
}

fn text_held(alloc: Global, text: &str) -> Result<gl_fields::Value, AllocError>
    ensures { IfOk result (λ held. held ≡ HeldText text.now) }
{
    Ok(gl_fields::Value::Text(Text::from_str(alloc, text)?))
}

/// The same with a text of its own where the text is owned, and else the same borrowed text.
pub fn copy_of<'a>(alloc: Global, content: &Content<'a>) -> Result<Content<'a>, AllocError>
    ensures { IfOk result (λ c. value_in c ≡ value_in content.now) }
{
    match content {
        Content::Text(CowStr::Borrowed(text)) => Ok(Content::Text(CowStr::Borrowed(*text))),
        Content::Text(CowStr::Owned(text)) => {
            Ok(Content::Text(CowStr::Owned(String::from_str(alloc, text.as_str())?)))
        }
        Content::Whole(number) => Ok(Content::Whole(*number)),
        Content::Truth(truth) => Ok(Content::Truth(*truth)),
        Content::Missing => Ok(Content::Missing),
    }
}

/// The same, with a text that borrows from nothing.
pub fn owned_of<'b>(alloc: Global, content: Content<'_>) -> Result<Content<'b>, AllocError>
    ensures { IfOk result (λ c. value_in c ≡ value_in content.entry) }
{
    match content {
        Content::Text(text) => Ok(Content::Text(CowStr::Owned(text.into_owned(alloc)?))),
        Content::Whole(number) => Ok(Content::Whole(number)),
        Content::Truth(truth) => Ok(Content::Truth(truth)),
        Content::Missing => Ok(Content::Missing),
    }
}

/// The same, lent.
pub fn lent_of<'c>(content: &'c Content<'_>) -> Content<'c>
    ensures { value_in result ≡ value_in content.now }
{
    match content {
        Content::Text(text) => Content::Text(CowStr::Borrowed(text.as_str())),
        Content::Whole(number) => Content::Whole(*number),
        Content::Truth(truth) => Content::Truth(*truth),
        Content::Missing => Content::Missing,
    }
}
