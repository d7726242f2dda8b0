// The values that expressions compute.
ghost use Rattle.std.specs.Prelude.{◌≡◌, IfOk, IfSome, option_copied, string_bytes};
ghost use Rattle.gl_check.specs.Functions.{preset_value};
ghost use Rattle.gl_check.specs.Values.{bounded, is_missing, is_text, is_true, is_whole, text, whole, truth, missing};
ghost use Rattle.gl_functions.specs.Contents.{text_in, whole_in, held_or_missing, to_hold};

use crate::content;
use crate::content::Content;
use gl_check::Preset;
use std::alloc::{AllocError, Global};
use std::borrow::CowStr;
use std::marker::Model;

/// The most bytes of a text that an expression computes.
pub const MAX_TEXT: usize = 1_048_576;

/// What an expression computes: a text of at most `MAX_TEXT` bytes, a whole number, a truth value, or nothing, which is called
/// missing. A text is borrowed where it stands in a rule, a field or a lookup table. Contracts see the value of the definitions.
#[derive(Drop)]
pub struct Value<'a> {
    pub(crate) content: Content<'a>,
}

impl<'a> Model for Value<'a> {
    ghost use Rattle.gl_check.specs.Values.{Value as Computed};
    ghost use Rattle.gl_functions.specs.Contents.{value_in};

    ghost Value = { Computed };

    ghost view = { λ v. value_in v.content };

    ghost use Rattle.std.specs.Prelude.{◌≡◌, true};
    ghost use Rattle.gl_check.specs.Values.{is_within};

    ghost invariant = { λ v. is_within (value_in v.content) ≡ true };
}

impl<'a> Value<'a> {
    /// A borrowed text; missing where it has more than `MAX_TEXT` bytes.
    pub fn of_text(borrowed: &'a str) -> Value<'a>
        ensures { result ≡ bounded (text borrowed.now) }
    {
        if borrowed.len() > MAX_TEXT {
            return Value::missing();
        }
        Value {
            content: Content::Text(CowStr::Borrowed(borrowed)),
        }
    }

    /// A text of its own; missing where it has more than `MAX_TEXT` bytes.
    pub fn of_owned(owned: String) -> Value<'a>
        ensures { result ≡ bounded (text (string_bytes owned)) }
    {
        if owned.len() > MAX_TEXT {
            return Value::missing();
        }
        Value {
            content: Content::Text(CowStr::Owned(owned)),
        }
    }

    /// A copy of a text; missing where it has more than `MAX_TEXT` bytes.
    pub fn copied(alloc: Global, copied: &str) -> Result<Value<'a>, AllocError>
        ensures { IfOk result (λ v. v ≡ bounded (text copied.now)) }
    {
        match String::from_str(alloc, copied) {
            Ok(owned) => Ok(Value::of_owned(owned)),
            Err(error) => Err(error),
        }
    }

    pub fn of_whole(number: i64) -> Value<'a>
        ensures value { result ≡ whole number }
        ensures within { bounded (whole number) ≡ whole number }
    {
        Value {
            content: Content::Whole(number),
        }
    }

    pub fn of_truth(holds: bool) -> Value<'a>
        ensures { result ≡ truth holds }
    {
        Value {
            content: Content::Truth(holds),
        }
    }

    pub fn missing() -> Value<'a>
        ensures { result ≡ missing }
    {
        Value {
            content: Content::Missing,
        }
    }

    /// What a field holds, borrowed; missing where there is none, or where its text has more than `MAX_TEXT` bytes.
    pub fn of_field(held: Option<&'a gl_fields::Value>) -> Value<'a>
        ensures { result ≡ bounded (held_or_missing (option_copied held.entry)) }
    {
        match held {
            Some(gl_fields::Value::Text(text)) => Value::of_text(text.as_str()),
            Some(gl_fields::Value::Whole(number)) => Value::of_whole(*number),
            None => Value::missing(),
        }
    }

    /// What stands for an argument that isn't given.
    pub fn of_preset(preset: Preset) -> Value<'a>
        ensures { result ≡ preset_value preset }
    {
        match preset {
            Preset::Empty => Value::of_text(""),
            Preset::Number(number) => Value::of_whole(number),
            Preset::No => Value::of_truth(false),
        }
    }

    pub fn is_missing(&self) -> bool
        ensures { result ≡ is_missing self.now }
    {
        content::is_missing(&self.content)
    }

    pub fn is_text(&self) -> bool
        ensures { result ≡ is_text self.now }
    {
        content::is_text(&self.content)
    }

    pub fn is_whole(&self) -> bool
        ensures { result ≡ is_whole self.now }
    {
        content::is_whole(&self.content)
    }

    /// Whether it is the truth value true.
    pub fn is_true(&self) -> bool
        ensures { result ≡ is_true self.now }
    {
        content::is_true(&self.content)
    }

    /// The text that it is; empty for each other value.
    pub fn as_text(&self) -> &str
        ensures { result.now ≡ text_in self.now }
    {
        content::text_of(&self.content)
    }

    /// The text that it is, where that is borrowed.
    pub fn borrowed_text(&self) -> Option<&'a str>
        ensures { IfSome result (λ text. text.now ≡ text_in self.now) }
    {
        content::borrowed_text(&self.content)
    }

    /// The whole number that it is.
    pub fn as_whole(&self) -> Option<i64>
        ensures { result ≡ whole_in self.now }
    {
        content::whole_of(&self.content)
    }

    /// The same value, which borrows from this one. It takes no memory.
    pub fn lend(&self) -> Value<'_>
        ensures { result ≡ self.now }
    {
        Value {
            content: content::lent_of(&self.content),
        }
    }

    /// The same value: a text that is borrowed is borrowed once more, and one of its own is copied.
    pub fn copy(&self, alloc: Global) -> Result<Value<'a>, AllocError>
        ensures value { IfOk result (λ v. v ≡ self.now) }
        ensures within { bounded self.now ≡ self.now }
    {
        match content::copy_of(alloc, &self.content) {
            Ok(content) => Ok(Value { content }),
            Err(error) => Err(error),
        }
    }

    /// The same value, which borrows from nothing: a text that is borrowed is copied.
    pub fn into_owned<'b>(self, alloc: Global) -> Result<Value<'b>, AllocError>
        ensures { IfOk result (λ v. v ≡ self.entry) }
    {
        match content::owned_of(alloc, self.content) {
            Ok(content) => Ok(Value { content }),
            Err(error) => Err(error),
        }
    }

    /// What a field is to hold: a truth value becomes its text, and a missing value nothing.
    pub fn to_hold(&self, alloc: Global) -> Result<Option<gl_fields::Value>, AllocError>
        ensures { IfOk result (λ held. held ≡ to_hold self.now) }
    {
        content::to_hold(alloc, &self.content)
    }
}
