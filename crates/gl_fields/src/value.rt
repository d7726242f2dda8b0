ghost use Rattle.std.specs.Prelude.{◌≡◌, length, IfOk};
ghost use Rattle.gl_fields.specs.Fields.{value_text, is_text, IsValue};

use crate::size::signed_decimal_len;
use gl_base::Text;
use std::alloc::{AllocError, Global};

/// What a field holds.
#[derive(Drop)]
pub enum Value {
    Text(Text),
    Whole(i64),
}

impl Value {
    pub fn is_text(&self) -> bool
        ensures { result ≡ is_text self.now }
    {
        match self {
            Value::Text(_) => true,
            Value::Whole(_) => false,
        }
    }

    /// How many bytes its text has: a whole number's is its decimal, with `-` where negative.
    pub fn text_len(&self) -> usize
        ensures len { result ≡ length (value_text self.now) }
        ensures lawful { IsValue self.now }
    {
        match self {
            Value::Text(text) => text.as_str().len(),
            Value::Whole(number) => signed_decimal_len(*number),
        }
    }

    /// Its text: a whole number's is its decimal, with `-` where negative.
    pub fn to_text(&self, alloc: Global) -> Result<Text, AllocError>
        ensures { IfOk result (λ t. t ≡ value_text self.now) }
    {
        match self {
            Value::Text(text) => text.copy(),
            Value::Whole(number) => Ok(Text::from_string(format!(in alloc; "{number}")?)),
        }
    }

    /// An equal value.
    pub fn copy(&self) -> Result<Value, AllocError>
        ensures { IfOk result (λ v. v ≡ self.now) }
    {
        match self {
            Value::Text(text) => Ok(Value::Text(text.copy()?)),
            Value::Whole(number) => Ok(Value::Whole(*number)),
        }
    }
}
