ghost use Rattle.std.specs.Prelude.{◌≡◌, ◌≤◌, IfOk};
ghost use Rattle.gl_fields.specs.declared.field.FieldRefusal.TheVariants.{OutOfMemory};
ghost use Rattle.gl_fields.specs.Fields.{field_size};

use crate::Value;
use gl_base::Text;
use std::alloc::AllocError;

/// A field of a message.
#[derive(Drop)]
pub struct Field {
    pub name: Text,
    pub value: Value,
}

/// Why a field isn't set.
#[derive(Clone, Copy, Debug, PartialEq, Eq)]
pub enum FieldRefusal {
    /// The name isn't 1 to 255 letters, digits, `_`, `.` and `-`, or it is `_id`.
    BadFieldName,
    /// It would be the 257th field.
    TooManyFields,
    /// Names and texts would count more than 2,097,152 bytes.
    TooLarge,
    /// `timestamp` can't be a text.
    Reserved,
    OutOfMemory,
}

impl From<AllocError> for FieldRefusal {
    ghost from_gives = { λ _ e. e ≡ OutOfMemory };

    fn from(_: AllocError) -> Self {
        FieldRefusal::OutOfMemory
    }
}

impl Field {
    /// An equal field.
    pub fn copy(&self) -> Result<Field, AllocError>
        ensures { IfOk result (λ f. f ≡ self.now) }
    {
        Ok(Field {
            name: self.name.copy()?,
            value: self.value.copy()?,
        })
    }
}

/// How many bytes count of a field.
pub fn field_size(field: &Field) -> usize
    requires { field_size field.now ≤ 2097152 }
    ensures { result ≡ field_size field.now }
{
    field.name.len() + field.value.text_len()
}
