// What expressions may speak of.
ghost use Rattle.std.specs.Prelude.{◌≡◌, map};
ghost use Rattle.gl_eval.specs.Meaning.{variable_in};
ghost use Rattle.gl_eval.specs.Scopes.{named_value};

use gl_fields::FieldMap;
use gl_functions::{Value, World};

/// A name that a `let` gave to a value.
#[derive(Drop)]
pub struct Variable<'v> {
    pub name: &'v str,
    pub value: Value<'v>,
}

/// What an expression may speak of, lent.
#[derive(Clone, Copy)]
pub struct Scope<'a> {
    pub world: &'a World<'a>,
    pub fields: &'a FieldMap,
    pub streams: &'a [u64],
    /// The last one first.
    pub variables: &'a [Variable<'a>],
}

/// What a name stands for: the value that it was given last, or missing where it was given none.
pub fn variable_in<'v>(name: &str, variables: &'v [Variable<'_>]) -> Value<'v>
    ensures { result ≡ variable_in name.now (map named_value variables.now) }
{
    let mut rest = variables;
    while let [variable, behind @ ..] = rest {
        if name == variable.name {
            return variable.value.lend();
        }
        rest = behind;
    }
    Value::missing()
}
