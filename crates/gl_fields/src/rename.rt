// A field gets another name.
ghost use Rattle.std.specs.Prelude.{◌≡◌, ◌<◌, ◌≤◌, length, Ok, Err, Some, IfOk, OnOk, OnErr, IfErr, MatchOption};
ghost use Rattle.std.specs.Vec.{vec_len, vec_capacity};
ghost use Rattle.std.specs.List.{insert};
ghost use Rattle.gl_fields.specs.declared.value.Value.{Value};
ghost use Rattle.gl_fields.specs.declared.field.FieldRefusal.TheVariants.{OutOfMemory};
ghost use Rattle.gl_fields.specs.Fields.{value_of, with_field, without, renamed, refusal_of, counted_size, IsFieldMap};
ghost use Rattle.gl_fields.specs.Places.{IsPlaceOf};

use crate::field::field_size;
use crate::place::{position_of, size_with};
use crate::{Field, FieldRefusal, Value};
use gl_base::Text;

/// Gives the field at this place another name, and takes the field of that name away. Tells how many bytes the fields
/// count then, which counted `size`. A refusal changes nothing.
pub fn rename_at(
    fields: &mut Vec<Field>,
    size: usize,
    at: usize,
    from: &str,
    to: &str,
) -> Result<usize, FieldRefusal>
    requires map { IsFieldMap fields.old.items }
    requires size { size ≡ counted_size fields.old.items }
    requires place { IsPlaceOf from.now fields.old.items (Ok at) }
    ensures ok { OnOk result (fields.new.items ≡ renamed from.now to.now fields.old.items) }
    ensures err { OnErr result (fields.new.items ≡ fields.old.items) }
    ensures map { IsFieldMap fields.new.items }
    ensures size { IfOk result (λ n. n ≡ counted_size fields.new.items) }
    ensures cause { (value : Value) → value_of from.now fields.old.items ≡ Some value → MatchOption (refusal_of (record { name = to.now; value = value }) (without from.now fields.old.items)) (IfErr result (λ e. e ≡ OutOfMemory)) (λ r. result ≡ Err r) }
{
    let field = fields.remove(at);
    let rest = size - field_size(&field);
    let place = position_of(fields.as_slice(), to);
    match name_for(fields, rest, place, to, &field.value) {
        Ok((name, size)) => {
            let value = field.value;
            put_within(fields, place, Field { name, value });
            Ok(size)
        }
        Err(cause) => {
            insert_within(fields, at, field);
            Err(cause)
        }
    }
}

/// The name of a field that holds this, and how many bytes the fields count with it, where nothing refuses the field.
fn name_for(
    fields: &Vec<Field>,
    size: usize,
    place: Result<usize, usize>,
    name: &str,
    value: &Value,
) -> Result<(Text, usize), FieldRefusal>
    requires place { IsPlaceOf name.now fields.now.items place }
    requires size { size ≡ counted_size fields.now.items }
    requires short { size ≤ 2097152 }
    ensures name { IfOk result (λ x. x.0 ≡ name.now) }
    ensures size { IfOk result (λ x. x.1 ≡ counted_size (with_field (record { name = name.now; value = value.now }) fields.now.items)) }
    ensures cause { MatchOption (refusal_of (record { name = name.now; value = value.now }) fields.now.items) (IfErr result (λ e. e ≡ OutOfMemory)) (λ r. result ≡ Err r) }
{
    let size = size_with(fields.as_slice(), size, place, name, value)?;
    let name = Text::from_str(*fields.allocator(), name)?;
    Ok((name, size))
}

/// Puts a field in at the place of its name, or in the place of the field that is there.
fn put_within(fields: &mut Vec<Field>, place: Result<usize, usize>, field: Field)
    requires place { IsPlaceOf field.name fields.old.items place }
    requires room { vec_len fields.old < vec_capacity fields.old }
    ensures { fields.new.items ≡ with_field field fields.old.items }
{
    match place {
        Ok(at) => fields[at] = field,
        Err(at) => insert_within(fields, at, field),
    }
}

fn insert_within(fields: &mut Vec<Field>, at: usize, field: Field)
    requires place { at ≤ length fields.old.items }
    requires room { vec_len fields.old < vec_capacity fields.old }
    ensures { fields.new.items ≡ insert fields.old.items at field }
{
    // There is room, so that it can't fail.
    let _ = fields.insert(at, field);
}
