// The place of a field in a map, and what may not be put there.
ghost use Rattle.std.specs.Prelude.{◌≡◌, ◌+◌, ◌<◌, ◌≤◌, ◌&&◌, nat_lt, length, slice_set, slice_index_or, codes, IfOk, OnOk, OnErr};
ghost use Rattle.std.specs.Str.{bytes_eq};
ghost use Rattle.gl_fields.specs.declared.field.Field.{Field};
ghost use Rattle.std.specs.List.{insert, remove, list_all};
ghost use Rattle.gl_fields.specs.Fields.{is_name_byte, is_field_name, is_text, field_size, counted_size, with_field, stays, IsValue, IsFieldMap};
ghost use Rattle.gl_fields.specs.Places.{IsPlaceOf, size_within, size_with};

use crate::limits::{MAX_FIELDS, MAX_NAME, MAX_SIZE};
use crate::{Field, FieldRefusal, Value, field};
use gl_base::Text;
use std::alloc::AllocError;

// How many free slots a full map grows by: few, since maps are kept in memory for long.
const SPARE_SLOTS: usize = 4;

/// The index of the field of this name, or else where it would stand.
pub fn position_of(fields: &[Field], name: &str) -> Result<usize, usize>
    requires { IsFieldMap fields.now }
    ensures { IsPlaceOf name.now fields.now result }
{
    fields.binary_search_by(|field| field.name.as_str().cmp(&name))
}

fn is_name_byte(b: u8) -> bool
    ensures { result ≡ is_name_byte b }
{
    b.is_ascii_alphanumeric() | (b == b'_') | (b == b'.') | (b == b'-')
}

/// Whether all bytes may stand in a name. Each is tested, so that no test waits for another.
fn has_name_bytes(name: &[u8]) -> bool
    ensures { result ≡ list_all is_name_byte name.now }
{
    let mut all = true;
    let mut rest = name;
    while let [byte, behind @ ..] = rest {
        all &= is_name_byte(*byte);
        rest = behind;
    }
    all
}

/// Whether a field may have this name: 1 to 255 letters, digits, `_`, `.` and `-`, and not `_id`.
pub fn is_field_name(name: &str) -> bool
    ensures { result ≡ is_field_name name.now }
{
    !name.is_empty() && name.len() <= MAX_NAME && has_name_bytes(name.as_bytes()) && name != "_id"
}

pub fn is_reserved(name: &str, value: &Value) -> bool
    ensures { result ≡ (bytes_eq name.now (codes "timestamp") && is_text value.now) }
{
    name == "timestamp" && value.is_text()
}

/// Whether the field of this name is never taken away.
pub fn stays(name: &str) -> bool
    ensures { result ≡ stays name.now }
{
    name == "message" || name == "source" || name == "timestamp"
}

/// Whether the map with a field at this place would have too many.
fn is_too_many(fields: &[Field], place: Result<usize, usize>, name: &str) -> bool
    requires { IsPlaceOf name.now fields.now place }
    ensures { (field : Field) → field.name ≡ name.now → result ≡ nat_lt 256 (length (with_field field fields.now)) }
{
    match place {
        Ok(_) => fields.len() > MAX_FIELDS,
        Err(_) => fields.len() >= MAX_FIELDS,
    }
}

/// How many bytes count of the fields beside the one at this place, of fields that count `size`.
fn size_beside(fields: &[Field], size: usize, place: Result<usize, usize>, name: &str) -> usize
    requires place { IsPlaceOf name.now fields.now place }
    requires size { size ≡ counted_size fields.now }
    requires short { size ≤ 2097152 }
    ensures size { (field : Field) → field.name ≡ name.now → counted_size (with_field field fields.now) ≡ result + field_size field }
    ensures short { result ≤ 2097152 }
{
    match place {
        Ok(at) => size - field::field_size(&fields[at]),
        Err(_) => size,
    }
}

/// How many bytes count of the fields with this one, where they aren't too many.
fn size_within(
    fields: &[Field],
    size: usize,
    place: Result<usize, usize>,
    name: &str,
    value: &Value,
) -> Option<usize>
    requires place { IsPlaceOf name.now fields.now place }
    requires size { size ≡ counted_size fields.now }
    requires short { size ≤ 2097152 }
    requires name { length name.now < 256 }
    ensures size { result ≡ size_within (counted_size (with_field (record { name = name.now; value = value.now }) fields.now)) }
    ensures lawful { IsValue value.now }
{
    let text = value.text_len();
    if text > MAX_SIZE {
        return None;
    }
    let sum = size_beside(fields, size, place, name) + name.len() + text;
    if sum > MAX_SIZE {
        return None;
    }
    Some(sum)
}

/// How many bytes count of the fields with this one, whose name has this place, or why it isn't put in. The fields
/// count `size`.
pub fn size_with(
    fields: &[Field],
    size: usize,
    place: Result<usize, usize>,
    name: &str,
    value: &Value,
) -> Result<usize, FieldRefusal>
    requires place { IsPlaceOf name.now fields.now place }
    requires size { size ≡ counted_size fields.now }
    requires short { size ≤ 2097152 }
    ensures answer { result ≡ size_with (record { name = name.now; value = value.now }) fields.now }
    ensures lawful { IfOk result (λ _. IsValue value.now) }
{
    if !is_field_name(name) {
        return Err(FieldRefusal::BadFieldName);
    }
    if is_reserved(name, value) {
        return Err(FieldRefusal::Reserved);
    }
    if is_too_many(fields, place, name) {
        return Err(FieldRefusal::TooManyFields);
    }
    match size_within(fields, size, place, name, value) {
        Some(size) => Ok(size),
        None => Err(FieldRefusal::TooLarge),
    }
}

/// Puts a field in at the place of its name, or in the place of the field that is there.
pub fn put(
    fields: &mut Vec<Field>,
    place: Result<usize, usize>,
    name: &str,
    value: Value,
) -> Result<(), AllocError>
    requires { IsPlaceOf name.now fields.old.items place }
    ensures ok { OnOk result (fields.new.items ≡ with_field (record { name = name.now; value = value }) fields.old.items) }
    ensures err { OnErr result (fields.new.items ≡ fields.old.items) }
{
    match place {
        Ok(at) => {
            replace_at(fields, at, value);
            Ok(())
        }
        Err(at) => insert_at(fields, at, name, value),
    }
}

fn replace_at(fields: &mut Vec<Field>, at: usize, value: Value)
    requires { at < length fields.old.items }
    ensures { (d : Field) → fields.new.items ≡ slice_set fields.old.items at (record { name = (slice_index_or fields.old.items at d).name; value = value }) }
{
    fields[at].value = value;
}

fn insert_at(fields: &mut Vec<Field>, at: usize, name: &str, value: Value) -> Result<(), AllocError>
    requires { at ≤ length fields.old.items }
    ensures ok { OnOk result (fields.new.items ≡ insert fields.old.items at (record { name = name.now; value = value })) }
    ensures err { OnErr result (fields.new.items ≡ fields.old.items) }
{
    let name = Text::from_str(*fields.allocator(), name)?;
    if fields.len() == fields.capacity() {
        fields.reserve_exact(SPARE_SLOTS)?;
    }
    fields.insert(at, Field { name, value })?;
    Ok(())
}

/// Takes the field at this place away, and tells how many bytes the others count. With it they count `size`.
pub fn remove_at(fields: &mut Vec<Field>, size: usize, at: usize) -> usize
    requires place { at < length fields.old.items }
    requires size { size ≡ counted_size fields.old.items }
    requires short { size ≤ 2097152 }
    ensures items { fields.new.items ≡ remove fields.old.items at }
    ensures size { result ≡ counted_size fields.new.items }
{
    let field = fields.remove(at);
    size - field::field_size(&field)
}
