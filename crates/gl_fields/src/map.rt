ghost use Rattle.std.specs.Prelude.{◌≡◌, ◌==◌, [], true, length, IfOk, OnOk, OnErr, IfErr, MatchOption, MatchResult, option_copied};
ghost use Rattle.gl_fields.specs.declared.field.FieldRefusal.TheVariants.{OutOfMemory};
ghost use Rattle.gl_fields.specs.Fields.{value_of, with_field, refusal_of, without, removal, renamed, settled, counted_size, IsFieldMap};

use crate::place::{position_of, put, remove_at, size_with, stays};
use crate::rename::rename_at;
use crate::{Field, FieldRefusal, Value};
use std::alloc::{AllocError, Global};
use std::marker::Model;

/// The fields of a message, in rising order of their names' bytes.
#[derive(Drop)]
pub struct FieldMap {
    fields: Vec<Field>,
    /// How many bytes count of them.
    size: usize,
}

impl Model for FieldMap {
    ghost use Rattle.std.specs.Prelude.{◌≡◌, List};
    ghost use Rattle.gl_fields.specs.declared.field.Field.{Field};

    ghost Value = { List Field };

    ghost view = { λ m. m.fields.items };

    ghost use Rattle.gl_fields.specs.Fields.{IsFieldMap, counted_size};

    ghost invariant = { λ m. IsFieldMap m.fields.items × (m.size ≡ counted_size m.fields.items) };
}

impl FieldMap {
    /// An empty map, which takes no memory.
    pub fn new(alloc: Global) -> FieldMap
        ensures { result ≡ [] }
    {
        FieldMap {
            fields: Vec::new(alloc),
            size: 0,
        }
    }

    /// An empty map with room for this many fields. No clause tells of the room.
    pub fn with_capacity(alloc: Global, capacity: usize) -> Result<FieldMap, AllocError>
        ensures { IfOk result (λ m. m ≡ []) }
    {
        let fields = Vec::with_capacity(alloc, capacity)?;
        Ok(FieldMap { fields, size: 0 })
    }

    /// The map of these fields, which count `size` bytes.
    pub(crate) fn from_fields(fields: Vec<Field>, size: usize) -> FieldMap
        requires map { IsFieldMap fields.items }
        requires size { size ≡ counted_size fields.items }
        ensures { result ≡ fields.items }
    {
        FieldMap { fields, size }
    }

    /// How many fields there are, at most 256.
    pub fn len(&self) -> usize
        ensures len { result ≡ length self.now }
        ensures lawful { IsFieldMap self.now }
    {
        self.fields.len()
    }

    pub fn is_empty(&self) -> bool
        ensures { result ≡ (length self.now == 0) }
    {
        self.fields.is_empty()
    }

    /// The fields, in rising order of their names' bytes.
    pub fn as_slice(&self) -> &[Field]
        ensures { result.now ≡ self.now }
    {
        self.fields.as_slice()
    }

    /// What the field of this name holds.
    pub fn get(&self, name: &str) -> Option<&Value>
        ensures { option_copied result ≡ value_of name.now self.now }
    {
        match position_of(self.fields.as_slice(), name) {
            Ok(at) => Some(&self.fields[at].value),
            Err(_) => None,
        }
    }

    /// Puts a field in, or in the place of the field of its name. A refusal changes nothing.
    ///
    /// The first cause that holds is told, in this order: BadFieldName, Reserved, TooManyFields,
    /// TooLarge. OutOfMemory comes only where none of them holds.
    pub fn set(&mut self, name: &str, value: Value) -> Result<(), FieldRefusal>
        ensures ok { OnOk result (self.new ≡ with_field (record { name = name.now; value = value }) self.old) }
        ensures err { OnErr result (self.new ≡ self.old) }
        ensures cause { MatchOption (refusal_of (record { name = name.now; value = value }) self.old) (IfErr result (λ e. e ≡ OutOfMemory)) (λ r. result ≡ Err r) }
    {
        let place = position_of(self.fields.as_slice(), name);
        let size = size_with(self.fields.as_slice(), self.size, place, name, &value)?;
        put(&mut self.fields, place, name, value)?;
        self.size = size;
        Ok(())
    }

    /// Takes the field of this name away, and says whether it was there. A refusal changes nothing.
    ///
    /// Reserved comes exactly where the field is there and is `message`, `source` or `timestamp`. It takes
    /// no memory.
    pub fn remove(&mut self, name: &str) -> Result<bool, FieldRefusal>
        ensures ok { OnOk result (self.new ≡ without name.now self.old) }
        ensures err { OnErr result (self.new ≡ self.old) }
        ensures answer { result ≡ removal name.now self.old }
    {
        match position_of(self.fields.as_slice(), name) {
            Ok(at) => {
                if stays(name) {
                    return Err(FieldRefusal::Reserved);
                }
                let size = remove_at(&mut self.fields, self.size, at);
                self.size = size;
                Ok(true)
            }
            Err(_) => Ok(false),
        }
    }

    /// Gives a field another name, in the place of the field of that name, and says whether it was there.
    /// A refusal changes nothing.
    ///
    /// A field that isn't there answers false, and one that has the new name already answers true; neither
    /// is refused. Else Reserved comes where the field is `message`, `source` or `timestamp`, and then what
    /// `set` refuses of the new name in the map without the old one. OutOfMemory comes only where none of
    /// them does.
    pub fn rename(&mut self, from: &str, to: &str) -> Result<bool, FieldRefusal>
        ensures ok { OnOk result (self.new ≡ renamed from.now to.now self.old) }
        ensures err { OnErr result (self.new ≡ self.old) }
        ensures answer { MatchOption (settled from.now to.now self.old) (MatchResult result (λ there. there ≡ true) (λ e. e ≡ OutOfMemory)) (λ answer. result ≡ answer) }
    {
        match position_of(self.fields.as_slice(), from) {
            Ok(at) => {
                if from == to {
                    return Ok(true);
                }
                if stays(from) {
                    return Err(FieldRefusal::Reserved);
                }
                let size = rename_at(&mut self.fields, self.size, at, from, to)?;
                self.size = size;
                Ok(true)
            }
            Err(_) => Ok(false),
        }
    }

    /// An equal map, with no room to spare.
    pub fn copy(&self) -> Result<FieldMap, AllocError>
        ensures { IfOk result (λ m. m ≡ self.now) }
    {
        let fields = copy_fields(*self.fields.allocator(), self.fields.as_slice())?;
        Ok(FieldMap {
            fields,
            size: self.size,
        })
    }
}

fn copy_fields(alloc: Global, fields: &[Field]) -> Result<Vec<Field>, AllocError>
    ensures { IfOk result (λ v. v.items ≡ fields.now) }
{
    let mut copies = Vec::with_capacity(alloc, fields.len())?;
    for field in fields {
        copies.push(field.copy()?)?;
    }
    Ok(copies)
}
