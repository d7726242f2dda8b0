// Fields that are set one after the other, where a refused one is left out.
ghost use Rattle.std.specs.Prelude.{◌≡◌, not, is_some, map, IfOk, OnOk, OnErr};
ghost use Rattle.gl_fields.specs.Fields.{refusal_of};
ghost use Rattle.gl_extract.specs.Extraction.{set_or_left, set_all, AreBegun};
ghost use Rattle.gl_extract.specs.Objects.{object_fields};
ghost use Rattle.gl_extract.specs.Views.{field_of_pair};

use gl_fields::{FieldMap, FieldRefusal, Value};
use gl_json::{
    JsonRefusal, flatten, law_nested_objects_are_read, law_objects_are_read, law_strings_say,
};
use std::alloc::{AllocError, Global};

/// Sets a field where the map takes it, and says whether it did.
#[tactic(auto, unfolding(crate::specs::Extraction::set_or_left))]
pub fn set_or_leave(fields: &mut FieldMap, name: &str, value: Value) -> Result<bool, AllocError>
    ensures set { IfOk result (λ yes. yes ≡ not (is_some (refusal_of (record { name = name.now; value = value }) fields.old))) }
    ensures fields { OnOk result (fields.new ≡ set_or_left (record { name = name.now; value = value }) fields.old) }
    ensures err { OnErr result (fields.new ≡ fields.old) }
{
    match fields.set(name, value) {
        Ok(()) => Ok(true),
        Err(FieldRefusal::OutOfMemory) => Err(AllocError),
        Err(FieldRefusal::BadFieldName) => Ok(false),
        Err(FieldRefusal::TooManyFields) => Ok(false),
        Err(FieldRefusal::TooLarge) => Ok(false),
        Err(FieldRefusal::Reserved) => Ok(false),
    }
}

/// Sets the fields of the JSON object that a text is, where it is one.
pub fn set_object(alloc: Global, text: &str, fields: &mut FieldMap) -> Result<(), AllocError>
    ensures fields { OnOk result (fields.new ≡ set_all (object_fields text.now) fields.old) }
    ensures err { OnErr result (AreBegun (object_fields text.now) fields.old fields.new) }
{
    for (name, value) in object_fields(alloc, text)? {
        set_or_leave(fields, name.as_str(), value)?;
    }
    Ok(())
}

/// The fields of the JSON object that a text is; none where it isn't one.
fn object_fields(alloc: Global, text: &str) -> Result<Vec<(String, Value)>, AllocError>
    ensures { IfOk result (λ v. map field_of_pair v.items ≡ object_fields text.now) }
{
    law_objects_are_read();
    law_nested_objects_are_read();
    law_strings_say();
    match flatten(alloc, text.as_bytes()) {
        Ok(pairs) => Ok(pairs),
        Err(JsonRefusal::OutOfMemory) => Err(AllocError),
        Err(JsonRefusal::NotJson { .. }) => Ok(Vec::new(alloc)),
        Err(JsonRefusal::TooDeep) => Ok(Vec::new(alloc)),
    }
}
