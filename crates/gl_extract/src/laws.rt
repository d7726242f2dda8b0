// What the fields of a text's object are, by the grammar of JSON.
ghost use Rattle.std.specs.Prelude.{◌≡◌, ℕ, List, [], map};
ghost use Rattle.gl_fields.specs.declared.value.Value.{Value};
ghost use Rattle.gl_json.specs.Flattening.{AreFlat};
ghost use Rattle.gl_json.specs.Grammar.{Pair, IsObjectText};
ghost use Rattle.gl_extract.specs.Objects.{object_fields};
ghost use Rattle.gl_extract.specs.Views.{field_of};

use gl_json::{law_nested_objects_are_read, law_objects_are_read, law_strings_say};

/// The fields that the definition gives a text are those of the members of the object that the text is, by the
/// grammar of JSON and in their order, and there are none where it is no object.
pub fn law_object_fields()
    ensures object { (text : List ℕ) (ms : List Pair) (fields : List (List ℕ × Value)) → IsObjectText text ms → AreFlat 63 [] ms fields → object_fields text ≡ map field_of fields }
    ensures none { (text : List ℕ) → ((ms : List Pair) → IsObjectText text ms → ⊥) → object_fields text ≡ [] }
{
    law_objects_are_read();
    law_nested_objects_are_read();
    law_strings_say();
}
