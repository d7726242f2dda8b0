// What a payload gives, by the grammar of JSON alone.
ghost use Rattle.std.specs.Prelude.{◌≡◌, ℕ, List, map, false};
ghost use Rattle.gl_json.specs.Grammar.{Pair, IsObjectText};
ghost use Rattle.gl_gelf.specs.Members.{with_said_name};
ghost use Rattle.gl_gelf.specs.Decoding.{is_compressed, fields_of, gelf_fields, IsRefused};

use gl_json::law_objects_are_read;

/// The fields of a payload are those of the members that RFC 8259 gives it, each under the name that it says; and where
/// the grammar gives it none, it is refused for its form or its depth.
pub fn law_gelf_fields()
    ensures object { (moment : ℕ) (peer bytes : List ℕ) (members : List Pair) → IsObjectText bytes members → is_compressed bytes ≡ false
        → gelf_fields moment peer bytes ≡ fields_of moment peer (map with_said_name members) }
    ensures other { (moment : ℕ) (peer bytes : List ℕ) → ((members : List Pair) → IsObjectText bytes members → ⊥) → is_compressed bytes ≡ false
        → IsRefused (gelf_fields moment peer bytes) }
{
    law_objects_are_read();
}
