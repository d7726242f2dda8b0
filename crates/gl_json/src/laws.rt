// What the functions that read from left to right give is what the grammar has.
ghost use Rattle.std.specs.Prelude.{◌≡◌, ℕ, List, [], Ok};
ghost use Rattle.std.specs.Str.{IsUtf8};
ghost use Rattle.gl_base.specs.Bytes.{behind_first};
ghost use Rattle.gl_json.specs.Numbers.{IsNumber};
ghost use Rattle.gl_json.specs.Grammar.{Pair, IsObject, IsObjectIn, IsArrayIn, IsObjectText};
ghost use Rattle.gl_json.specs.JsonReading.{elements_at, member_at, value_at};
ghost use Rattle.gl_json.specs.Places.{object_of};
ghost use Rattle.gl_json.specs.Escapes.{Says, text_of};
ghost use Rattle.gl_json.specs.Flattening.{IsInside};

/// A text reads as an object exactly where the grammar has it, and with those members.
pub fn law_objects_are_read()
    ensures read { (text : List ℕ) (members : List Pair) → IsObjectText text members → object_of text ≡ Ok members }
    ensures is { (text : List ℕ) (members : List Pair) → object_of text ≡ Ok members → IsObjectText text members }
{}

/// An object that nests in a text is read behind its opening brace to its end.
pub fn law_nested_objects_are_read()
    ensures { (levels : ℕ) (text : List ℕ) (members : List Pair) → IsObject levels text members
        → elements_at (member_at (value_at levels)) 125 (behind_first text) ≡ Ok (members, []) }
{}

/// What stands between the quotes of a string reads as what its characters say, and nothing else does.
pub fn law_strings_say()
    ensures read { (raw said : List ℕ) → Says raw said → text_of raw ≡ Ok said }
    ensures is { (raw said : List ℕ) → text_of raw ≡ Ok said → Says raw said }
{}

/// What the grammar has is UTF-8: a whole text, what a name or a string has between its quotes, a number, and an object
/// or an array that nests in a text.
pub fn law_parts_are_utf8()
    ensures text { (text : List ℕ) (members : List Pair) → IsObjectText text members → IsUtf8 text }
    ensures inside { (raw : List ℕ) → IsInside raw → IsUtf8 raw }
    ensures number { (literal : List ℕ) → IsNumber literal → IsUtf8 literal }
    ensures object { (levels : ℕ) (text : List ℕ) → IsObjectIn levels text → IsUtf8 text }
    ensures array { (levels : ℕ) (text : List ℕ) → IsArrayIn levels text → IsUtf8 text }
{}
