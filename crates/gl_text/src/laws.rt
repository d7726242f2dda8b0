// An id and its text.
ghost use Rattle.std.specs.Prelude.{◌≡◌, ◌<◌, ◌^◌, ℕ, List, Some, IsUtf8};
ghost use Rattle.gl_text.specs.Ids.{id_text, read_id};

/// An id is read of its text, which is UTF-8, and of no other text: each id has one.
pub fn law_ids_read_back()
    ensures read { (id : ℕ) → id < 2 ^ 64 → read_id (id_text id) ≡ Some id }
    ensures utf8 { (id : ℕ) → IsUtf8 (id_text id) }
    ensures only { (text : List ℕ) (id : ℕ) → read_id text ≡ Some id → text ≡ id_text id }
{}
