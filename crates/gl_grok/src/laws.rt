// What the definitions say, as laws.
ghost use Rattle.std.specs.Prelude.{◌≡◌, ◌↔◌, ◌<◌, ℕ, List, [], None, Ok, IsTrue, true, false, not, fold, length};
ghost use Rattle.std.specs.List.{find};
ghost use Rattle.gl_grok.specs.declared.expansion.Expanded.{Expanded};
ghost use Rattle.gl_grok.specs.Answers.{answer};
ghost use Rattle.gl_grok.specs.Expansion.{expansion, written};
ghost use Rattle.gl_grok.specs.Names.{contains, met, names_met, reaches_itself, Reaches};
ghost use Rattle.gl_grok.specs.Pieces.{names_in};
ghost use Rattle.gl_grok.specs.Tables.{Table, table_of, pattern_of, is_known, with_pattern};

use std::collections::BTreeMap;

/// The names that are met from a text are exactly those that are reached from it, and the names that are refused as
/// circular exactly those that are reached from their own pattern.
pub fn law_names_reached(text: &str, name: &str, table: &BTreeMap<String, String>)
    ensures met { IsTrue (contains (names_met (table_of table.now) text.now) name.now) ↔ Reaches (table_of table.now) text.now name.now }
    ensures circular { IsTrue (reaches_itself (table_of table.now) name.now) ↔ Reaches (table_of table.now) (pattern_of (table_of table.now) name.now) name.now }
{}

/// The depth to which the definitions go into patterns cuts nothing off: each greater one gives the same names, and,
/// where no name is refused, the same text and fields.
pub fn law_depth_is_enough(text: &str, table: &BTreeMap<String, String>)
    ensures names { (depth : ℕ) → length (table_of table.now) < depth → fold (met (table_of table.now) depth) [] (names_in text.now) ≡ names_met (table_of table.now) text.now }
    ensures expansion { find (λ name. not (is_known (table_of table.now) name)) (names_met (table_of table.now) text.now) ≡ None
        → find (reaches_itself (table_of table.now)) (names_met (table_of table.now) text.now) ≡ None
        → (depth : ℕ) → length (table_of table.now) < depth → written (table_of table.now) depth (record { text = []; fields = [] }) text.now ≡ expansion (table_of table.now) text.now }
{}

/// A name that isn't reached from a text plays no part in what the text is answered: with another pattern for it, or with one
/// where the table had none, the same names are met and the same is answered. What a text that expands reaches, the table has.
pub fn law_other_names_play_no_part()
    ensures met { (table : Table) (text name pattern : List ℕ) → contains (names_met table text) name ≡ false → names_met (with_pattern table name pattern) text ≡ names_met table text }
    ensures answer { (table : Table) (text name pattern : List ℕ) → contains (names_met table text) name ≡ false → answer (with_pattern table name pattern) text ≡ answer table text }
    ensures known { (table : Table) (text name : List ℕ) (expanded : Expanded) → answer table text ≡ Ok expanded → contains (names_met table text) name ≡ true → is_known table name ≡ true }
{}
