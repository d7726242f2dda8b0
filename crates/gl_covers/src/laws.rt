// Each message of which a query holds has a term of its cover.
ghost use Rattle.std.specs.Prelude.{◌≡◌, true, List, Some};
ghost use Rattle.gl_fields.specs.declared.field.Field.{Field};
ghost use Rattle.gl_indexset.specs.declared.row.Row.{Row};
ghost use Rattle.gl_query.specs.Matching.{holds};
ghost use Rattle.gl_query.specs.Tree.{Tree};
ghost use Rattle.gl_covers.specs.Covers.{Terms, cover, has_one};

/// Law: where a query holds of a message's fields, the message has a term of the query's cover, whatever the rows are by
/// which it was chosen. So whoever looks at no other messages misses none.
pub fn law_cover()
    ensures { (t : Tree) (rows : List Row) (fields : List Field) (terms : Terms) → cover rows t ≡ Some terms → holds t fields ≡ true → has_one terms fields ≡ true }
{}
