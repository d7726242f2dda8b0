// Each row that a search finds is of a minute that has a part of its span.
ghost use Rattle.std.specs.Prelude.{◌≡◌, ℕ, true};
ghost use Rattle.gl_indexset.specs.declared.row.Row.{Row};
ghost use Rattle.gl_moments.specs.Minutes.{is_near};
ghost use Rattle.gl_pages.specs.Pages.{is_between, time_of};

/// Law: where the time of a row lies in a span, the row is of one of the minutes that have a part of it. So whoever looks at
/// no rows of other minutes misses none.
pub fn law_near()
    ensures { (from to : ℕ) (row : Row) → is_between from to (time_of row.fields) ≡ true → is_near from to row ≡ true }
{}
