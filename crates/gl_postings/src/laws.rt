// The order of what a search finds, in words.
ghost use Rattle.std.specs.Prelude.{◌≡◌, ◌⊎◌, ◌<◌, ◌<ℤ◌, ◌↔◌, List, true};
ghost use Rattle.std.specs.List.{AllPairs, Contains};
ghost use Rattle.gl_indexset.specs.declared.row.Row.{Row};
ghost use Rattle.gl_indexset.specs.Rising.{AreRising};
ghost use Rattle.gl_query.specs.Tree.{Tree};
ghost use Rattle.gl_pages.specs.declared.ask.Ask.{Ask};
ghost use Rattle.gl_pages.specs.Pages.{finds, time_of};
ghost use Rattle.gl_postings.specs.Found.{found};

/// Law: of rows in order of position a search finds just those that it should, each once, and they come by time and then
/// by position.
pub fn law_found_in_order()
    ensures those { (ask : Ask) (query : Tree) (rows : List Row) (row : Row)
        → Contains (found ask query rows) row ↔ Contains rows row × (finds ask query row.streams row.fields ≡ true) }
    ensures order { (ask : Ask) (query : Tree) (rows : List Row) → AreRising rows
        → AllPairs (λ (a b : Row). (time_of a.fields <ℤ time_of b.fields) ⊎ ((time_of a.fields ≡ time_of b.fields) × (a.position < b.position))) (found ask query rows) }
{}
