// That a search tells nothing but what its caller sees.
ghost use Rattle.std.specs.Prelude.{◌≡◌, ℕ, List, map, filter, length, true};
ghost use Rattle.gl_query.specs.Tree.{Tree};
ghost use Rattle.gl_pages.specs.declared.ask.Ask.{Ask};
ghost use Rattle.gl_pages.specs.Pages.{cut};
ghost use Rattle.gl_sight.specs.Finding.{asks_within, found};
ghost use Rattle.gl_sight.specs.Sight.{Seen, is_seen, shown, visible};

/// Law: where a search asks for permitted streams alone, what it finds of the live messages and is then shown is what it finds
/// of the messages as they are seen; so are their number and the page.
pub fn law_only_what_is_seen()
    ensures found { (permitted : List ℕ) (ask : Ask) (query : Tree) (live : List Seen) → asks_within permitted ask ≡ true
        → map (shown permitted) (found ask query live) ≡ found ask query (visible permitted live) }
    ensures total { (permitted : List ℕ) (ask : Ask) (query : Tree) (live : List Seen) → asks_within permitted ask ≡ true
        → length (found ask query live) ≡ length (found ask query (visible permitted live)) }
    ensures page { (permitted : List ℕ) (ask : Ask) (query : Tree) (live : List Seen) → asks_within permitted ask ≡ true
        → map (shown permitted) (cut ask (found ask query live)) ≡ cut ask (found ask query (visible permitted live)) }
{}

/// Law: messages that a caller doesn't see could as well not be there.
pub fn law_hidden_messages()
    ensures { (permitted : List ℕ) (live : List Seen) → visible permitted (filter (is_seen permitted) live) ≡ visible permitted live }
{}
