// That a search tells nothing but what its caller sees.
ghost use Rattle.std.specs.Prelude.{◌≡◌, ℕ, List, filter, Option, Some};
ghost use Rattle.gl_sight.specs.Sight.{Agree, Seen, Sight, is_seen, sight};
ghost use Rattle.gl_api.specs.Search.{search_reply};

/// Law: what two callers see decides their replies. Where the token is known to both servers or to neither, the permitted streams
/// are the same, and what is seen of the live messages is the same, as fields and permitted streams in the journal's order,
/// one search is replied to alike, byte by byte.
pub fn law_searches_are_isolated()
    ensures sights { (here there : Sight) (text : List ℕ) → here ≡ there → search_reply here text ≡ search_reply there text }
    ensures servers { (here there : Option (List ℕ)) (live others : List Seen) (text : List ℕ) → Agree here there live others
        → search_reply (sight here live) text ≡ search_reply (sight there others) text }
{}

/// Law: messages that a caller doesn't see could as well not be there.
pub fn law_hidden_messages()
    ensures { (permitted : List ℕ) (live : List Seen) (text : List ℕ)
        → search_reply (sight (Some permitted) (filter (is_seen permitted) live)) text ≡ search_reply (sight (Some permitted) live) text }
{
    gl_sight::law_hidden_messages();
}
