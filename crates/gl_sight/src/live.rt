// A search over messages that are lent.
ghost use Rattle.std.specs.Prelude.{◌≡◌, length, map, slice_get, Some, IfOk};
ghost use Rattle.gl_query.specs.Tree.{Tree, polish};
ghost use Rattle.gl_pages.specs.Pages.{cut, is_chosen};
ghost use Rattle.gl_sight.specs.Finding.{found, live_of};

use gl_fields::FieldMap;
use gl_pages::{Ask, Hits, Page};
use std::alloc::{AllocError, Global};

/// A live message.
#[derive(Clone, Copy)]
pub struct Live<'a> {
    /// The ids of the streams in which it stands.
    pub streams: &'a [u64],
    pub fields: &'a FieldMap,
}

/// Whether this is the id of a permitted stream. It takes no memory.
pub fn is_permitted(permitted: &[u64], id: u64) -> bool
    ensures { result ≡ is_chosen permitted.now id }
{
    permitted.iter().any(|other| *other == id)
}

/// What a search finds of live messages, which stand in the journal's order: how many, and the places of those on its page,
/// counted from 0. An error means that memory ran out.
pub fn search(alloc: Global, live: &[Live<'_>], ask: &Ask) -> Result<Page, AllocError>
    ensures total { (t : Tree) → ask.now.query ≡ polish t → IfOk result (λ page. page.total ≡ length (found ask.now t (live_of live.now))) }
    ensures places { (t : Tree) → ask.now.query ≡ polish t
        → IfOk result (λ page. map (slice_get (live_of live.now)) page.rows ≡ map Some (cut ask.now (found ask.now t (live_of live.now)))) }
{
    let mut hits = Hits::new(alloc);
    for (place, message) in live.iter().enumerate() {
        hits.meet(ask, place as u64, message.streams, message.fields)?;
    }
    hits.into_page(ask)
}
