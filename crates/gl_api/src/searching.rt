// A search, from the text behind the `?` to its page.
ghost use Rattle.std.specs.Prelude.{◌≡◌, [], ◌∷◌, ◌++◌, filter_map, option_map, slice_get, true, IfOk, OnOk, unwrap_or};
ghost use Rattle.std.specs.List.{list_all};
ghost use Rattle.gl_query.specs.Tree.{Tree, polish};
ghost use Rattle.gl_pages.specs.Pages.{is_chosen};
ghost use Rattle.gl_sight.specs.Finding.{asks_within, live_of};
ghost use Rattle.gl_sight.specs.Sight.{sight, visible};
ghost use Rattle.gl_api.specs.Search.{are_permitted, ask_of, by_request, by_streams, found_reply, search_reply, Answers, Asks};
ghost use Rattle.gl_api.specs.Parameters.{request_of};

use crate::parameters::{Request, Unasked, request_in};
use gl_base::Items;
use gl_bodies::{
    Reply, bad_parameter_reply, bad_query_reply, not_permitted_reply, page_reply,
    unknown_token_reply,
};
use gl_query::{Query, QueryRefusal, law_one_tree, read_query};
use gl_sight::{Ask, Live, is_permitted, law_only_what_is_seen, search};
use std::alloc::{AllocError, Global};

/// What a caller of `/api/search` asks for.
#[derive(Drop)]
pub enum Searching {
    /// A page of what is found.
    Asked(Ask),
    /// The caller is answered at once.
    Answered(Reply),
}

/// Reads what a caller asks for by the text behind the `?`: 401 where no user has the caller's token, 400 where a parameter
/// isn't of its form, 403 where a chosen stream isn't permitted, 400 where the query isn't one.
#[tactic(auto, unfolding(crate::specs::Search::search_reply))]
pub fn search_request(
    alloc: Global,
    permitted: Option<&[u64]>,
    text: &str,
) -> Result<Searching, AllocError>
    ensures { IfOk result (λ searching. Asks (option_map (λ ids. ids.now) permitted.entry) text.now searching) }
{
    match permitted {
        Some(ids) => request_of(alloc, ids, text),
        None => Ok(Searching::Answered(unknown_token_reply(alloc)?)),
    }
}

// What a caller with these streams asks for.
fn request_of(alloc: Global, permitted: &[u64], text: &str) -> Result<Searching, AllocError>
    ensures { IfOk result (λ searching. Answers permitted.now searching (λ messages. by_request permitted.now messages (request_of text.now))) }
{
    match request_in(alloc, text) {
        Ok(request) => asked_of(alloc, permitted, request),
        Err(Unasked::Bad(parameter)) => Ok(Searching::Answered(bad_parameter_reply(
            alloc,
            parameter.name(),
        )?)),
        Err(Unasked::OutOfMemory) => Err(AllocError),
    }
}

// Whether each stream that was chosen is permitted.
fn are_permitted(permitted: &[u64], chosen: &Option<Items<u64>>) -> bool
    ensures { result ≡ are_permitted permitted.now chosen.now }
{
    match chosen {
        Some(ids) => all_permitted(permitted, ids.as_slice()),
        None => true,
    }
}

fn all_permitted(permitted: &[u64], ids: &[u64]) -> bool
    ensures { result ≡ list_all (is_chosen permitted.now) ids.now }
{
    ids.iter().all(|id| is_permitted(permitted, *id))
}

// What a request asks for whose streams aren't looked at yet.
fn asked_of(alloc: Global, permitted: &[u64], request: Request) -> Result<Searching, AllocError>
    ensures { IfOk result (λ searching. Answers permitted.now searching (λ messages. by_streams permitted.now messages request)) }
{
    law_one_tree();
    if !are_permitted(permitted, &request.chosen) {
        return Ok(Searching::Answered(not_permitted_reply(alloc)?));
    }
    match read_query(alloc, request.query.as_str()) {
        Ok(query) => Ok(Searching::Asked(ask_of(alloc, permitted, request, query)?)),
        Err(QueryRefusal::BadQuery { at }) => {
            Ok(Searching::Answered(bad_query_reply(alloc, at)?))
        }
        Err(QueryRefusal::OutOfMemory) => Err(AllocError),
    }
}

fn ask_of(
    alloc: Global,
    permitted: &[u64],
    request: Request,
    query: Query,
) -> Result<Ask, AllocError>
    ensures { (t : Tree) → query ≡ polish t → IfOk result (λ ask. ask ≡ ask_of permitted.now request t) }
{
    let chosen = chosen_or_all(alloc, permitted, request.chosen)?;
    Ok(Ask {
        query,
        chosen,
        from: request.from,
        to: request.to,
        offset: request.offset,
        limit: request.limit,
    })
}

fn chosen_or_all(
    alloc: Global,
    permitted: &[u64],
    chosen: Option<Items<u64>>,
) -> Result<Items<u64>, AllocError>
    ensures { IfOk result (λ ids. ids ≡ unwrap_or chosen permitted.now) }
{
    match chosen {
        Some(ids) => Ok(ids),
        None => Items::from_slice(alloc, permitted),
    }
}

/// The page of a search whose streams are permitted, of live messages in the journal's order.
pub fn found_reply(
    alloc: Global,
    permitted: &[u64],
    live: &[Live<'_>],
    ask: &Ask,
) -> Result<Reply, AllocError>
    requires { asks_within permitted.now ask.now ≡ true }
    ensures { (t : Tree) → ask.now.query ≡ polish t → IfOk result (λ r. r ≡ found_reply ask.now t (visible permitted.now (live_of live.now))) }
{
    law_only_what_is_seen();
    let page = search(alloc, live, ask)?;
    let messages = messages_at(alloc, live, page.rows.as_slice())?;
    page_reply(alloc, permitted, messages.as_slice(), page.total)
}

// Puts the message at a place behind others, if one is there.
fn push_at<'a>(
    messages: &mut Vec<Live<'a>>,
    live: &[Live<'a>],
    place: u64,
) -> Result<(), AllocError>
    ensures { OnOk result (live_of messages.new.items ≡ live_of messages.old.items ++ filter_map (slice_get (live_of live.now)) (place ∷ [])) }
{
    let Some(message) = live.get(place as usize) else {
        return Ok(());
    };
    messages.push(*message)?;
    Ok(())
}

// The messages that stand at these places.
fn messages_at<'a>(
    alloc: Global,
    live: &[Live<'a>],
    places: &[u64],
) -> Result<Vec<Live<'a>>, AllocError>
    ensures { IfOk result (λ v. live_of v.items ≡ filter_map (slice_get (live_of live.now)) places.now) }
{
    let mut messages = Vec::with_capacity(alloc, places.len())?;
    for place in places {
        push_at(&mut messages, live, *place)?;
    }
    Ok(messages)
}

/// The reply to a search by a caller with these permitted streams, of live messages in the journal's order.
#[tactic(auto, unfolding(crate::specs::Search::search_reply))]
pub fn search_reply(
    alloc: Global,
    permitted: Option<&[u64]>,
    live: &[Live<'_>],
    text: &str,
) -> Result<Reply, AllocError>
    ensures { IfOk result (λ r. r ≡ search_reply (sight (option_map (λ ids. ids.now) permitted.entry) (live_of live.now)) text.now) }
{
    match permitted {
        Some(ids) => permitted_reply(alloc, ids, live, text),
        None => unknown_token_reply(alloc),
    }
}

fn permitted_reply(
    alloc: Global,
    permitted: &[u64],
    live: &[Live<'_>],
    text: &str,
) -> Result<Reply, AllocError>
    ensures { IfOk result (λ r. r ≡ by_request permitted.now (visible permitted.now (live_of live.now)) (request_of text.now)) }
{
    let searching = request_of(alloc, permitted, text)?;
    match searching {
        Searching::Asked(ask) => found_reply(alloc, permitted, live, &ask),
        Searching::Answered(reply) => Ok(reply),
    }
}
