// What a search asks for.
ghost use Rattle.std.specs.Prelude.{◌≡◌};
ghost use Rattle.gl_query.specs.Tree.{Tree, polish};
ghost use Rattle.gl_pages.specs.Pages.{finds, is_between, is_chosen, one_chosen, time_of};

use gl_base::Items;
use gl_fields::{FieldMap, Value};
use gl_query::{Query, matches};

/// What a search asks for.
#[derive(Drop)]
pub struct Ask {
    pub query: Query,
    /// The ids of the streams of which a message must have one.
    pub chosen: Items<u64>,
    /// The first moment, in milliseconds since 1970.
    pub from: u64,
    /// The moment behind the last.
    pub to: u64,
    /// How many of the messages that are found are left out before the page.
    pub offset: u64,
    /// How many messages the page has at most.
    pub limit: u64,
}

impl Ask {
    /// Whether the search finds a message that stands in these streams and has these fields. It takes no memory.
    pub fn finds(&self, streams: &[u64], fields: &FieldMap) -> bool
        ensures { (t : Tree) → self.now.query ≡ polish t → result ≡ finds self.now t streams.now fields.now }
    {
        one_chosen(self.chosen.as_slice(), streams)
            && is_between(self.from, self.to, time_of(fields))
            && matches(&self.query, fields)
    }
}

/// When a message came about, in milliseconds since 1970: what its `timestamp` holds, and 0 where that is no number. It
/// takes no memory.
pub fn time_of(fields: &FieldMap) -> i64
    ensures { result ≡ time_of fields.now }
{
    match fields.get("timestamp") {
        Some(Value::Whole(number)) => *number,
        _ => 0,
    }
}

// Whether one of these streams is among those chosen.
fn one_chosen(chosen: &[u64], streams: &[u64]) -> bool
    ensures { result ≡ one_chosen chosen.now streams.now }
{
    streams.iter().any(|id| is_chosen(chosen, *id))
}

fn is_chosen(chosen: &[u64], id: u64) -> bool
    ensures { result ≡ is_chosen chosen.now id }
{
    chosen.iter().any(|other| *other == id)
}

// Whether a time is at or after the one moment and before the other.
fn is_between(from: u64, to: u64, time: i64) -> bool
    ensures { result ≡ is_between from to time }
{
    match u64::try_from(time) {
        Ok(time) => from <= time && time < to,
        Err(_) => false,
    }
}
