// The messages that a search finds, and the page that it gets.
ghost use Rattle.std.specs.Prelude.{◌≡◌, [], ◌∷◌, ◌++◌, map, take, drop, if◌then◌else◌, IfOk, OnOk, OnErr};
ghost use Rattle.gl_query.specs.Tree.{Tree, polish};
ghost use Rattle.gl_pages.specs.Pages.{finds, in_order, time_of};
ghost use Rattle.gl_pages.specs.Hits.{page_from};

use crate::ask::{Ask, time_of};
use gl_base::Items;
use gl_fields::FieldMap;
use std::alloc::{AllocError, Global};
use std::marker::Model;

/// What a search gets.
#[derive(Drop)]
pub struct Page {
    /// How many messages were found.
    pub total: u64,
    /// The positions of the page's messages, by time and then position.
    pub rows: Items<u64>,
}

/// A message that a search finds.
#[derive(Clone, Copy)]
pub struct Hit {
    /// In milliseconds since 1970.
    pub time: i64,
    pub position: u64,
}

/// The messages that a search has found so far, in the order in which it came to them.
#[derive(Drop)]
pub struct Hits {
    alloc: Global,
    hits: Vec<Hit>,
}

impl Model for Hits {
    ghost use Rattle.std.specs.Prelude.{List};
    ghost use Rattle.gl_pages.specs.declared.hits.Hit.{Hit};

    ghost Value = { List Hit };

    ghost view = { λ h. h.hits.items };
}

impl Hits {
    /// No message yet. It takes no memory.
    pub fn new(alloc: Global) -> Hits
        ensures { result ≡ [] }
    {
        Hits {
            alloc,
            hits: Vec::new(alloc),
        }
    }

    /// Takes the message at this position in, if the search finds it. An error changes nothing.
    pub fn meet(
        &mut self,
        ask: &Ask,
        position: u64,
        streams: &[u64],
        fields: &FieldMap,
    ) -> Result<(), AllocError>
        ensures ok { (t : Tree) → ask.now.query ≡ polish t
            → OnOk result (self.new ≡ self.old ++ (if finds ask.now t streams.now fields.now then record { time = time_of fields.now; position = position } ∷ [] else [])) }
        ensures err { OnErr result (self.new ≡ self.old) }
    {
        if ask.finds(streams, fields) {
            let time = time_of(fields);
            self.hits.push(Hit { time, position })?;
        }
        Ok(())
    }

    /// The page that is asked for: of these messages, by their time and then as they stood, the ones behind the first
    /// `offset`, at most `limit`.
    pub fn into_page(self, ask: &Ask) -> Result<Page, AllocError>
        ensures { IfOk result (λ page. page ≡ page_from ask.now self) }
    {
        let Hits { alloc, mut hits } = self;
        sort_by_time(&mut hits)?;
        let rest = behind(hits.as_slice(), ask.offset);
        let rows = positions(alloc, front(rest, ask.limit))?;
        let total = hits.len() as u64;
        Ok(Page { total, rows })
    }
}

// In order of their times, and those of one time as they stood.
fn sort_by_time(hits: &mut Vec<Hit>) -> Result<(), AllocError>
    ensures { OnOk result (hits.new.items ≡ in_order (λ hit. hit.time) hits.old.items) }
{
    hits.sort_by_key(|hit| hit.time)?;
    Ok(())
}

// What stands behind so many.
fn behind(hits: &[Hit], offset: u64) -> &[Hit]
    ensures { result.now ≡ drop offset hits.now }
{
    let start = hits.len().min(offset as usize);
    &hits[start..]
}

// At most so many from the first on.
fn front(hits: &[Hit], limit: u64) -> &[Hit]
    ensures { result.now ≡ take limit hits.now }
{
    let end = hits.len().min(limit as usize);
    &hits[..end]
}

fn positions(alloc: Global, hits: &[Hit]) -> Result<Items<u64>, AllocError>
    ensures { IfOk result (λ positions. positions ≡ map (λ hit. hit.position) hits.now) }
{
    let mut positions = Vec::with_capacity(alloc, hits.len())?;
    for hit in hits {
        positions.push(hit.position)?;
    }
    Ok(Items::from_vec(positions))
}
