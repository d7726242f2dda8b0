// The index of words.
ghost use Rattle.std.specs.Prelude.{◌≡◌, [], ◌∷◌, ◌++◌, ℕ, false, List, Contains, OnOk, OnErr, MatchOption, map, option_map, Option, Some};
ghost use Rattle.std.specs.Char.{to_ascii_lowercase};
ghost use Rattle.std.specs.List.{reduce};
ghost use Rattle.gl_indexset.specs.declared.row.Row.{Row};
ghost use Rattle.gl_indexset.specs.Leaving.{without};
ghost use Rattle.gl_indexset.specs.Rising.{AreBelow};
ghost use Rattle.gl_query.specs.Required.{is_number, terms_of};
ghost use Rattle.gl_query.specs.Tree.{Tree, polish};
ghost use Rattle.gl_words.specs.Candidates.{candidates_of, holders, positions};
ghost use Rattle.gl_words.specs.Inside.{kept_in};
ghost use Rattle.gl_words.specs.Texts.{shorter};
ghost use Rattle.gl_words.specs.Words.{StandsFor};

use crate::row::{put_row, take_row};
use crate::table::positions_in;
use crate::word::Bucket;
use gl_indexset::Row;
use gl_query::{Query, RequiredTerm};
use std::alloc::{AllocError, Global};
use std::collections::HashMap;

/// For each field and token, the positions of the rows that have the token in the field.
///
/// Tokens count with ASCII letters in lower case. Those of digits alone are left out: no query requires one.
#[derive(Drop)]
pub struct Postings {
    alloc: Global,
    words: HashMap<u64, Bucket>,
}

impl Postings {
    /// The words of no rows. It takes no memory.
    pub fn new(alloc: Global) -> Postings
        ensures { StandsFor result [] }
    {
        Postings {
            alloc,
            words: HashMap::new(alloc),
        }
    }

    /// Puts the words of a row in, whose position is above those of all rows held.
    ///
    /// An error changes nothing that can be asked for.
    pub fn add(&mut self, row: &Row) -> Result<(), AllocError>
        ensures ok { (rows : List Row) → StandsFor self.old rows → AreBelow row.now.position rows → OnOk result (StandsFor self.new (rows ++ row.now ∷ [])) }
        ensures err { (rows : List Row) → StandsFor self.old rows → AreBelow row.now.position rows → OnErr result (StandsFor self.new rows) }
    {
        match put_row(&mut self.words, self.alloc, row) {
            Ok(()) => Ok(()),
            Err(error) => {
                take_row(&mut self.words, row);
                Err(error)
            }
        }
    }

    /// Takes the words of a row out, which is held. It takes no memory.
    pub fn forget(&mut self, row: &Row)
        ensures { (rows : List Row) → StandsFor self.old rows → Contains rows row.now → StandsFor self.new (without row.now.position rows) }
    {
        take_row(&mut self.words, row);
    }

    /// The positions of the rows that have a token in a field, in rising order. ASCII letters count in lower case, and the
    /// token isn't digits alone. It takes no memory.
    pub fn positions(&self, field: &[u8], token: &[u8]) -> &[u64]
        ensures { (rows : List Row) → StandsFor self.now rows → is_number (map to_ascii_lowercase token.now) ≡ false
            → result.now ≡ positions (holders rows (field.now, map to_ascii_lowercase token.now)) }
    {
        kept(&self.words, field, token)
    }

    /// The positions of the rows that have the query's rarest required term, of equally rare ones the first in the
    /// query; `None` where it requires none. It takes no memory.
    pub fn candidates(&self, query: &Query) -> Option<&[u64]>
        ensures { (rows : List Row) → StandsFor self.now rows → (t : Tree) → query.now ≡ polish t
            → option_map (λ found. found.now) result ≡ candidates_of t rows }
    {
        fewest(&self.words, query.required())
    }
}

fn shorter<'w>(one: &'w [u64], other: &'w [u64]) -> &'w [u64]
    ensures { result.now ≡ shorter one.now other.now }
{
    if other.len() < one.len() { other } else { one }
}

fn shorter_than<'w>(least: Option<&'w [u64]>, found: &'w [u64]) -> &'w [u64]
    ensures { MatchOption least.entry (result.now ≡ found.now) (λ one. result.now ≡ shorter one.now found.now) }
{
    match least {
        None => found,
        Some(one) => shorter(one, found),
    }
}

// The positions of a token in a field.
fn kept<'w>(words: &'w HashMap<u64, Bucket>, field: &[u8], token: &[u8]) -> &'w [u64]
    ensures { result.now ≡ kept_in words.now field.now (map to_ascii_lowercase token.now) }
{
    match positions_in(words, field, token) {
        Some(found) => found,
        None => &[],
    }
}

// The positions of a term.
fn positions_of<'w>(words: &'w HashMap<u64, Bucket>, term: &RequiredTerm) -> &'w [u64]
    ensures { result.now ≡ kept_in words.now term.now.field (map to_ascii_lowercase term.now.token) }
{
    kept(words, term.field.as_slice(), term.token.as_slice())
}

// The fewest positions of one of these terms, the first of those.
fn fewest<'w>(words: &'w HashMap<u64, Bucket>, terms: &[RequiredTerm]) -> Option<&'w [u64]>
    ensures { option_map (λ found. found.now) result ≡ reduce shorter (map (λ term. kept_in words.now term.0 (map to_ascii_lowercase term.1)) (terms_of terms.now)) }
{
    let mut least = None;
    let mut left = terms;
    while let [term, rest @ ..] = left {
        least = Some(shorter_than(least, positions_of(words, term)));
        left = rest;
    }
    least
}
