// A token in a field, with the positions of the rows that have it.
ghost use Rattle.std.specs.Prelude.{◌≡◌, ◌==◌, [], ◌∷◌, ℕ, List, length, map, IfOk, OnOk, OnErr, MatchOption, IsTrue, if◌then◌else◌};
ghost use Rattle.std.specs.Char.{to_ascii_lowercase};
ghost use Rattle.std.specs.List.{list_all, position as position_in};
ghost use Rattle.std.specs.Str.{bytes_eq};
ghost use Rattle.gl_words.specs.Inside.{is_same, positions_of};
ghost use Rattle.gl_words.specs.Positions.{with_position, without_position};

use crate::positions::Positions;
use gl_base::Items;
use gl_query::in_lower_case;
use std::alloc::{AllocError, Global};
use std::marker::Model;

#[derive(Drop)]
pub(crate) struct Word {
    /// The name of the field.
    field: Items<u8>,
    /// With ASCII letters in lower case.
    token: Items<u8>,
    positions: Positions,
}

// Whether the second of these is the first in lower case.
fn is_lower(token: &[u8], lower: &[u8]) -> bool
    ensures { result ≡ bytes_eq (map to_ascii_lowercase token.now) lower.now }
{
    let mut token = token;
    let mut lower = lower;
    while let [byte, rest @ ..] = token {
        match lower {
            [] => return false,
            [other, more @ ..] => {
                if *other != byte.to_ascii_lowercase() {
                    return false;
                }
                token = rest;
                lower = more;
            }
        }
    }
    lower.is_empty()
}

impl Word {
    // A token as it stands in a field, at one position.
    fn of(alloc: Global, field: &[u8], token: &[u8], position: u64) -> Result<Word, AllocError>
        ensures { IfOk result (λ word. word ≡ record { field = field.now; token = map to_ascii_lowercase token.now; positions = position ∷ [] }) }
    {
        Ok(Word {
            field: Items::from_slice(alloc, field)?,
            token: in_lower_case(alloc, token)?,
            positions: Positions::of(alloc, position)?,
        })
    }

    // Whether it is this token in this field.
    fn is(&self, field: &[u8], token: &[u8]) -> bool
        ensures { result ≡ is_same self.now.field self.now.token field.now (map to_ascii_lowercase token.now) }
    {
        self.field.as_slice() == field && is_lower(token, self.token.as_slice())
    }
}

/// The words that have the same key: nearly always one.
#[derive(Drop)]
pub(crate) struct Bucket {
    words: Vec<Word>,
}

impl Model for Bucket {
    ghost use Rattle.std.specs.Prelude.{List};
    ghost use Rattle.gl_words.specs.declared.word.Word.{Word};

    ghost Value = { List Word };

    ghost view = { λ b. b.words.items };
}

impl Bucket {
    /// A bucket with one word at one position.
    pub(crate) fn of(
        alloc: Global,
        field: &[u8],
        token: &[u8],
        position: u64,
    ) -> Result<Bucket, AllocError>
        ensures { IfOk result (λ bucket. bucket ≡ record { field = field.now; token = map to_ascii_lowercase token.now; positions = position ∷ [] } ∷ []) }
    {
        let word = Word::of(alloc, field, token, position)?;
        let mut words = Vec::with_capacity(alloc, 1)?;
        words.push(word)?;
        Ok(Bucket { words })
    }

    /// The positions of a token in a field; there is nothing where the word isn't here.
    pub(crate) fn positions(&self, field: &[u8], token: &[u8]) -> Option<&[u64]>
        ensures { MatchOption result (positions_of field.now (map to_ascii_lowercase token.now) self.now ≡ []) (λ found. found.now ≡ positions_of field.now (map to_ascii_lowercase token.now) self.now) }
    {
        match place_of(self.words.as_slice(), field, token) {
            Some(at) => Some(self.words[at].positions.as_slice()),
            None => None,
        }
    }

    /// Puts a position to a token in a field. An error changes nothing.
    pub(crate) fn put(
        &mut self,
        alloc: Global,
        field: &[u8],
        token: &[u8],
        position: u64,
    ) -> Result<(), AllocError>
        ensures ok { OnOk result ((g s : List ℕ) → positions_of g s self.new ≡ (if is_same field.now (map to_ascii_lowercase token.now) g s then with_position position (positions_of g s self.old) else positions_of g s self.old)) }
        ensures err { OnErr result (self.new ≡ self.old) }
    {
        put_in(&mut self.words, alloc, field, token, position)
    }

    /// Takes a position from a token in a field. It takes no memory.
    pub(crate) fn take_out(&mut self, field: &[u8], token: &[u8], position: u64)
        ensures { (g s : List ℕ) → positions_of g s self.new ≡ (if is_same field.now (map to_ascii_lowercase token.now) g s then without_position position (positions_of g s self.old) else positions_of g s self.old) }
    {
        take_from(&mut self.words, field, token, position);
    }

    /// Whether no word has a position.
    pub(crate) fn is_spent(&self) -> bool
        ensures { IsTrue result → (g s : List ℕ) → positions_of g s self.now ≡ [] }
    {
        are_spent(self.words.as_slice())
    }
}

// Whether none of these has a position.
fn are_spent(words: &[Word]) -> bool
    ensures { result ≡ list_all (λ word. length word.positions == 0) words.now }
{
    words
        .iter()
        .all(|word| word.positions.as_slice().is_empty())
}

// Where a token in a field stands among words.
fn place_of(words: &[Word], field: &[u8], token: &[u8]) -> Option<usize>
    ensures { result ≡ position_in (λ word. is_same word.field word.token field.now (map to_ascii_lowercase token.now)) words.now }
{
    words.iter().position(|word| word.is(field, token))
}

fn put_in(
    words: &mut Vec<Word>,
    alloc: Global,
    field: &[u8],
    token: &[u8],
    position: u64,
) -> Result<(), AllocError>
    ensures ok { OnOk result ((g s : List ℕ) → positions_of g s words.new.items ≡ (if is_same field.now (map to_ascii_lowercase token.now) g s then with_position position (positions_of g s words.old.items) else positions_of g s words.old.items)) }
    ensures err { OnErr result (words.new.items ≡ words.old.items) }
{
    match place_of(words.as_slice(), field, token) {
        Some(at) => words[at].positions.put(position),
        None => {
            words.push(Word::of(alloc, field, token, position)?)?;
            Ok(())
        }
    }
}

fn take_from(words: &mut Vec<Word>, field: &[u8], token: &[u8], position: u64)
    ensures { (g s : List ℕ) → positions_of g s words.new.items ≡ (if is_same field.now (map to_ascii_lowercase token.now) g s then without_position position (positions_of g s words.old.items) else positions_of g s words.old.items) }
{
    if let Some(at) = place_of(words.as_slice(), field, token) {
        words[at].positions.take_out(position);
    }
}
