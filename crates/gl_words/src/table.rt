// Words by their keys.
ghost use Rattle.std.specs.Prelude.{◌≡◌, ◌^◌, ◌<◌, [], nat_eq, ℕ, List, map, OnOk, OnErr, MatchOption, if◌then◌else◌, IsTrue};
ghost use Rattle.std.specs.Char.{to_ascii_lowercase};
ghost use Rattle.std.specs.HashMap.{get};
ghost use Rattle.std.specs.List.{fold};
ghost use Rattle.gl_words.specs.Inside.{Changes, is_same, kept_in, key_of, mixed, words_at};
ghost use Rattle.gl_words.specs.Positions.{with_position, without_position};

use crate::word::Bucket;
use std::alloc::{AllocError, Global};
use std::collections::HashMap;

#[tactic(auto, unfolding(crate::specs::Inside::mixed))]
fn mixed(key: u64, byte: u8) -> u64
    ensures { result ≡ mixed key byte }
{
    key.wrapping_add(u64::from(byte))
        .wrapping_mul(1_099_511_628_211)
}

// A key that goes on with a token in lower case.
fn mixed_lower(key: u64, token: &[u8]) -> u64
    ensures { result ≡ fold mixed key (map to_ascii_lowercase token.now) }
{
    let mut key = key;
    let mut rest = token;
    while let [byte, more @ ..] = rest {
        key = mixed(key, byte.to_ascii_lowercase());
        rest = more;
    }
    key
}

fn key_of(field: &[u8], token: &[u8]) -> u64
    ensures { result ≡ key_of field.now (map to_ascii_lowercase token.now) }
{
    let start = field.iter().fold(0, |key, byte| mixed(key, *byte));
    mixed_lower(start, token)
}

/// The positions of a token in a field; there may be nothing where there are none.
pub(crate) fn positions_in<'w>(
    words: &'w HashMap<u64, Bucket>,
    field: &[u8],
    token: &[u8],
) -> Option<&'w [u64]>
    ensures { MatchOption result (kept_in words.now field.now (map to_ascii_lowercase token.now) ≡ []) (λ found. found.now ≡ kept_in words.now field.now (map to_ascii_lowercase token.now)) }
{
    match words.get(&key_of(field, token)) {
        Some(bucket) => bucket.positions(field, token),
        None => None,
    }
}

/// Puts a position to a token in a field. An error changes nothing.
pub(crate) fn put_word(
    words: &mut HashMap<u64, Bucket>,
    alloc: Global,
    field: &[u8],
    token: &[u8],
    position: u64,
) -> Result<(), AllocError>
    ensures ok { OnOk result (Changes (with_position position) (is_same field.now (map to_ascii_lowercase token.now)) (kept_in words.old) (kept_in words.new)) }
    ensures err { OnErr result ((g s : List ℕ) → kept_in words.new g s ≡ kept_in words.old g s) }
{
    let key = key_of(field, token);
    if let Some(bucket) = words.get_mut(&key) {
        return bucket.put(alloc, field, token, position);
    }
    words.insert(key, Bucket::of(alloc, field, token, position)?)?;
    Ok(())
}

// Takes a position from a token in a field, and answers whether the words of its key have none left.
fn take_at(
    words: &mut HashMap<u64, Bucket>,
    key: u64,
    field: &[u8],
    token: &[u8],
    position: u64,
) -> bool
    requires { key ≡ key_of field.now (map to_ascii_lowercase token.now) }
    ensures changes { Changes (without_position position) (is_same field.now (map to_ascii_lowercase token.now)) (kept_in words.old) (kept_in words.new) }
    ensures spent { IsTrue result → (g s : List ℕ) → key_of g s ≡ key → kept_in words.new g s ≡ [] }
{
    match words.get_mut(&key) {
        Some(bucket) => {
            bucket.take_out(field, token, position);
            bucket.is_spent()
        }
        None => false,
    }
}

/// Takes a position from a token in a field. It takes no memory.
pub(crate) fn take_word(words: &mut HashMap<u64, Bucket>, field: &[u8], token: &[u8], position: u64)
    ensures { Changes (without_position position) (is_same field.now (map to_ascii_lowercase token.now)) (kept_in words.old) (kept_in words.new) }
{
    let key = key_of(field, token);
    if take_at(words, key, field, token, position) {
        words.remove(&key);
    }
}
