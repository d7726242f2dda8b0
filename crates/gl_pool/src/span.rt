// Free positions below the frontier, in spans, and what a claim takes of them.
ghost use Rattle.std.specs.Prelude.{◌≡◌, ◌+◌, ◌<◌, ◌≤◌, ℕ, false, true, fold, filter, map, min, max, length, nat_lt, vec_capacity, vec_len, IsNone, IfSome, find, None, Some, option_map, ◌==◌};
ghost use Rattle.std.specs.List.{position, remove};
ghost use Rattle.gl_pool.specs.Kept.{is_open, cut_at, spans_over};
ghost use Rattle.gl_pool.specs.Taking.{Takes};

use crate::mark::{Claim, Mark};

/// The positions from `first` on and before `end`.
#[derive(Clone, Copy)]
pub(crate) struct Span {
    pub(crate) first: u64,
    pub(crate) end: u64,
}

// The least position of the spans, or the frontier.
pub(crate) fn first_open(spans: &[Span], frontier: u64) -> u64
    ensures { result ≡ fold (λ least span. min least span.first) frontier spans.now }
{
    spans
        .iter()
        .fold(frontier, |least, span| least.min(span.first))
}

// The least position of the claims, or the limit.
pub(crate) fn first_claimed(claims: &[Claim], limit: u64) -> u64
    ensures { result ≡ fold (λ least claim. min least claim.mark.first) limit claims.now }
{
    claims
        .iter()
        .fold(limit, |least, claim| least.min(claim.mark.first))
}

// The range that a worker holds.
pub(crate) fn mark_of(claims: &[Claim], worker: u32) -> Option<Mark>
    ensures { result ≡ option_map (λ claim. claim.mark) (find (λ claim. claim.worker == worker) claims.now) }
{
    claims
        .iter()
        .find(|claim| claim.worker == worker)
        .map(|claim| claim.mark)
}

// Where the run of free positions ends that begins at `first`, below `limit` or at it.
pub(crate) fn run_end(spans: &[Span], frontier: u64, first: u64, limit: u64) -> u64
    requires { first ≤ limit }
    ensures from { first ≤ result }
    ensures within { result ≤ limit }
    ensures free { (p : ℕ) → first ≤ p → p < result → is_open frontier spans.now p ≡ true }
    ensures whole { result < limit → is_open frontier spans.now result ≡ false }
{
    let mut end = first;
    while end < limit {
        if end >= frontier {
            return limit;
        }
        let Some(further) = end_of_span(spans, end) else {
            return end;
        };
        end = further.min(limit);
    }
    end
}

// The end of the first span that has a position.
fn end_of_span(spans: &[Span], position: u64) -> Option<u64>
    ensures { result ≡ option_map (λ span. span.end) (find (spans_over position) spans.now) }
{
    spans
        .iter()
        .find(|span| span.first <= position && position < span.end)
        .map(|span| span.end)
}

// Takes all positions below `end` out of the spans.
pub(crate) fn cut(spans: &mut Vec<Span>, end: u64)
    ensures items { spans.new.items ≡ map (cut_at end) (filter (λ span. nat_lt end span.end) spans.old.items) }
    ensures fewer { vec_len spans.new ≤ vec_len spans.old }
    ensures capacity { vec_capacity spans.new ≡ vec_capacity spans.old }
{
    spans.retain(|span| end < span.end);
    for span in spans.iter_mut() {
        span.first = span.first.max(end);
    }
}

// The index of the claim of a worker.
fn place_of(held: &[Claim], worker: u32) -> Option<usize>
    ensures { result ≡ position (λ claim. claim.worker == worker) held.now }
{
    held.iter().position(|claim| claim.worker == worker)
}

// Takes the claim of a worker out, if there is one.
pub(crate) fn take(held: &mut Vec<Claim>, worker: u32) -> Option<Mark>
    ensures taken { Takes held.old.items held.new.items worker result }
    ensures fewer { IfSome result (λ _. vec_len held.new + 1 ≡ vec_len held.old) }
{
    let Some(at) = place_of(held.as_slice(), worker) else {
        return None;
    };
    let claim = held.remove(at);
    Some(claim.mark)
}
