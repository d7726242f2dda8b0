// From rules to streams, and from streams to the ids of those that match.
ghost use Rattle.std.specs.Prelude.{◌≡◌, map, IfOk};
ghost use Rattle.std.specs.List.{list_all, list_any};
ghost use Rattle.gl_streams.specs.Matching.{rule_holds, rules_hold, stream_matches, patterns_of, Fits};
ghost use Rattle.gl_streams.specs.Ids.{streams_of};

use crate::ids::put;
use crate::passing::rule_matches;
use crate::patterns::StreamPatterns;
use crate::stream::{Stream, StreamRule};
use gl_fields::FieldMap;
use gl_patterns::Pattern;
use std::alloc::{AllocError, Global};

// The stream to which a message goes unless one that matches removes it.
const DEFAULT_STREAM: u64 = 1;

fn one_holds(
    rules: &[StreamRule],
    patterns: &mut [Option<Pattern>],
    fields: &FieldMap,
) -> Result<bool, AllocError>
    requires { patterns.old ≡ patterns_of rules.now }
    ensures value { IfOk result (λ yes. yes ≡ list_any (λ rule. rule_holds rule fields.now) rules.now) }
    ensures same { patterns.new ≡ patterns.old }
{
    for (i, rule) in rules.iter().enumerate() {
        if rule_matches(rule, &mut patterns[i], fields)? {
            return Ok(true);
        }
    }
    Ok(false)
}

fn all_hold(
    rules: &[StreamRule],
    patterns: &mut [Option<Pattern>],
    fields: &FieldMap,
) -> Result<bool, AllocError>
    requires { patterns.old ≡ patterns_of rules.now }
    ensures value { IfOk result (λ yes. yes ≡ list_all (λ rule. rule_holds rule fields.now) rules.now) }
    ensures same { patterns.new ≡ patterns.old }
{
    for (i, rule) in rules.iter().enumerate() {
        if !rule_matches(rule, &mut patterns[i], fields)? {
            return Ok(false);
        }
    }
    Ok(true)
}

// Whether a message goes to a stream.
fn stream_matches(
    stream: &Stream,
    patterns: &mut [Option<Pattern>],
    fields: &FieldMap,
) -> Result<bool, AllocError>
    requires { patterns.old ≡ patterns_of stream.now.rules }
    ensures value { IfOk result (λ yes. yes ≡ stream_matches stream.now fields.now) }
    ensures same { patterns.new ≡ patterns.old }
{
    if stream.paused || stream.rules.is_empty() {
        return Ok(false);
    }
    let rules = stream.rules.as_slice();
    if stream.any {
        one_holds(rules, patterns, fields)
    } else {
        all_hold(rules, patterns, fields)
    }
}

fn gather(
    alloc: Global,
    streams: &[Stream],
    patterns: &mut [Vec<Option<Pattern>>],
    fields: &FieldMap,
) -> Result<Vec<u64>, AllocError>
    requires { Fits streams.now (map (λ own. own.items) patterns.old) }
    ensures value { IfOk result (λ ids. ids.items ≡ streams_of streams.now fields.now) }
    ensures same { map (λ own. own.items) patterns.new ≡ map (λ own. own.items) patterns.old }
{
    let mut ids = Vec::new(alloc);
    let mut removes = false;
    for (i, stream) in streams.iter().enumerate() {
        if !stream_matches(stream, patterns[i].as_mut_slice(), fields)? {
            continue;
        }
        put(&mut ids, stream.id)?;
        removes |= stream.remove_from_default;
    }
    if removes {
        return Ok(ids);
    }
    put(&mut ids, DEFAULT_STREAM)?;
    Ok(ids)
}

/// The ids of the streams to which a message with these fields goes, in rising order: those of the streams that
/// match, and 1, the default stream's, unless one that matches removes the message from it.
///
/// The patterns are those of the streams' rules, each at its rule's place; they are as before.
pub fn streams_of(
    alloc: Global,
    streams: &[Stream],
    patterns: &mut StreamPatterns,
    fields: &FieldMap,
) -> Result<Vec<u64>, AllocError>
    requires { Fits streams.now patterns.old }
    ensures value { IfOk result (λ ids. ids.items ≡ streams_of streams.now fields.now) }
    ensures same { patterns.new ≡ patterns.old }
{
    gather(alloc, streams, patterns.patterns.as_mut_slice(), fields)
}
