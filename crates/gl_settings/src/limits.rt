// What a configuration has at most.
ghost use Rattle.std.specs.Prelude.{◌≡◌, None, length, map, OnOk, IfErr};
ghost use Rattle.gl_settings.specs.Limits.{most, counted, counted_last, first_passed, budget_refusal, limit_of, Refuses};
ghost use Rattle.gl_settings.specs.Patterns.{patterns_of};

use crate::patterns::bytes_of;
use crate::{Bound, ConfigRefusal, Input, Parts};
use gl_base::{Items, Text};
use gl_streams::Stream;
use std::alloc::Global;

/// The bytes of all patterns, at most.
const MAX_PATTERN_BYTES: u64 = 65_536;

/// The rules of the stream that has the most.
fn most_rules(streams: &[Stream]) -> usize
    ensures { result ≡ most (map (λ stream. length stream.rules) streams.now) }
{
    let mut most = 0;
    for stream in streams {
        most = most.max(stream.rules.len());
    }
    most
}

/// The extractors of the input that has the most.
fn most_extractors(inputs: &[Input]) -> usize
    ensures { result ≡ most (map (λ input. length input.extractors) inputs.now) }
{
    let mut most = 0;
    for input in inputs {
        most = most.max(input.extractors.len());
    }
    most
}

/// The pipelines of the stream that is connected to the most.
fn most_connected(connections: &[(u64, Items<Text>)]) -> usize
    ensures { result ≡ most (map (λ connection. length connection.1) connections.now) }
{
    let mut most = 0;
    for connection in connections {
        most = most.max(connection.1.len());
    }
    most
}

/// Of each bound, how many there may be and how many there are.
fn counted(parts: &Parts) -> [(Bound, u64, u64); 10]
    ensures { result ≡ counted parts.now }
{
    [
        (Bound::Inputs, 32, parts.inputs().len() as u64),
        (Bound::IndexSets, 16, parts.sets().len() as u64),
        (Bound::Streams, 128, parts.streams().len() as u64),
        (Bound::StreamRules, 32, most_rules(parts.streams()) as u64),
        (Bound::Rules, 256, parts.rules().len() as u64),
        (Bound::Pipelines, 64, parts.pipelines().len() as u64),
        (Bound::Lookups, 16, parts.lookups().len() as u64),
        (Bound::Groks, 128, parts.groks().len() as u64),
        (Bound::Users, 256, parts.users().len() as u64),
        (
            Bound::Extractors,
            32,
            most_extractors(parts.inputs()) as u64,
        ),
    ]
}

/// Those that are looked at behind these.
fn counted_last(parts: &Parts, patterns: &[Text]) -> [(Bound, u64, u64); 2]
    requires { patterns.now ≡ patterns_of parts.now }
    ensures { result ≡ counted_last parts.now }
{
    [
        (Bound::Patterns, 64, patterns.len() as u64),
        (
            Bound::Connected,
            64,
            most_connected(parts.connections()) as u64,
        ),
    ]
}

/// The first of these bounds that is passed.
fn first_passed(bounds: &[(Bound, u64, u64)]) -> Option<ConfigRefusal>
    ensures { result ≡ first_passed bounds.now }
{
    bounds
        .iter()
        .find(|bound| bound.1 < bound.2)
        .map(|bound| ConfigRefusal::Limit {
            which: bound.0,
            limit: bound.1,
        })
}

/// Whether so many bytes of patterns are too many.
fn budget_refusal(sum: u64) -> Option<ConfigRefusal>
    ensures { result ≡ budget_refusal sum }
{
    if sum > MAX_PATTERN_BYTES {
        return Some(ConfigRefusal::Budget {
            sum,
            limit: MAX_PATTERN_BYTES,
        });
    }
    None
}

/// The first bound that the configuration passes, and else the budget, are its refusal.
pub fn within_limits(parts: &Parts, alloc: Global) -> Result<(), ConfigRefusal>
    ensures ok { OnOk result (limit_of parts.now ≡ None) }
    ensures err { IfErr result (Refuses (limit_of parts.now)) }
{
    if let Some(refusal) = first_passed(&counted(parts)) {
        return Err(refusal);
    }
    let patterns = parts.patterns(alloc)?;
    if let Some(refusal) = first_passed(&counted_last(parts, patterns.as_slice())) {
        return Err(refusal);
    }
    let Some(sum) = bytes_of(patterns.as_slice()) else {
        return Err(ConfigRefusal::OutOfMemory);
    };
    if let Some(refusal) = budget_refusal(sum) {
        return Err(refusal);
    }
    Ok(())
}
