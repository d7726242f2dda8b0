// Streams: what rules hold of fields, and to which streams they go.

ghost use Rattle.std.specs.Prelude.{◌≡◌};
ghost use Rattle.gl_streams.specs.Matching.{pattern_of};

use crate::desk::Desk;
use crate::patterns;
use gl_base::{Items, Text};
use gl_fields::FieldMap;
use gl_patterns::{Pattern, RegexShop};
use gl_rows::{Row, fields_of, push_truth, whole};
use gl_streams::{Stream, StreamRule, Test, matches, streams_of};
use std::alloc::{AllocError, Global};
use std::fmt::Write;

pub fn answer(
    alloc: Global,
    row: &Row,
    desk: &mut Desk,
    out: &mut String,
) -> Result<(), AllocError> {
    match row.text(0) {
        "fields" => {
            desk.fields = fields_of(alloc, row, out)?;
            Ok(())
        }
        "rule" => rule(alloc, row, &desk.fields, out),
        "no-streams" => {
            desk.streams = Vec::new(alloc);
            Ok(())
        }
        "stream" => stream(alloc, row, &mut desk.streams),
        "goes" => goes(alloc, desk, out),
        _ => out.push_str("no such subject"),
    }
}

/// The test that a word writes, its argument behind a space.
fn test_of(alloc: Global, word: &str) -> Result<Test, AllocError> {
    let (name, argument) = word.split_once(' ').unwrap_or((word, ""));
    match name {
        "exact" => Ok(Test::Exact(Text::from_str(alloc, argument)?)),
        "regex" => Ok(Test::Regex(Text::from_str(alloc, argument)?)),
        "greater" => Ok(Test::Greater(whole(argument))),
        "smaller" => Ok(Test::Smaller(whole(argument))),
        "presence" => Ok(Test::Presence),
        "contains" => Ok(Test::Contains(Text::from_str(alloc, argument)?)),
        _ => Ok(Test::Always),
    }
}

/// Whether a rule holds of fields, with the pattern that was built for its test.
fn is_held_with(
    rule: &StreamRule,
    built: Option<Pattern>,
    fields: &FieldMap,
) -> Result<bool, AllocError>
    requires { built ≡ pattern_of rule.now.test }
{
    match built {
        Some(pattern) => {
            let mut pattern = pattern;
            matches(rule, Some(&mut pattern), fields)
        }
        None => matches(rule, None, fields),
    }
}

/// Whether a rule holds of fields, or nothing where its pattern is none.
fn is_held(
    alloc: Global,
    rule: &StreamRule,
    fields: &FieldMap,
) -> Result<Option<bool>, AllocError> {
    let mut shop = RegexShop::new(alloc);
    match patterns::of_test(&mut shop, &rule.test) {
        Ok(built) => Ok(Some(is_held_with(rule, built, fields)?)),
        Err(_) => Ok(None),
    }
}

fn push_held(
    alloc: Global,
    rule: &StreamRule,
    fields: &FieldMap,
    out: &mut String,
) -> Result<(), AllocError> {
    match is_held(alloc, rule, fields)? {
        Some(truth) => push_truth(out, truth),
        None => out.push_str("no pattern"),
    }
}

/// Whether the rule of a row holds of fields, and whether the inverted one does.
pub fn rule(
    alloc: Global,
    row: &Row,
    fields: &FieldMap,
    out: &mut String,
) -> Result<(), AllocError> {
    let mut rule = StreamRule {
        field: Text::from_str(alloc, row.text(1))?,
        test: test_of(alloc, row.text(2))?,
        inverted: false,
    };
    push_held(alloc, &rule, fields, out)?;
    out.push_str(", inverted ")?;
    rule.inverted = true;
    push_held(alloc, &rule, fields, out)
}

/// The rules on the field `f` that the words of a row write, from the fourth on.
fn rules_of(alloc: Global, row: &Row) -> Result<Items<StreamRule>, AllocError> {
    let mut rules = Items::new(alloc);
    for index in 3..row.len() {
        rules.push(StreamRule {
            field: Text::from_str(alloc, "f")?,
            test: test_of(alloc, row.text(index))?,
            inverted: false,
        })?;
    }
    Ok(rules)
}

/// Puts a stream down, of an id, and of flags parted by spaces.
fn stream(alloc: Global, row: &Row, streams: &mut Vec<Stream>) -> Result<(), AllocError> {
    let flags = row.text(2);
    streams.push(Stream {
        id: row.number(1),
        name: Text::from_str(alloc, "stream")?,
        index_set: Text::from_str(alloc, "default")?,
        any: flags.contains("any"),
        remove_from_default: flags.contains("removes"),
        paused: flags.contains("paused"),
        rules: rules_of(alloc, row)?,
    })?;
    Ok(())
}

fn push_ids(out: &mut String, ids: &[u64]) -> Result<(), AllocError> {
    for (i, id) in ids.iter().enumerate() {
        if i > 0 {
            out.push(' ')?;
        }
        write!(out, "{id}")?;
    }
    out.push('\n')
}

/// The streams to which the fields go, asked twice with the same patterns.
fn goes(alloc: Global, desk: &Desk, out: &mut String) -> Result<(), AllocError> {
    let streams = desk.streams.as_slice();
    match patterns::of_streams(alloc, streams) {
        Ok(patterns) => {
            let mut patterns = patterns;
            let first = streams_of(alloc, streams, &mut patterns, &desk.fields)?;
            push_ids(out, first.as_slice())?;
            let second = streams_of(alloc, streams, &mut patterns, &desk.fields)?;
            push_ids(out, second.as_slice())
        }
        Err(_) => out.push_str("no pattern"),
    }
}
