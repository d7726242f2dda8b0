// The commands on streams.
ghost use Rattle.std.specs.Prelude.{◌≡◌, ◌-◌, ◌<◌, ◌^◌, None, map, IfOk, IfErr, OnOk};
ghost use Rattle.gl_commands.specs.declared.command.Command.TheVariants.{CreateStream, SetStream};
ghost use Rattle.gl_settings.specs.Limits.{Refuses};
ghost use Rattle.gl_config.specs.Next.{stream_set, with_stream, with_setting, behind, changed};
ghost use Rattle.gl_config.specs.Applying.{stream_names, setting_names, stream_refusal, setting_refusal, Makes};

use crate::known::has_stream;
use crate::rules::{fields_are_named, rules_of};
use gl_base::{Items, Text};
use gl_commands::RuleParts;
use gl_settings::{ConfigRefusal, Parts, copies, has_name, is_title};
use gl_streams::{Stream, StreamRule};
use std::alloc::{AllocError, Global};

/// The id of the default stream.
const DEFAULT_STREAM: u64 = 1;

/// How a stream goes about messages. A new one isn't paused.
#[derive(Clone, Copy)]
pub struct Ways {
    pub any: bool,
    pub remove_from_default: bool,
    pub paused: bool,
}

fn refuse_stream(
    parts: &Parts,
    name: &Text,
    index_set: &Text,
    rules: &[RuleParts],
) -> Result<(), ConfigRefusal>
    ensures ok { OnOk result (stream_names parts.now name.now index_set.now rules.now ≡ None) }
    ensures err { IfErr result (Refuses (stream_names parts.now name.now index_set.now rules.now)) }
{
    if !is_title(name.as_str()) || !fields_are_named(rules) {
        return Err(ConfigRefusal::BadName);
    }
    if has_name(name.as_str(), parts.streams()) {
        return Err(ConfigRefusal::NameTaken);
    }
    if !has_name(index_set.as_str(), parts.sets()) {
        return Err(ConfigRefusal::UnknownName);
    }
    Ok(())
}

fn with_stream(
    parts: &Parts,
    alloc: Global,
    name: &Text,
    index_set: &Text,
    ways: Ways,
    rules: Items<StreamRule>,
) -> Result<Parts, AllocError>
    requires { parts.now.version < 2 ^ 64 - 1 }
    ensures { IfOk result (λ next. next ≡ behind parts.now (with_stream parts.now name.now index_set.now ways.any ways.remove_from_default rules)) }
{
    let mut streams = copies(alloc, parts.streams())?;
    streams.push(Stream {
        id: parts.streams().len() as u64 + 1,
        name: name.copy()?,
        index_set: index_set.copy()?,
        any: ways.any,
        remove_from_default: ways.remove_from_default,
        paused: false,
        rules,
    })?;
    parts.next()?.with_streams(alloc, streams)
}

/// A stream more.
#[tactic(auto, using(crate::proofs::Refusing::refuses_first, crate::proofs::Refusing::refuses_later, crate::proofs::Refusing::none_both))]
pub fn create_stream(
    parts: &Parts,
    alloc: Global,
    name: &Text,
    index_set: &Text,
    ways: Ways,
    rules: &[RuleParts],
) -> Result<Parts, ConfigRefusal>
    requires { parts.now.version < 2 ^ 64 - 1 }
    ensures ok { IfOk result (Makes (stream_refusal parts.now name.now index_set.now rules.now) (behind parts.now (changed parts.now (CreateStream name.now index_set.now ways.any ways.remove_from_default rules.now)))) }
    ensures err { IfErr result (Refuses (stream_refusal parts.now name.now index_set.now rules.now)) }
{
    refuse_stream(parts, name, index_set, rules)?;
    let rules = rules_of(alloc, rules)?;
    Ok(with_stream(parts, alloc, name, index_set, ways, rules)?)
}

fn refuse_setting(parts: &Parts, id: u64, rules: &[RuleParts]) -> Result<(), ConfigRefusal>
    ensures ok { OnOk result (setting_names parts.now id rules.now ≡ None) }
    ensures err { IfErr result (Refuses (setting_names parts.now id rules.now)) }
{
    if !fields_are_named(rules) {
        return Err(ConfigRefusal::BadName);
    }
    if id == DEFAULT_STREAM || !has_stream(parts, id) {
        return Err(ConfigRefusal::UnknownName);
    }
    Ok(())
}

fn copy_rules(alloc: Global, rules: &[StreamRule]) -> Result<Items<StreamRule>, AllocError>
    ensures { IfOk result (λ copies. copies ≡ rules.now) }
{
    let mut copies = Items::new(alloc);
    for rule in rules {
        copies.push(rule.copy()?)?;
    }
    Ok(copies)
}

/// The stream, set to other ways and rules if it has this id.
fn copy_with(
    alloc: Global,
    stream: &Stream,
    id: u64,
    ways: Ways,
    rules: &[StreamRule],
) -> Result<Stream, AllocError>
    ensures { IfOk result (λ s. s ≡ stream_set id ways.any ways.remove_from_default ways.paused rules.now stream.now) }
{
    if stream.id != id {
        return stream.copy(alloc);
    }
    Ok(Stream {
        id: stream.id,
        name: stream.name.copy()?,
        index_set: stream.index_set.copy()?,
        any: ways.any,
        remove_from_default: ways.remove_from_default,
        paused: ways.paused,
        rules: copy_rules(alloc, rules)?,
    })
}

fn copies_with(
    alloc: Global,
    streams: &[Stream],
    id: u64,
    ways: Ways,
    rules: &[StreamRule],
) -> Result<Items<Stream>, AllocError>
    ensures { IfOk result (λ copies. copies ≡ map (stream_set id ways.any ways.remove_from_default ways.paused rules.now) streams.now) }
{
    let mut copies = Items::new(alloc);
    for stream in streams {
        copies.push(copy_with(alloc, stream, id, ways, rules)?)?;
    }
    Ok(copies)
}

fn with_setting(
    parts: &Parts,
    alloc: Global,
    id: u64,
    ways: Ways,
    rules: &[StreamRule],
) -> Result<Parts, AllocError>
    requires { parts.now.version < 2 ^ 64 - 1 }
    ensures { IfOk result (λ next. next ≡ behind parts.now (with_setting parts.now id ways.any ways.remove_from_default ways.paused rules.now)) }
{
    let streams = copies_with(alloc, parts.streams(), id, ways, rules)?;
    parts.next()?.with_streams(alloc, streams)
}

/// Other ways and rules for a stream that is there; its name and its index set stay.
#[tactic(auto, using(crate::proofs::Refusing::refuses_first, crate::proofs::Refusing::refuses_later, crate::proofs::Refusing::none_both))]
pub fn set_stream(
    parts: &Parts,
    alloc: Global,
    id: u64,
    ways: Ways,
    rules: &[RuleParts],
) -> Result<Parts, ConfigRefusal>
    requires { parts.now.version < 2 ^ 64 - 1 }
    ensures ok { IfOk result (Makes (setting_refusal parts.now id rules.now) (behind parts.now (changed parts.now (SetStream id ways.any ways.remove_from_default ways.paused rules.now)))) }
    ensures err { IfErr result (Refuses (setting_refusal parts.now id rules.now)) }
{
    refuse_setting(parts, id, rules)?;
    let rules = rules_of(alloc, rules)?;
    Ok(with_setting(parts, alloc, id, ways, rules.as_slice())?)
}
