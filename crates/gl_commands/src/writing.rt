// The value of a command. The keys of each object stand in the order of their bytes.
ghost use Rattle.std.specs.Prelude.{◌≡◌, IfOk};
ghost use Rattle.serde_json.specs.Data.{string};
ghost use Rattle.serde_json.specs.View.{view};
ghost use Rattle.gl_commands.specs.declared.command.Command.TheVariants.{CreateInput, SetExtractors, CreateIndexSet, CreateStream, SetStream, Connect};
ghost use Rattle.gl_commands.specs.Texts.{command_data, keyed, list_data, id_data, source_keys, lookup_keys, grok_keys, user_keys};

use crate::extractor_values::extractors_value;
use crate::names::kind_name;
use crate::rules::rules_value;
use crate::{Command, RuleParts};
use gl_base::Text;
use gl_extract::ExtractorParts;
use gl_fields::InputKind;
use gl_text::id_text;
use serde_json::{Value, json};
use std::alloc::{AllocError, Global};

#[tactic(auto, unfolding(crate::specs::Texts::command_data))]
pub fn command_value(alloc: Global, command: &Command) -> Result<Value, AllocError>
    ensures { IfOk result (λ v. view v ≡ command_data command.now) }
{
    match command {
        Command::CreateInput { name, kind } => input_value(alloc, name, *kind),
        Command::SetExtractors { input, extractors } => {
            input_extractors_value(alloc, input, extractors.as_slice())
        }
        Command::CreateIndexSet {
            name,
            max_docs,
            max_ms,
            keep,
        } => index_set_value(alloc, name, *max_docs, *max_ms, *keep),
        Command::CreateStream {
            name,
            index_set,
            any,
            remove_from_default,
            rules,
        } => stream_value(
            alloc,
            name,
            index_set,
            *any,
            *remove_from_default,
            rules.as_slice(),
        ),
        Command::SetStream {
            id,
            any,
            remove_from_default,
            paused,
            rules,
        } => setting_value(
            alloc,
            *id,
            *any,
            *remove_from_default,
            *paused,
            rules.as_slice(),
        ),
        Command::CreateRule { source } => source_value(alloc, "create_rule", source),
        Command::SetRule { source } => source_value(alloc, "set_rule", source),
        Command::CreatePipeline { source } => source_value(alloc, "create_pipeline", source),
        Command::SetPipeline { source } => source_value(alloc, "set_pipeline", source),
        Command::Connect { stream, pipelines } => {
            connection_value(alloc, *stream, pipelines.as_slice())
        }
        Command::CreateLookup {
            name,
            csv,
            key,
            value,
        } => table_value(alloc, "create_lookup", name, csv, key, value),
        Command::SetLookup {
            name,
            csv,
            key,
            value,
        } => table_value(alloc, "set_lookup", name, csv, key, value),
        Command::CreateGrok { name, pattern } => grok_value(alloc, "create_grok", name, pattern),
        Command::SetGrok { name, pattern } => grok_value(alloc, "set_grok", name, pattern),
        Command::CreateUser {
            name,
            token_sha256,
            admin,
            streams,
        } => user_value(
            alloc,
            "create_user",
            name,
            token_sha256,
            *admin,
            streams.as_slice(),
        ),
        Command::SetUser {
            name,
            token_sha256,
            admin,
            streams,
        } => user_value(
            alloc,
            "set_user",
            name,
            token_sha256,
            *admin,
            streams.as_slice(),
        ),
    }
}

#[tactic(auto, unfolding(crate::specs::Texts::command_data))]
fn input_value(alloc: Global, name: &Text, kind: InputKind) -> Result<Value, AllocError>
    ensures { IfOk result (λ v. view v ≡ command_data (CreateInput name.now kind)) }
{
    json!(in alloc; {
        "kind": "create_input",
        "name": name.as_str(),
        "type": kind_name(kind)
    })
}

#[tactic(auto, unfolding(crate::specs::Texts::command_data))]
fn input_extractors_value(
    alloc: Global,
    input: &Text,
    extractors: &[ExtractorParts],
) -> Result<Value, AllocError>
    ensures { IfOk result (λ v. view v ≡ command_data (SetExtractors input.now extractors.now)) }
{
    json!(in alloc; {
        "extractors": extractors_value(alloc, extractors)?,
        "input": input.as_str(),
        "kind": "set_extractors"
    })
}

#[tactic(auto, unfolding(crate::specs::Texts::command_data))]
fn index_set_value(
    alloc: Global,
    name: &Text,
    max_docs: u64,
    max_ms: u64,
    keep: u64,
) -> Result<Value, AllocError>
    ensures { IfOk result (λ v. view v ≡ command_data (CreateIndexSet name.now max_docs max_ms keep)) }
{
    json!(in alloc; {
        "keep": keep,
        "kind": "create_index_set",
        "max_docs": max_docs,
        "max_ms": max_ms,
        "name": name.as_str()
    })
}

#[tactic(auto, unfolding(crate::specs::Texts::command_data))]
fn stream_value(
    alloc: Global,
    name: &Text,
    index_set: &Text,
    any: bool,
    remove_from_default: bool,
    rules: &[RuleParts],
) -> Result<Value, AllocError>
    ensures { IfOk result (λ v. view v ≡ command_data (CreateStream name.now index_set.now any remove_from_default rules.now)) }
{
    json!(in alloc; {
        "any": any,
        "index_set": index_set.as_str(),
        "kind": "create_stream",
        "name": name.as_str(),
        "remove_from_default": remove_from_default,
        "rules": rules_value(alloc, rules)?
    })
}

#[tactic(auto, unfolding(crate::specs::Texts::command_data))]
fn setting_value(
    alloc: Global,
    id: u64,
    any: bool,
    remove_from_default: bool,
    paused: bool,
    rules: &[RuleParts],
) -> Result<Value, AllocError>
    ensures { IfOk result (λ v. view v ≡ command_data (SetStream id any remove_from_default paused rules.now)) }
{
    json!(in alloc; {
        "any": any,
        "id": id_value(alloc, id)?,
        "kind": "set_stream",
        "paused": paused,
        "remove_from_default": remove_from_default,
        "rules": rules_value(alloc, rules)?
    })
}

fn source_value(alloc: Global, kind: &str, source: &Text) -> Result<Value, AllocError>
    ensures { IfOk result (λ v. view v ≡ keyed (source_keys kind.now source.now)) }
{
    json!(in alloc; {
        "kind": kind,
        "source": source.as_str()
    })
}

#[tactic(auto, unfolding(crate::specs::Texts::command_data))]
fn connection_value(alloc: Global, stream: u64, pipelines: &[Text]) -> Result<Value, AllocError>
    ensures { IfOk result (λ v. view v ≡ command_data (Connect stream pipelines.now)) }
{
    json!(in alloc; {
        "kind": "connect",
        "pipelines": texts_value(alloc, pipelines)?,
        "stream": id_value(alloc, stream)?
    })
}

fn table_value(
    alloc: Global,
    kind: &str,
    name: &Text,
    csv: &Text,
    key: &Text,
    value: &Text,
) -> Result<Value, AllocError>
    ensures { IfOk result (λ v. view v ≡ keyed (lookup_keys kind.now name.now csv.now key.now value.now)) }
{
    json!(in alloc; {
        "csv": csv.as_str(),
        "key": key.as_str(),
        "kind": kind,
        "name": name.as_str(),
        "value": value.as_str()
    })
}

fn grok_value(alloc: Global, kind: &str, name: &Text, pattern: &Text) -> Result<Value, AllocError>
    ensures { IfOk result (λ v. view v ≡ keyed (grok_keys kind.now name.now pattern.now)) }
{
    json!(in alloc; {
        "kind": kind,
        "name": name.as_str(),
        "pattern": pattern.as_str()
    })
}

fn user_value(
    alloc: Global,
    kind: &str,
    name: &Text,
    token_sha256: &Text,
    admin: bool,
    streams: &[u64],
) -> Result<Value, AllocError>
    ensures { IfOk result (λ v. view v ≡ keyed (user_keys kind.now name.now token_sha256.now admin streams.now)) }
{
    json!(in alloc; {
        "admin": admin,
        "kind": kind,
        "name": name.as_str(),
        "streams": ids_value(alloc, streams)?,
        "token_sha256": token_sha256.as_str()
    })
}

fn texts_value(alloc: Global, texts: &[Text]) -> Result<Value, AllocError>
    ensures { IfOk result (λ v. view v ≡ list_data string texts.now) }
{
    let mut values = Vec::with_capacity(alloc, texts.len())?;
    for text in texts {
        values.push(Value::String(String::from_str(alloc, text.as_str())?))?;
    }
    Ok(Value::Array(values))
}

fn ids_value(alloc: Global, ids: &[u64]) -> Result<Value, AllocError>
    ensures { IfOk result (λ v. view v ≡ list_data id_data ids.now) }
{
    let mut values = Vec::with_capacity(alloc, ids.len())?;
    for id in ids {
        values.push(id_value(alloc, *id)?)?;
    }
    Ok(Value::Array(values))
}

fn id_value(alloc: Global, id: u64) -> Result<Value, AllocError>
    ensures { IfOk result (λ v. view v ≡ id_data id) }
{
    let text = id_text(alloc, id)?;
    json!(in alloc; text.as_str())
}
