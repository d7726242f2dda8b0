// The command of a value's keys.
ghost use Rattle.std.specs.Prelude.{◌≡◌, drop, IfOk};
ghost use Rattle.serde_json.specs.View.{view};
ghost use Rattle.gl_commands.specs.Texts.{command_data};
ghost use Rattle.gl_commands.specs.CommandReading.{of_kind, command_kinds, input_in, extractors_in, index_set_in, stream_in, setting_in, connection_in, table_parts, grok_parts, user_parts, keys_in, width, Reads};

use crate::Command;
use crate::extractors::extractors_at;
use crate::keys::{bool_at, id_at, key_count, kind_at, number_at, str_at, text_at};
use crate::lists::{ids_at, texts_at};
use crate::rules::rules_at;
use crate::unread::Unread;
use gl_base::{Items, Text};
use serde_json::Value;
use std::alloc::{AllocError, Global};

/// The command of a value's keys, however long its text is. `None` where it is the value of none.
pub fn keys_from(alloc: Global, value: &Value) -> Result<Option<Command>, AllocError>
    ensures { IfOk result (λ found. found ≡ keys_in (view value.now)) }
{
    match command_from(alloc, value) {
        Ok(command) => Ok(Some(command)),
        Err(Unread::Other) => Ok(None),
        Err(Unread::OutOfMemory) => Err(AllocError),
    }
}

#[tactic(auto, unfolding(crate::specs::CommandReading::keys_in))]
fn command_from(alloc: Global, value: &Value) -> Result<Command, Unread>
    ensures { Reads result (keys_in (view value.now)) }
{
    let kind = str_at(value, "kind").ok_or(Unread::Other)?;
    let command = of_kind(alloc, kind, value)?;
    if key_count(value) != command_keys(&command) {
        return Err(Unread::Other);
    }
    Ok(command)
}

/// How many keys the object of a command has.
#[tactic(auto, unfolding(crate::specs::Texts::command_data))]
fn command_keys(command: &Command) -> usize
    ensures { result ≡ width (command_data command.now) }
{
    match command {
        Command::CreateRule { .. }
        | Command::SetRule { .. }
        | Command::CreatePipeline { .. }
        | Command::SetPipeline { .. } => 2,
        Command::CreateInput { .. }
        | Command::SetExtractors { .. }
        | Command::Connect { .. }
        | Command::CreateGrok { .. }
        | Command::SetGrok { .. } => 3,
        Command::CreateIndexSet { .. }
        | Command::CreateLookup { .. }
        | Command::SetLookup { .. }
        | Command::CreateUser { .. }
        | Command::SetUser { .. } => 5,
        Command::CreateStream { .. } | Command::SetStream { .. } => 6,
    }
}

fn of_kind(alloc: Global, kind: &str, value: &Value) -> Result<Command, Unread>
    ensures { Reads result (of_kind command_kinds (view value.now) kind.now) }
{
    match kind {
        "create_input" => input_from(alloc, value),
        "set_extractors" => extractors_from(alloc, value),
        "create_index_set" => index_set_from(alloc, value),
        "create_stream" => stream_from(alloc, value),
        "set_stream" => setting_from(alloc, value),
        _ => of_source_kind(alloc, kind, value),
    }
}

fn of_source_kind(alloc: Global, kind: &str, value: &Value) -> Result<Command, Unread>
    ensures { Reads result (of_kind (drop 5 command_kinds) (view value.now) kind.now) }
{
    match kind {
        "create_rule" => Ok(Command::CreateRule {
            source: text_at(alloc, value, "source")?,
        }),
        "set_rule" => Ok(Command::SetRule {
            source: text_at(alloc, value, "source")?,
        }),
        "create_pipeline" => Ok(Command::CreatePipeline {
            source: text_at(alloc, value, "source")?,
        }),
        "set_pipeline" => Ok(Command::SetPipeline {
            source: text_at(alloc, value, "source")?,
        }),
        _ => of_table_kind(alloc, kind, value),
    }
}

fn of_table_kind(alloc: Global, kind: &str, value: &Value) -> Result<Command, Unread>
    ensures { Reads result (of_kind (drop 9 command_kinds) (view value.now) kind.now) }
{
    match kind {
        "connect" => connection_from(alloc, value),
        "create_lookup" => {
            let (name, csv, key, value) = table_parts(alloc, value)?;
            Ok(Command::CreateLookup {
                name,
                csv,
                key,
                value,
            })
        }
        "set_lookup" => {
            let (name, csv, key, value) = table_parts(alloc, value)?;
            Ok(Command::SetLookup {
                name,
                csv,
                key,
                value,
            })
        }
        _ => of_last_kind(alloc, kind, value),
    }
}

fn of_last_kind(alloc: Global, kind: &str, value: &Value) -> Result<Command, Unread>
    ensures { Reads result (of_kind (drop 12 command_kinds) (view value.now) kind.now) }
{
    match kind {
        "create_grok" => {
            let (name, pattern) = grok_parts(alloc, value)?;
            Ok(Command::CreateGrok { name, pattern })
        }
        "set_grok" => {
            let (name, pattern) = grok_parts(alloc, value)?;
            Ok(Command::SetGrok { name, pattern })
        }
        "create_user" => {
            let (name, token_sha256, admin, streams) = user_parts(alloc, value)?;
            Ok(Command::CreateUser {
                name,
                token_sha256,
                admin,
                streams,
            })
        }
        "set_user" => {
            let (name, token_sha256, admin, streams) = user_parts(alloc, value)?;
            Ok(Command::SetUser {
                name,
                token_sha256,
                admin,
                streams,
            })
        }
        _ => Err(Unread::Other),
    }
}

#[tactic(auto, unfolding(crate::specs::CommandReading::input_in))]
fn input_from(alloc: Global, value: &Value) -> Result<Command, Unread>
    ensures { Reads result (input_in (view value.now)) }
{
    Ok(Command::CreateInput {
        name: text_at(alloc, value, "name")?,
        kind: kind_at(value, "type")?,
    })
}

#[tactic(auto, unfolding(crate::specs::CommandReading::extractors_in))]
fn extractors_from(alloc: Global, value: &Value) -> Result<Command, Unread>
    ensures { Reads result (extractors_in (view value.now)) }
{
    Ok(Command::SetExtractors {
        input: text_at(alloc, value, "input")?,
        extractors: extractors_at(alloc, value)?,
    })
}

#[tactic(auto, unfolding(crate::specs::CommandReading::index_set_in))]
fn index_set_from(alloc: Global, value: &Value) -> Result<Command, Unread>
    ensures { Reads result (index_set_in (view value.now)) }
{
    Ok(Command::CreateIndexSet {
        name: text_at(alloc, value, "name")?,
        max_docs: number_at(value, "max_docs")?,
        max_ms: number_at(value, "max_ms")?,
        keep: number_at(value, "keep")?,
    })
}

#[tactic(auto, unfolding(crate::specs::CommandReading::stream_in))]
fn stream_from(alloc: Global, value: &Value) -> Result<Command, Unread>
    ensures { Reads result (stream_in (view value.now)) }
{
    Ok(Command::CreateStream {
        name: text_at(alloc, value, "name")?,
        index_set: text_at(alloc, value, "index_set")?,
        any: bool_at(value, "any")?,
        remove_from_default: bool_at(value, "remove_from_default")?,
        rules: rules_at(alloc, value)?,
    })
}

#[tactic(auto, unfolding(crate::specs::CommandReading::setting_in))]
fn setting_from(alloc: Global, value: &Value) -> Result<Command, Unread>
    ensures { Reads result (setting_in (view value.now)) }
{
    Ok(Command::SetStream {
        id: id_at(value, "id")?,
        any: bool_at(value, "any")?,
        remove_from_default: bool_at(value, "remove_from_default")?,
        paused: bool_at(value, "paused")?,
        rules: rules_at(alloc, value)?,
    })
}

#[tactic(auto, unfolding(crate::specs::CommandReading::connection_in))]
fn connection_from(alloc: Global, value: &Value) -> Result<Command, Unread>
    ensures { Reads result (connection_in (view value.now)) }
{
    Ok(Command::Connect {
        stream: id_at(value, "stream")?,
        pipelines: texts_at(alloc, value, "pipelines")?,
    })
}

/// Name, text, key's column and value's column.
#[tactic(auto, unfolding(crate::specs::CommandReading::table_parts))]
fn table_parts(alloc: Global, value: &Value) -> Result<(Text, Text, Text, Text), Unread>
    ensures { Reads result (table_parts (view value.now)) }
{
    let name = text_at(alloc, value, "name")?;
    let csv = text_at(alloc, value, "csv")?;
    let key = text_at(alloc, value, "key")?;
    let column = text_at(alloc, value, "value")?;
    Ok((name, csv, key, column))
}

/// Name and pattern.
#[tactic(auto, unfolding(crate::specs::CommandReading::grok_parts))]
fn grok_parts(alloc: Global, value: &Value) -> Result<(Text, Text), Unread>
    ensures { Reads result (grok_parts (view value.now)) }
{
    let name = text_at(alloc, value, "name")?;
    let pattern = text_at(alloc, value, "pattern")?;
    Ok((name, pattern))
}

/// Name, hash of the token, whether it is an administrator, and streams.
#[tactic(auto, unfolding(crate::specs::CommandReading::user_parts))]
fn user_parts(alloc: Global, value: &Value) -> Result<(Text, Text, bool, Items<u64>), Unread>
    ensures { Reads result (user_parts (view value.now)) }
{
    let name = text_at(alloc, value, "name")?;
    let token_sha256 = text_at(alloc, value, "token_sha256")?;
    let admin = bool_at(value, "admin")?;
    let streams = ids_at(alloc, value, "streams")?;
    Ok((name, token_sha256, admin, streams))
}
