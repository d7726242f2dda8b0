// The parts of the configuration of a new store.
ghost use Rattle.std.specs.Prelude.{◌≡◌, IfOk};
ghost use Rattle.gl_settings.specs.Settings.{initial_settings};

use crate::{Input, User};
use gl_base::{Items, Text};
use gl_fields::{InputKind, SetRule};
use gl_streams::Stream;
use std::alloc::{AllocError, Global};

/// The SHA-256 of `admin`.
const ADMIN_HASH: &str = "8c6976e5b5410415bde908bd4dee15dfb167a9c873fc4bb8a81f6f2ab448a918";

pub fn initial_inputs(alloc: Global) -> Result<Items<Input>, AllocError>
    ensures { IfOk result (λ inputs. inputs ≡ initial_settings.inputs) }
{
    let mut inputs = Items::with_capacity(alloc, 3)?;
    inputs.push(Input::new(alloc, "raw", InputKind::Raw)?)?;
    inputs.push(Input::new(alloc, "gelf", InputKind::Gelf)?)?;
    inputs.push(Input::new(alloc, "syslog", InputKind::Syslog)?)?;
    Ok(inputs)
}

pub fn initial_sets(alloc: Global) -> Result<Items<SetRule>, AllocError>
    ensures { IfOk result (λ sets. sets ≡ initial_settings.sets) }
{
    let mut sets = Items::with_capacity(alloc, 1)?;
    sets.push(SetRule {
        name: Text::from_str(alloc, "graylog")?,
        max_docs: 0,
        max_ms: 0,
        keep: 1,
    })?;
    Ok(sets)
}

pub fn initial_streams(alloc: Global) -> Result<Items<Stream>, AllocError>
    ensures { IfOk result (λ streams. streams ≡ initial_settings.streams) }
{
    let mut streams = Items::with_capacity(alloc, 1)?;
    streams.push(Stream {
        id: 1,
        name: Text::from_str(alloc, "Default")?,
        index_set: Text::from_str(alloc, "graylog")?,
        any: false,
        remove_from_default: false,
        paused: false,
        rules: Items::new(alloc),
    })?;
    Ok(streams)
}

pub fn initial_users(alloc: Global) -> Result<Items<User>, AllocError>
    ensures { IfOk result (λ users. users ≡ initial_settings.users) }
{
    let mut users = Items::with_capacity(alloc, 1)?;
    users.push(User {
        name: Text::from_str(alloc, "admin")?,
        token_sha256: Text::from_str(alloc, ADMIN_HASH)?,
        admin: true,
        streams: Items::new(alloc),
    })?;
    Ok(users)
}
