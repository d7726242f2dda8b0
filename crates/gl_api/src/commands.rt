// What the body of a command says.
ghost use Rattle.std.specs.Prelude.{◌≡◌, codes, option_copied, option_and_then, IfOk};
ghost use Rattle.serde_json.specs.Find.{as_number, as_u64, get};
ghost use Rattle.serde_json.specs.View.{view};
ghost use Rattle.gl_commands.specs.CommandReading.{command_of};
ghost use Rattle.gl_api.specs.Commands.{commanding_of, member_count, wanted_in, wanted_of};

use gl_bodies::{Reply, admin_only_reply, bad_body_reply, unknown_token_reply};
use gl_commands::{Command, command_from};
use gl_settings::User;
use serde_json::Value;
use std::alloc::{AllocError, Global};

/// A command, and the version of the configuration that it was meant for.
#[derive(Drop)]
pub struct Wanted {
    pub version: u64,
    pub command: Command,
}

/// What a caller of `/api/commands` asks for.
#[derive(Drop)]
pub enum Commanding {
    Asked(Wanted),
    /// The caller is answered at once.
    Answered(Reply),
}

/// Reads what a caller asks for: 401 where no user has the caller's token, 403 where that is no administrator, 400 where the
/// body isn't an object of just a version and a command.
pub fn commanding_of(
    alloc: Global,
    caller: Option<&User>,
    body: &[u8],
) -> Result<Commanding, AllocError>
    ensures { IfOk result (λ commanding. commanding ≡ commanding_of (option_copied caller.entry) body.now) }
{
    match caller {
        None => Ok(Commanding::Answered(unknown_token_reply(alloc)?)),
        Some(user) => {
            if !user.admin {
                return Ok(Commanding::Answered(admin_only_reply(alloc)?));
            }
            match wanted_in(alloc, body)? {
                Some(wanted) => Ok(Commanding::Asked(wanted)),
                None => Ok(Commanding::Answered(bad_body_reply(alloc)?)),
            }
        }
    }
}

#[tactic(auto, unfolding(crate::specs::Commands::wanted_in))]
fn wanted_in(alloc: Global, body: &[u8]) -> Result<Option<Wanted>, AllocError>
    ensures { IfOk result (λ wanted. wanted ≡ wanted_in body.now) }
{
    match Value::from_slice(alloc, body) {
        Ok(value) => wanted_of(alloc, &value),
        Err(error) => {
            if error.is_memory() {
                return Err(AllocError);
            }
            Ok(None)
        }
    }
}

#[tactic(auto, unfolding(crate::specs::Commands::wanted_of))]
fn wanted_of(alloc: Global, value: &Value) -> Result<Option<Wanted>, AllocError>
    ensures { IfOk result (λ wanted. wanted ≡ wanted_of (view value.now)) }
{
    let Some(version) = version_of(value) else {
        return Ok(None);
    };
    let Some(command) = command_at(alloc, value)? else {
        return Ok(None);
    };
    if member_count(value) != 2 {
        return Ok(None);
    }
    Ok(Some(Wanted { version, command }))
}

fn version_of(value: &Value) -> Option<u64>
    ensures { result ≡ option_and_then as_u64 (option_and_then as_number (get (codes "version") (view value.now))) }
{
    value.get("version").and_then(Value::as_u64)
}

fn command_at(alloc: Global, value: &Value) -> Result<Option<Command>, AllocError>
    ensures { IfOk result (λ command. command ≡ option_and_then command_of (get (codes "command") (view value.now))) }
{
    match value.get("command") {
        Some(command) => command_from(alloc, command),
        None => Ok(None),
    }
}

// How many members an object has; 0 for what isn't one.
fn member_count(value: &Value) -> usize
    ensures { result ≡ member_count (view value.now) }
{
    match value.as_object() {
        Some(members) => members.len(),
        None => 0,
    }
}
