// The kept text of a command.
ghost use Rattle.std.specs.Prelude.{◌≡◌, ◌↔◌, IsTrue, IfOk, IfSome, IsUtf8};
ghost use Rattle.serde_json.specs.View.{view};
ghost use Rattle.gl_commands.specs.Texts.{command_bytes, IsCommand};
ghost use Rattle.gl_commands.specs.CommandReading.{command_of, command_in};

use crate::Command;
use crate::reading::keys_from;
use crate::writing::command_value;
use serde_json::Value;
use std::alloc::{AllocError, Global};

/// What a kept text has at most, in bytes.
const MAX_BYTES: usize = 4_194_299;

/// The text of a command: compact JSON with its keys in the order of their bytes. A text of more than 4,194,299 bytes isn't
/// kept: neither call below gives its command. An error means that memory ran out, here and below.
pub fn encode_command(alloc: Global, command: &Command) -> Result<Vec<u8>, AllocError>
    ensures text { IfOk result (λ bytes. bytes.items ≡ command_bytes command.now) }
    ensures utf8 { IfOk result (λ bytes. IsUtf8 bytes.items) }
{
    let value = command_value(alloc, command)?;
    value.to_vec(alloc)
}

/// The command that a value is, whatever the order of its keys and the spaces of the text from which it came. `None` means
/// that the value isn't an object with exactly the keys of a kind of command, each with a value of the form, or that the
/// command's own text would have more than 4,194,299 bytes.
pub fn command_from(alloc: Global, value: &Value) -> Result<Option<Command>, AllocError>
    ensures value { IfOk result (λ found. found ≡ command_of (view value.now)) }
    ensures lawful { IfOk result (λ found. IfSome found IsCommand) }
{
    let Some(command) = keys_from(alloc, value)? else {
        return Ok(None);
    };
    let text = encode_command(alloc, &command)?;
    if text.len() > MAX_BYTES {
        return Ok(None);
    }
    Ok(Some(command))
}

/// The command of which these bytes are the kept text; `None` where they are the text of no command, or more than 4,194,299.
pub fn decode_command(alloc: Global, bytes: &[u8]) -> Result<Option<Command>, AllocError>
    ensures value { IfOk result (λ found. found ≡ command_in bytes.now) }
    ensures lawful { IfOk result (λ found. IfSome found (λ command. (bytes.now ≡ command_bytes command) × IsCommand command)) }
{
    if bytes.len() > MAX_BYTES {
        return Ok(None);
    }
    let value = match Value::from_slice(alloc, bytes) {
        Ok(value) => value,
        Err(error) => {
            if error.is_memory() {
                return Err(AllocError);
            }
            return Ok(None);
        }
    };
    let Some(command) = keys_from(alloc, &value)? else {
        return Ok(None);
    };
    let text = encode_command(alloc, &command)?;
    if !is_same(text.as_slice(), bytes) {
        return Ok(None);
    }
    Ok(Some(command))
}

fn is_same(left: &[u8], right: &[u8]) -> bool
    ensures { IsTrue result ↔ (left.now ≡ right.now) }
{
    left == right
}
