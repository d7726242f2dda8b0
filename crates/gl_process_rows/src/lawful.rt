// Messages that a configuration stages.
ghost use Rattle.std.specs.Prelude.{◌≡◌, ◌≤◌, ◌<◌, IfOk, IfSome, IsTrue};
ghost use Rattle.gl_outcome.specs.Staging.{IsStageable};

use gl_base::{Items, Text};
use gl_config::Config;
use gl_fields::{Message, Origin};
use std::alloc::{AllocError, Global};

/// When each message comes in: ten seconds into the year 2025.
const MOMENT: u64 = 1_735_689_610_000;

fn is_within(len: usize, most: usize) -> bool
    ensures { IsTrue result → (0 < len) × (len ≤ most) }
{
    len > 0 && len <= most
}

/// The message of these bytes, which came to the input of this name from this peer and port, 0 for none; `None` where there is no
/// such input, or the bytes are none or too many.
pub fn lawful(
    alloc: Global,
    config: &Config,
    input: &str,
    peer: &str,
    port: u16,
    bytes: &[u8],
) -> Result<Option<Message>, AllocError>
    ensures { IfOk result (λ found. IfSome found (λ message. IsStageable config.now message)) }
{
    let Some(kind) = config.input_kind(input) else {
        return Ok(None);
    };
    if !is_within(input.len(), 64) {
        return Ok(None);
    }
    if !is_within(peer.len(), 255) {
        return Ok(None);
    }
    if !is_within(bytes.len(), 1_048_576) {
        return Ok(None);
    }
    let message = Message {
        input: Text::from_str(alloc, input)?,
        peer: Text::from_str(alloc, peer)?,
        origin: Some(Origin { kind, port }),
        moment: MOMENT,
        version: config.version(),
        bytes: Items::from_slice(alloc, bytes)?,
    };
    Ok(Some(message))
}
