ghost use Rattle.std.specs.Prelude.{◌≡◌, ◌≤◌, IfOk};
ghost use Rattle.gl_fields.specs.Bounds.{IsPayload};
ghost use Rattle.gl_fields.specs.Putting.{map_with, IsDecoded};
ghost use Rattle.gl_decoding.specs.Decoding.{decoded, payload_fields, raw_fields};

use crate::port::{port_of, with_port};
use gl_base::Text;
use gl_fields::{Cause, DecodeFault, FieldMap, InputKind, Message, Value};
use gl_gelf::decode_gelf;
use gl_syslog::decode_syslog;
use std::alloc::{AllocError, Global};

/// The fields of a message that came to an input of this kind, or why it has none.
///
/// A raw payload is the text of the message, by lossy UTF-8; others are GELF 1.1, and syslog by RFC 5424 or else RFC 3164.
/// `remote_port` is the port of the peer, in place of a field of that name, unless no port is known or the map refuses it.
pub fn decode(
    alloc: Global,
    kind: InputKind,
    message: &Message,
) -> Result<Result<FieldMap, Cause>, AllocError>
    requires { IsPayload message.now }
    ensures { IfOk result (λ fields. fields ≡ decoded kind message.now) }
{
    match decode_payload(alloc, kind, message)? {
        Ok(fields) => Ok(Ok(with_port(fields, port_of(message.origin))?)),
        Err(cause) => Ok(Err(cause)),
    }
}

// The fields of the payload alone.
fn decode_payload(
    alloc: Global,
    kind: InputKind,
    message: &Message,
) -> Result<Result<FieldMap, Cause>, AllocError>
    requires { IsPayload message.now }
    ensures { IfOk result (λ fields. fields ≡ payload_fields kind message.now) }
{
    let peer = message.peer.as_str();
    let bytes = message.bytes.as_slice();
    match kind {
        InputKind::Raw => decode_raw(alloc, message),
        InputKind::Gelf => decode_gelf(alloc, message.moment, peer, bytes),
        InputKind::Syslog => decode_syslog(alloc, message.moment, peer, bytes),
    }
}

fn decode_raw(alloc: Global, message: &Message) -> Result<Result<FieldMap, Cause>, AllocError>
    requires { message.now.moment ≤ 253402300799999 }
    ensures { IfOk result (λ fields. fields ≡ map_with (raw_fields message.now)) }
{
    match set_raw(alloc, message) {
        Ok(fields) => Ok(Ok(fields)),
        Err(DecodeFault::Undecodable(cause)) => Ok(Err(cause)),
        Err(DecodeFault::OutOfMemory) => Err(AllocError),
    }
}

// The payload, the peer and the moment of a raw message, as fields.
fn set_raw(alloc: Global, message: &Message) -> Result<FieldMap, DecodeFault>
    requires { message.now.moment ≤ 253402300799999 }
    ensures { IsDecoded (map_with (raw_fields message.now)) result }
{
    let text = String::from_utf8_lossy(alloc, message.bytes.as_slice())?;
    let mut fields = FieldMap::with_capacity(alloc, 4)?;
    fields.set("message", Value::Text(Text::from_string(text)))?;
    fields.set("source", Value::Text(message.peer.copy()?))?;
    fields.set("timestamp", Value::Whole(message.moment as i64))?;
    Ok(fields)
}
