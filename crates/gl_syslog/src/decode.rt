// A payload of syslog and its fields.
ghost use Rattle.std.specs.Prelude.{◌≡◌, ◌≤◌, IfOk};
ghost use Rattle.gl_syslog.specs.Decoding.{decoded_syslog};

use crate::content::content_of;
use crate::fields::map_of;
use gl_fields::{Cause, DecodeFault, FieldMap};
use std::alloc::{AllocError, Global};

/// The fields of a payload of syslog that came from this peer at this moment, in milliseconds since 1970.
///
/// Its text, by lossy UTF-8, is a message of RFC 5424 or else of RFC 3164, or else a text behind a PRI, or else a text
/// alone. There is no cause but TooManyFields and TooLarge.
pub fn decode_syslog(
    alloc: Global,
    moment: u64,
    peer: &str,
    bytes: &[u8],
) -> Result<Result<FieldMap, Cause>, AllocError>
    requires { moment ≤ 253402300799999 }
    ensures { IfOk result (λ r. r ≡ decoded_syslog moment peer.now bytes.now) }
{
    let text = String::from_utf8_lossy(alloc, bytes)?;
    let content = content_of(alloc, moment, peer, text.as_str())?;
    match map_of(alloc, content) {
        Ok(fields) => Ok(Ok(fields)),
        Err(DecodeFault::Undecodable(cause)) => Ok(Err(cause)),
        Err(DecodeFault::OutOfMemory) => Err(AllocError),
    }
}
