// Replies to a client.
ghost use Rattle.std.specs.Prelude.{◌≡◌, ◌++◌, IfOk, OnOk, OnErr, Some, All, codes, length};
ghost use Rattle.std.specs.String.{string_bytes};
ghost use Rattle.http.specs.StatusCode.{reason_phrase};
ghost use Rattle.gl_http.specs.ReplyBytes.{HasPhrase, head_bytes, reply_bytes, statuses};

use gl_base::Items;
use http::StatusCode;
use std::alloc::{AllocError, Global};

/// What a client is answered: a status of RFC 9110, section 15, and a body of `application/json`, which may be empty.
#[derive(Debug, Drop)]
pub struct Reply {
    pub status: u16,
    pub body: Items<u8>,
}

// The phrase of a status.
fn phrase(status: u16) -> &'static str
    requires { HasPhrase status }
    ensures { reason_phrase status ≡ Some result.now }
{
    match StatusCode::from_u16(status) {
        Ok(code) => match code.canonical_reason() {
            Some(text) => text,
            None => unreachable!(),
        },
        Err(_) => unreachable!(),
    }
}

// A reply up to its body, which has this many bytes.
fn head_text(alloc: Global, status: u16, len: usize) -> Result<String, AllocError>
    requires { HasPhrase status }
    ensures { IfOk result (λ text. string_bytes text ≡ head_bytes status len) }
{
    let reason = phrase(status);
    format!(in alloc;
        "HTTP/1.1 {status} {reason}\r\nContent-Type: application/json\r\nContent-Length: {len}\r\nConnection: close\r\n\r\n"
    )
}

/// Appends the bytes of a reply (RFC 9112, sections 3 to 6). The status is one that has a canonical phrase.
/// `Err` is want of memory, and leaves the bytes as they were.
pub fn write_reply(reply: &Reply, into: &mut Vec<u8>) -> Result<(), AllocError>
    requires { HasPhrase reply.now.status }
    ensures ok { OnOk result (into.new.items ≡ into.old.items ++ reply_bytes reply.now.status reply.now.body) }
    ensures err { OnErr result (into.new.items ≡ into.old.items) }
{
    let before = into.len();
    let head = head_text(*into.allocator(), reply.status, reply.body.len())?;
    into.extend_from_slice(head.as_bytes())?;
    match into.extend_from_slice(reply.body.as_slice()) {
        Ok(()) => Ok(()),
        Err(error) => {
            into.truncate(before);
            Err(error)
        }
    }
}

/// The bytes of the reply 500 with the body `{"error":"OutOfMemory"}`. It takes no memory.
pub fn memory_reply() -> &'static [u8]
    ensures { result.now ≡ reply_bytes 500 (codes "{\"error\":\"OutOfMemory\"}") }
{
    b"HTTP/1.1 500 Internal Server Error\r\nContent-Type: application/json\r\nContent-Length: 23\r\nConnection: close\r\n\r\n{\"error\":\"OutOfMemory\"}"
}

/// Law: the status of each reply has a canonical phrase, as `write_reply` asks.
pub fn law_statuses_have_phrases()
    ensures { All HasPhrase statuses }
{}
