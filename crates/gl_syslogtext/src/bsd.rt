// A message of RFC 3164.
ghost use Rattle.std.specs.Prelude.{◌≡◌, ◌<◌, ◌≤◌, length, take, drop, slice_index, IfOk, IfSome, Some, option_map};
ghost use Rattle.std.specs.List.{prefix_len};
ghost use Rattle.std.specs.Char.{is_ascii_alphanumeric};
ghost use Rattle.gl_syslogtext.specs.declared.bsd.BsdParts.{BsdParts};
ghost use Rattle.gl_syslogtext.specs.Sections.{Gives};
ghost use Rattle.gl_syslogtext.specs.Rfc3164.{month_of, day_of, bsd_stamp_of, bsd_stamp_at, bsd_parts_of, tag_at, process_at, Reads3164};

use crate::sections::{byte_at, clock_at, pri_at, split_space};
use crate::stamp::{cut, digits_len};
use crate::unread::Unread;
use gl_base::Text;
use std::alloc::{AllocError, Global};

/// Bytes of `Mmm dd hh:mm:ss`.
const STAMP_LEN: usize = 15;

const MAX_TAG: usize = 32;

/// A time stamp, which has no year (RFC 3164 section 4.1.2).
#[derive(Clone, Copy, Debug)]
pub struct BsdStamp {
    pub month: u8,
    pub day: u8,
    pub hour: u8,
    pub minute: u8,
    pub second: u8,
}

/// The parts of a message (RFC 3164 section 4.1).
#[derive(Debug, Drop)]
pub struct BsdParts {
    /// 0 to 191: the facility times 8 and the severity.
    pub pri: u8,
    pub stamp: BsdStamp,
    pub host: Text,
    pub msg: Text,
}

#[tactic(auto, unfolding(crate::specs::Rfc3164::month_of))]
fn month_of(name: &[u8]) -> Result<u8, Unread>
    ensures { Gives (λ x. x) result (month_of name.now) }
{
    match name {
        b"Jan" => Ok(1),
        b"Feb" => Ok(2),
        b"Mar" => Ok(3),
        b"Apr" => Ok(4),
        b"May" => Ok(5),
        b"Jun" => Ok(6),
        b"Jul" => Ok(7),
        b"Aug" => Ok(8),
        b"Sep" => Ok(9),
        b"Oct" => Ok(10),
        b"Nov" => Ok(11),
        b"Dec" => Ok(12),
        _ => Err(Unread::Other),
    }
}

#[tactic(auto, unfolding(crate::specs::Rfc3164::day_of))]
fn day_of(text: &[u8]) -> Result<u8, Unread>
    ensures { Gives (λ x. x) result (day_of text.now) }
{
    let [tens, ones] = text else {
        return Err(Unread::Other);
    };
    if (!tens.is_ascii_digit() && *tens != b' ') || !ones.is_ascii_digit() {
        return Err(Unread::Other);
    }
    Ok(tens.saturating_sub(b'0') * 10 + (*ones - b'0'))
}

#[tactic(auto, unfolding(crate::specs::Rfc3164::bsd_stamp_of))]
fn bsd_stamp_of(text: &[u8]) -> Result<BsdStamp, Unread>
    ensures { Gives (λ x. x) result (bsd_stamp_of text.now) }
{
    if text.len() != STAMP_LEN || text[3] != b' ' || text[6] != b' ' {
        return Err(Unread::Other);
    }
    let month = month_of(&text[..3])?;
    let day = day_of(&text[4..6])?;
    let (hour, minute, second) = clock_at(text, 7)?;
    Ok(BsdStamp {
        month,
        day,
        hour,
        minute,
        second,
    })
}

#[tactic(auto, unfolding(crate::specs::Rfc3164::bsd_stamp_at))]
fn bsd_stamp_at(text: &str) -> Result<(BsdStamp, &str), Unread>
    ensures { Gives (λ x. (x.0, x.1.now)) result (bsd_stamp_at text.now) }
{
    if byte_at(text.as_bytes(), STAMP_LEN) != b' ' {
        return Err(Unread::Other);
    }
    let (_, rest) = cut(text, STAMP_LEN + 1);
    let stamp = bsd_stamp_of(&text.as_bytes()[..STAMP_LEN])?;
    Ok((stamp, rest))
}

#[tactic(auto, unfolding(crate::specs::Rfc3164::bsd_parts_of))]
fn bsd_parts_of(alloc: Global, text: &str) -> Result<BsdParts, Unread>
    ensures { Gives (λ x. x) result (bsd_parts_of text.now) }
{
    let (pri, rest) = pri_at(text)?;
    let (stamp, rest) = bsd_stamp_at(rest)?;
    let (host, msg) = split_space(rest)?;
    if host.is_empty() {
        return Err(Unread::Other);
    }
    Ok(BsdParts {
        pri,
        stamp,
        host: Text::from_str(alloc, host)?,
        msg: Text::from_str(alloc, msg)?,
    })
}

/// The parts of a message of RFC 3164; None where the text is none.
pub fn read_3164(alloc: Global, text: &str) -> Result<Option<BsdParts>, AllocError>
    // What is read has the form, with these parts.
    ensures found { IfOk result (λ r. IfSome r (Reads3164 text.now)) }
    // What has the form is read, and has no other parts.
    ensures only { IfOk result (λ r. (parts : BsdParts) → Reads3164 text.now parts → r ≡ Some parts) }
    // The parts as they are read from left to right.
    ensures exact { IfOk result (λ r. r ≡ bsd_parts_of text.now) }
{
    match bsd_parts_of(alloc, text) {
        Ok(parts) => Ok(Some(parts)),
        Err(Unread::Other) => Ok(None),
        Err(Unread::OutOfMemory) => Err(AllocError),
    }
}

/// How many letters and digits stand at the front.
fn word_len(bytes: &[u8]) -> usize
    ensures len { result ≡ prefix_len is_ascii_alphanumeric bytes.now }
    ensures within { result ≤ length bytes.now }
{
    for (i, byte) in bytes.iter().enumerate() {
        if !byte.is_ascii_alphanumeric() {
            return i;
        }
    }
    bytes.len()
}

/// TAG at the front of MSG, and what follows it.
#[tactic(auto, unfolding(crate::specs::Rfc3164::tag_at))]
pub fn tag_at(msg: &str) -> Option<(&str, &str)>
    ensures { option_map (λ t. (t.0.now, t.1.now)) result ≡ tag_at msg.now }
{
    let len = word_len(msg.as_bytes());
    if len < 1 || len > MAX_TAG || len == msg.len() {
        return None;
    }
    Some(cut(msg, len))
}

/// The process id at the front of what follows TAG.
#[tactic(auto, unfolding(crate::specs::Rfc3164::process_at))]
pub fn process_at(text: &str) -> Option<&str>
    ensures { option_map (λ t. t.now) result ≡ process_at text.now }
{
    if byte_at(text.as_bytes(), 0) != b'[' {
        return None;
    }
    let (_, behind) = cut(text, 1);
    let len = digits_len(behind.as_bytes());
    if len < 1 || byte_at(behind.as_bytes(), len) != b']' {
        return None;
    }
    let (digits, _) = cut(behind, len);
    Some(digits)
}
