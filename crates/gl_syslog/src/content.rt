// What a payload says, whichever form it has.
ghost use Rattle.std.specs.Prelude.{◌≡◌, ◌≤◌, IfOk};
ghost use Rattle.std.specs.Option.{unwrap_or};
ghost use Rattle.gl_syslogtext.specs.Rfc3164.{tag_of, process_of};
ghost use Rattle.gl_syslog.specs.Moments.{time_of};
ghost use Rattle.gl_syslog.specs.Decoding.{content_5424, content_3164, content_plain, content_of};

use crate::moment::{bsd_time, kept_or, stamp_ms};
use gl_base::{Items, Text};
use gl_syslogtext::sections::pri_at;
use gl_syslogtext::{
    BsdParts, Element, Parts, Stamp, Unread, process_at, read_3164, read_5424, tag_at,
};
use std::alloc::{AllocError, Global};

/// The facility `user` and the severity notice, for a text that says none (RFC 3164 section 4.3.3).
const DEFAULT_PRI: u8 = 13;

/// What is said of a message.
#[derive(Debug, Drop)]
pub struct Content {
    /// The facility times 8 and the severity.
    pub pri: u8,
    /// Milliseconds since 1970.
    pub timestamp: i64,
    pub message: Text,
    pub source: Text,
    pub application_name: Option<Text>,
    pub process_id: Option<Text>,
    pub message_id: Option<Text>,
    pub elements: Items<Element>,
}

fn time_of(stamp: &Option<Stamp>) -> Option<i64>
    ensures { result ≡ time_of stamp.now }
{
    match stamp {
        Some(stamp) => stamp_ms(stamp),
        None => None,
    }
}

fn text_or(alloc: Global, text: Option<Text>, other: &str) -> Result<Text, AllocError>
    ensures { IfOk result (λ t. t ≡ unwrap_or text other.now) }
{
    match text {
        Some(text) => Ok(text),
        None => Text::from_str(alloc, other),
    }
}

fn content_5424(alloc: Global, moment: u64, peer: &str, parts: Parts) -> Result<Content, AllocError>
    requires { moment ≤ 253402300799999 }
    ensures { IfOk result (λ c. c ≡ content_5424 moment peer.now parts) }
{
    let timestamp = kept_or(moment, time_of(&parts.stamp));
    let message = text_or(alloc, parts.msg, "")?;
    let source = text_or(alloc, parts.host, peer)?;
    Ok(Content {
        pri: parts.pri,
        timestamp,
        message,
        source,
        application_name: parts.app,
        process_id: parts.proc_id,
        message_id: parts.msg_id,
        elements: parts.elements,
    })
}

/// TAG of MSG and the process id behind it, where they stand there.
fn tags_of(alloc: Global, msg: &str) -> Result<(Option<Text>, Option<Text>), AllocError>
    ensures { IfOk result (λ t. t ≡ (tag_of msg.now, process_of msg.now)) }
{
    let Some((tag, behind)) = tag_at(msg) else {
        return Ok((None, None));
    };
    let tag = Text::from_str(alloc, tag)?;
    match process_at(behind) {
        Some(digits) => Ok((Some(tag), Some(Text::from_str(alloc, digits)?))),
        None => Ok((Some(tag), None)),
    }
}

fn content_3164(alloc: Global, moment: u64, parts: BsdParts) -> Result<Content, AllocError>
    requires { moment ≤ 253402300799999 }
    ensures { IfOk result (λ c. c ≡ content_3164 moment parts) }
{
    let (application_name, process_id) = tags_of(alloc, parts.msg.as_str())?;
    Ok(Content {
        pri: parts.pri,
        timestamp: kept_or(moment, bsd_time(moment, parts.stamp)),
        message: parts.msg,
        source: parts.host,
        application_name,
        process_id,
        message_id: None,
        elements: Items::new(alloc),
    })
}

fn content_plain(
    alloc: Global,
    moment: u64,
    peer: &str,
    pri: u8,
    message: &str,
) -> Result<Content, AllocError>
    requires { moment ≤ 253402300799999 }
    ensures { IfOk result (λ c. c ≡ content_plain moment peer.now (pri, message.now)) }
{
    Ok(Content {
        pri,
        timestamp: moment as i64,
        message: Text::from_str(alloc, message)?,
        source: Text::from_str(alloc, peer)?,
        application_name: None,
        process_id: None,
        message_id: None,
        elements: Items::new(alloc),
    })
}

/// What a text says that came from this peer at this moment.
#[tactic(auto, unfolding(crate::specs::Decoding::content_of))]
pub fn content_of(alloc: Global, moment: u64, peer: &str, text: &str) -> Result<Content, AllocError>
    requires { moment ≤ 253402300799999 }
    ensures { IfOk result (λ c. c ≡ content_of moment peer.now text.now) }
{
    if let Some(parts) = read_5424(alloc, text)? {
        return content_5424(alloc, moment, peer, parts);
    }
    if let Some(parts) = read_3164(alloc, text)? {
        return content_3164(alloc, moment, parts);
    }
    match pri_at(text) {
        Ok((pri, message)) => content_plain(alloc, moment, peer, pri, message),
        Err(Unread::Other) => content_plain(alloc, moment, peer, DEFAULT_PRI, text),
        Err(Unread::OutOfMemory) => Err(AllocError),
    }
}
