// Syslog: payloads, the parts of messages, and frames.

use crate::entries::push_decoded;
use gl_base::{Items, Text};
use gl_rows::{Row, push_bytes, push_fed};
use gl_syslog::{Element, Fed, LineFrames, Parts, Stamp, decode_syslog, print_5424, read_5424};
use std::alloc::{AllocError, Global};
use std::fmt::Write;

/// From where each payload comes.
const PEER: &str = "peer";

/// The last millisecond of the year 9999.
const LAST_MOMENT: u64 = 253_402_300_799_999;

pub fn answer(alloc: Global, row: &Row, out: &mut String) -> Result<(), AllocError> {
    match row.text(0) {
        "payload" => payload(alloc, row.number(1), row.bytes(2), out),
        "message" => message(alloc, row.text(1), out),
        "parts" => parts(alloc, row.text(1), out),
        "print" => print(alloc, row, out),
        "stamp" => stamp(alloc, row, out),
        "frames" => frames(alloc, row, out),
        "takes" => takes(alloc, row, out),
        _ => out.push_str("no such subject"),
    }
}

fn payload(alloc: Global, moment: u64, bytes: &[u8], out: &mut String) -> Result<(), AllocError> {
    if moment > LAST_MOMENT {
        return out.push_str("too late");
    }
    push_decoded(out, decode_syslog(alloc, moment, PEER, bytes)?)
}

/// Puts what is printed of a message's parts behind a text.
fn push_printed(alloc: Global, parts: &Parts, out: &mut String) -> Result<(), AllocError> {
    match print_5424(alloc, parts)? {
        Some(text) => push_bytes(out, text.as_bytes()),
        None => out.push_str("none"),
    }
}

/// What is printed of the parts of a message.
fn message(alloc: Global, text: &str, out: &mut String) -> Result<(), AllocError> {
    match read_5424(alloc, text)? {
        Some(parts) => push_printed(alloc, &parts, out),
        None => out.push_str("none"),
    }
}

fn parts(alloc: Global, text: &str, out: &mut String) -> Result<(), AllocError> {
    match read_5424(alloc, text)? {
        Some(parts) => {
            push_head(out, &parts)?;
            for element in parts.elements.as_slice() {
                push_element(out, element)?;
            }
            push_part(out, "message", &parts.msg)
        }
        None => out.push_str("none"),
    }
}

fn push_part(out: &mut String, name: &str, part: &Option<Text>) -> Result<(), AllocError> {
    write!(out, "{name} ")?;
    match part {
        Some(text) => push_bytes(out, text.as_str().as_bytes())?,
        None => out.push_str("none")?,
    }
    out.push('\n')
}

fn push_head(out: &mut String, parts: &Parts) -> Result<(), AllocError> {
    let pri = parts.pri;
    write!(out, "priority {pri}\n")?;
    if let Some(stamp) = &parts.stamp {
        push_stamp(out, stamp)?;
    }
    push_part(out, "host", &parts.host)?;
    push_part(out, "application", &parts.app)?;
    push_part(out, "process", &parts.proc_id)?;
    push_part(out, "id", &parts.msg_id)?;
    out.push_str(if parts.bom { "mark\n" } else { "no mark\n" })
}

fn push_stamp(out: &mut String, stamp: &Stamp) -> Result<(), AllocError> {
    let year = stamp.year;
    let month = stamp.month;
    let day = stamp.day;
    write!(out, "day {year} {month} {day}\n")?;
    let hour = stamp.hour;
    let minute = stamp.minute;
    let second = stamp.second;
    write!(out, "time {hour} {minute} {second}\n")?;
    let fraction = stamp.fraction.as_str();
    match stamp.offset_minutes {
        Some(minutes) => write!(out, "fraction {fraction} offset {minutes}\n"),
        None => write!(out, "fraction {fraction} offset none\n"),
    }
}

fn push_element(out: &mut String, element: &Element) -> Result<(), AllocError> {
    let id = element.id.as_str();
    write!(out, "element {id}\n")?;
    for (name, value) in element.params.as_slice() {
        let name = name.as_str();
        write!(out, "{name}=")?;
        push_bytes(out, value.as_str().as_bytes())?;
        out.push('\n')?;
    }
    Ok(())
}

/// Parts with a priority alone.
fn bare(alloc: Global, pri: u64) -> Parts {
    Parts {
        pri: u8::try_from(pri).unwrap_or(255),
        stamp: None,
        host: None,
        app: None,
        proc_id: None,
        msg_id: None,
        elements: Items::new(alloc),
        bom: false,
        msg: None,
    }
}

/// What is printed of a priority, a host's name, a byte order mark or none, and a message.
fn print(alloc: Global, row: &Row, out: &mut String) -> Result<(), AllocError> {
    let mut parts = bare(alloc, row.number(1));
    parts.host = Some(Text::from_str(alloc, row.text(2))?);
    parts.bom = row.text(3) == "mark";
    parts.msg = Some(Text::from_str(alloc, row.text(4))?);
    push_printed(alloc, &parts, out)
}

/// What is printed of a message of 23:59:59 at a month and a day of 2023, with a fraction and an offset in minutes.
fn stamp(alloc: Global, row: &Row, out: &mut String) -> Result<(), AllocError> {
    let stamp = Stamp {
        year: 2023,
        month: u8::try_from(row.number(1)).unwrap_or(255),
        day: u8::try_from(row.number(2)).unwrap_or(255),
        hour: 23,
        minute: 59,
        second: 59,
        fraction: Text::from_str(alloc, row.text(3))?,
        offset_minutes: i16::try_from(row.whole(4)).ok(),
    };
    let mut parts = bare(alloc, 1);
    parts.stamp = Some(stamp);
    push_printed(alloc, &parts, out)
}

fn push_frame(out: &mut Vec<u8>, frame: &[u8]) -> Result<(), AllocError> {
    out.extend_from_slice(frame)?;
    out.push(b'|')?;
    Ok(())
}

/// Puts the frames that end in a piece of at most 64 bytes behind others.
fn push_frames(out: &mut Vec<u8>, reader: &mut LineFrames, piece: &[u8]) -> Result<(), AllocError> {
    let mut rest = piece;
    for _ in 0..64u8 {
        let (taken, fed) = reader.take(rest);
        rest = &rest[taken..];
        if let Fed::Whole = fed {
            push_frame(out, reader.frame())?;
        }
    }
    Ok(())
}

/// The frames of a connection that sends two pieces and ends, each with `|` behind it.
fn frames_of(
    alloc: Global,
    counted: bool,
    first: &[u8],
    second: &[u8],
) -> Result<Vec<u8>, AllocError> {
    let mut out = Vec::new(alloc);
    let mut reader = LineFrames::new(alloc, counted)?;
    push_frames(&mut out, &mut reader, first)?;
    push_frames(&mut out, &mut reader, second)?;
    if let Fed::Whole = reader.end() {
        push_frame(&mut out, reader.frame())?;
    }
    Ok(out)
}

/// The frames of a connection, and at which cuts into two pieces they aren't the same.
fn frames(alloc: Global, row: &Row, out: &mut String) -> Result<(), AllocError> {
    let counted = row.text(1) == "counted";
    let bytes = row.bytes(2);
    let whole = frames_of(alloc, counted, bytes, &[])?;
    push_bytes(out, whole.as_slice())?;
    for cut in 0..bytes.len() {
        let (first, second) = bytes.split_at(cut);
        let other = frames_of(alloc, counted, first, second)?;
        if other.as_slice() != whole.as_slice() {
            write!(out, "\nother frames at {cut}")?;
        }
    }
    Ok(())
}

/// What a reader answers to each piece: how much of it is taken, and the frame that ends there.
fn takes(alloc: Global, row: &Row, out: &mut String) -> Result<(), AllocError> {
    let mut reader = LineFrames::new(alloc, row.text(1) == "counted")?;
    for index in 2..row.len() {
        let (taken, fed) = reader.take(row.bytes(index));
        push_fed(out, taken, fed)?;
        if let Fed::Whole = fed {
            push_bytes(out, reader.frame())?;
        }
        out.push('\n')?;
    }
    Ok(())
}
