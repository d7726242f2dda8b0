// The text of a message's parts.
ghost use Rattle.std.specs.Prelude.{◌≡◌, ◌+◌, ◌≤◌, ◌++◌, ◌∷◌, [], ℕ, List, IfOk, IfSome, MatchOption, OnOk, true};
ghost use Rattle.std.specs.String.{string_bytes};
ghost use Rattle.gl_syslogtext.specs.Rfc5424.{Reads5424};
ghost use Rattle.gl_syslogprint.specs.Printing.{two_digits, pri_digits, name_text, hours_minutes, offset_text, is_offset, fraction_text, date_text, clock_text, time_text, is_moment, is_time, stamp_text, is_stamp, message_text, is_header, are_lawful, text_of};

use crate::lawful::are_lawful;
use crate::print_data::push_data;
use gl_base::Text;
use gl_syslogtext::{Parts, Stamp};
use std::alloc::{AllocError, Global};

fn push_digit(out: &mut String<Global>, digit: u8) -> Result<(), AllocError>
    requires { digit ≤ 9 }
    ensures { OnOk result (string_bytes out.new ≡ string_bytes out.old ++ (48 + digit) ∷ []) }
{
    out.push((b'0' + digit) as char)
}

fn push_two(out: &mut String<Global>, number: u8) -> Result<(), AllocError>
    requires { number ≤ 99 }
    ensures { OnOk result (string_bytes out.new ≡ string_bytes out.old ++ two_digits number) }
{
    push_digit(out, number / 10)?;
    push_digit(out, number % 10)?;
    Ok(())
}

fn push_pri(out: &mut String<Global>, pri: u8) -> Result<(), AllocError>
    requires { pri ≤ 191 }
    ensures { OnOk result (string_bytes out.new ≡ string_bytes out.old ++ pri_digits pri) }
{
    if pri < 10 {
        return push_digit(out, pri);
    }
    if pri < 100 {
        return push_two(out, pri);
    }
    push_digit(out, pri / 100)?;
    push_two(out, pri % 100)?;
    Ok(())
}

/// A name, or what stands for none.
fn name_text(name: &Option<Text>) -> &str
    ensures { result.now ≡ name_text name.now }
{
    match name {
        None => "-",
        Some(name) => name.as_str(),
    }
}

/// A name and a space.
fn push_name(out: &mut String<Global>, name: &Option<Text>) -> Result<(), AllocError>
    ensures { OnOk result (string_bytes out.new ≡ string_bytes out.old ++ (name_text name.now ++ 32 ∷ [])) }
{
    out.push_str(name_text(name))?;
    out.push_str(" ")?;
    Ok(())
}

fn push_hours(out: &mut String<Global>, minutes: u16) -> Result<(), AllocError>
    requires { minutes ≤ 1439 }
    ensures { OnOk result (string_bytes out.new ≡ string_bytes out.old ++ hours_minutes minutes) }
{
    push_two(out, (minutes / 60) as u8)?;
    out.push_str(":")?;
    push_two(out, (minutes % 60) as u8)?;
    Ok(())
}

fn push_offset(out: &mut String<Global>, offset_minutes: Option<i16>) -> Result<(), AllocError>
    requires { is_offset offset_minutes ≡ true }
    ensures { OnOk result (string_bytes out.new ≡ string_bytes out.old ++ offset_text offset_minutes) }
{
    match offset_minutes {
        None => out.push_str("Z")?,
        Some(minutes) => {
            out.push_str(if minutes < 0 { "-" } else { "+" })?;
            push_hours(out, minutes.unsigned_abs())?;
        }
    }
    Ok(())
}

fn push_fraction(out: &mut String<Global>, fraction: &Text) -> Result<(), AllocError>
    ensures { OnOk result (string_bytes out.new ≡ string_bytes out.old ++ fraction_text fraction.now) }
{
    if !fraction.is_empty() {
        out.push_str(".")?;
        out.push_str(fraction.as_str())?;
    }
    Ok(())
}

#[tactic(auto, unfolding(crate::specs::Printing::date_text, crate::specs::Printing::is_moment))]
fn push_date(out: &mut String<Global>, stamp: &Stamp) -> Result<(), AllocError>
    requires { is_moment stamp.now ≡ true }
    ensures { OnOk result (string_bytes out.new ≡ string_bytes out.old ++ date_text stamp.now) }
{
    push_two(out, (stamp.year / 100) as u8)?;
    push_two(out, (stamp.year % 100) as u8)?;
    out.push_str("-")?;
    push_two(out, stamp.month)?;
    out.push_str("-")?;
    push_two(out, stamp.day)?;
    Ok(())
}

#[tactic(auto, unfolding(crate::specs::Printing::clock_text, crate::specs::Printing::is_moment))]
fn push_clock(out: &mut String<Global>, stamp: &Stamp) -> Result<(), AllocError>
    requires { is_moment stamp.now ≡ true }
    ensures { OnOk result (string_bytes out.new ≡ string_bytes out.old ++ clock_text stamp.now) }
{
    push_two(out, stamp.hour)?;
    out.push_str(":")?;
    push_two(out, stamp.minute)?;
    out.push_str(":")?;
    push_two(out, stamp.second)?;
    Ok(())
}

#[tactic(auto, unfolding(crate::specs::Printing::time_text, crate::specs::Printing::is_time))]
fn push_time(out: &mut String<Global>, stamp: &Stamp) -> Result<(), AllocError>
    requires { is_time stamp.now ≡ true }
    ensures { OnOk result (string_bytes out.new ≡ string_bytes out.old ++ time_text stamp.now) }
{
    push_date(out, stamp)?;
    out.push_str("T")?;
    push_clock(out, stamp)?;
    push_fraction(out, &stamp.fraction)?;
    push_offset(out, stamp.offset_minutes)?;
    Ok(())
}

fn push_stamp(out: &mut String<Global>, stamp: &Option<Stamp>) -> Result<(), AllocError>
    requires { is_stamp stamp.now ≡ true }
    ensures { OnOk result (string_bytes out.new ≡ string_bytes out.old ++ stamp_text stamp.now) }
{
    match stamp {
        None => out.push_str("-"),
        Some(stamp) => push_time(out, stamp),
    }
}

fn push_message(out: &mut String<Global>, bom: bool, msg: &Option<Text>) -> Result<(), AllocError>
    ensures { OnOk result (string_bytes out.new ≡ string_bytes out.old ++ message_text bom msg.now) }
{
    if let Some(msg) = msg {
        out.push_str(if bom { " \u{feff}" } else { " " })?;
        out.push_str(msg.as_str())?;
    }
    Ok(())
}

/// The text of lawful parts.
#[tactic(auto, unfolding(crate::specs::Printing::text_of, crate::specs::Printing::are_lawful, crate::specs::Printing::is_header))]
fn push_parts(out: &mut String<Global>, parts: &Parts) -> Result<(), AllocError>
    requires { are_lawful parts.now ≡ true }
    ensures { OnOk result (string_bytes out.new ≡ string_bytes out.old ++ text_of parts.now) }
{
    out.push_str("<")?;
    push_pri(out, parts.pri)?;
    out.push_str(">1 ")?;
    push_stamp(out, &parts.stamp)?;
    out.push_str(" ")?;
    push_name(out, &parts.host)?;
    push_name(out, &parts.app)?;
    push_name(out, &parts.proc_id)?;
    push_name(out, &parts.msg_id)?;
    push_data(out, parts.elements.as_slice())?;
    push_message(out, parts.bom, &parts.msg)?;
    Ok(())
}

/// The text of a message of RFC 5424 with version 1 that has these parts; None where no text has them, as where a name
/// is longer than section 6 allows or holds a space, a date doesn't exist, or two elements have one id.
///
/// Of the texts that have them it is the one that escapes just `"`, `\` and `]` in values, each wherever it stands
/// (section 6.3.3), and writes an offset of 0 as `+00:00`. The digits of a fraction are printed as they are.
pub fn print_5424(alloc: Global, parts: &Parts) -> Result<Option<String<Global>>, AllocError>
    // A text is printed exactly where some text has these parts, and it reads back to them.
    ensures reads { IfOk result (λ r. MatchOption r ((t : List ℕ) → Reads5424 t parts.now → ⊥) (λ t. Reads5424 (string_bytes t) parts.now)) }
    // Which of the texts that have them.
    ensures text { IfOk result (λ r. IfSome r (λ t. string_bytes t ≡ text_of parts.now)) }
{
    if !are_lawful(alloc, parts)? {
        return Ok(None);
    }
    let mut out = String::new(alloc);
    push_parts(&mut out, parts)?;
    Ok(Some(out))
}
