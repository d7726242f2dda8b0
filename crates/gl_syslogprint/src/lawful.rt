// Whether some text has these parts.
ghost use Rattle.std.specs.Prelude.{◌≡◌, IfOk};
ghost use Rattle.std.specs.List.{list_all};
ghost use Rattle.std.specs.Char.{is_ascii_digit};
ghost use Rattle.gl_syslogtext.specs.Data.{is_sd_byte};
ghost use Rattle.gl_syslogtext.specs.Rfc5424.{is_sd_name};
ghost use Rattle.gl_syslogprint.specs.Printing.{is_name, is_offset, is_moment, is_time, is_stamp, is_param, is_element, is_message, is_header, are_lawful};

use gl_base::Text;
use gl_syslogtext::data::{MAX_SD_NAME, has_bom, is_sd_byte};
use gl_syslogtext::sections::{
    MAX_APP, MAX_HOST, MAX_MSG_ID, MAX_PRI, MAX_PROC_ID, are_digits, are_printable, is_date,
};
use gl_syslogtext::stamp::MAX_FRACTION;
use gl_syslogtext::{Element, Parts, Stamp, are_distinct};
use std::alloc::{AllocError, Global};

/// 23:59.
const MAX_OFFSET: u16 = 1439;

fn is_name(name: &Option<Text>, most: usize) -> bool
    ensures { result ≡ is_name most name.now }
{
    match name {
        None => true,
        Some(name) => {
            name.as_str() != "-"
                && (!name.is_empty()
                    && name.len() <= most
                    && are_printable(name.as_str().as_bytes()))
        }
    }
}

fn is_offset(offset_minutes: Option<i16>) -> bool
    ensures { result ≡ is_offset offset_minutes }
{
    match offset_minutes {
        None => true,
        Some(minutes) => minutes.unsigned_abs() <= MAX_OFFSET,
    }
}

#[tactic(auto, unfolding(crate::specs::Printing::is_moment))]
fn is_moment(stamp: &Stamp) -> bool
    ensures { result ≡ is_moment stamp.now }
{
    if stamp.year > 9999 || stamp.month > 99 || stamp.day > 99 {
        return false;
    }
    if !is_date(stamp.year, stamp.month, stamp.day) {
        return false;
    }
    stamp.hour <= 23 && stamp.minute <= 59 && stamp.second <= 59
}

#[tactic(auto, unfolding(crate::specs::Printing::is_time))]
fn is_time(stamp: &Stamp) -> bool
    ensures { result ≡ is_time stamp.now }
{
    if !is_moment(stamp) {
        return false;
    }
    if stamp.fraction.len() > MAX_FRACTION || !are_digits(stamp.fraction.as_str().as_bytes()) {
        return false;
    }
    is_offset(stamp.offset_minutes)
}

fn is_stamp(stamp: &Option<Stamp>) -> bool
    ensures { result ≡ is_stamp stamp.now }
{
    match stamp {
        None => true,
        Some(stamp) => is_time(stamp),
    }
}

fn are_sd_bytes(bytes: &[u8]) -> bool
    ensures { result ≡ list_all is_sd_byte bytes.now }
{
    bytes.iter().all(|b| is_sd_byte(*b))
}

fn is_sd_name(name: &Text) -> bool
    ensures { result ≡ is_sd_name name.now }
{
    !name.is_empty() && name.len() <= MAX_SD_NAME && are_sd_bytes(name.as_str().as_bytes())
}

fn are_params(params: &[(Text, Text)]) -> bool
    ensures { result ≡ list_all is_param params.now }
{
    params.iter().all(|param| is_sd_name(&param.0))
}

fn is_element(element: &Element) -> bool
    ensures { result ≡ is_element element.now }
{
    is_sd_name(&element.id) && are_params(element.params.as_slice())
}

fn are_elements(elements: &[Element]) -> bool
    ensures { result ≡ list_all is_element elements.now }
{
    elements.iter().all(|element| is_element(element))
}

fn is_message(bom: bool, msg: &Option<Text>) -> bool
    ensures { result ≡ is_message bom msg.now }
{
    match msg {
        None => !bom,
        Some(msg) => bom || !has_bom(msg.as_str()),
    }
}

#[tactic(auto, unfolding(crate::specs::Printing::is_header))]
fn is_header(parts: &Parts) -> bool
    ensures { result ≡ is_header parts.now }
{
    parts.pri as usize <= MAX_PRI
        && is_stamp(&parts.stamp)
        && is_name(&parts.host, MAX_HOST)
        && is_name(&parts.app, MAX_APP)
        && is_name(&parts.proc_id, MAX_PROC_ID)
        && is_name(&parts.msg_id, MAX_MSG_ID)
}

/// Whether some text has these parts.
#[tactic(auto, unfolding(crate::specs::Printing::are_lawful))]
pub fn are_lawful(alloc: Global, parts: &Parts) -> Result<bool, AllocError>
    ensures { IfOk result (λ b. b ≡ are_lawful parts.now) }
{
    if !is_header(parts) || !are_elements(parts.elements.as_slice()) {
        return Ok(false);
    }
    if !are_distinct(alloc, parts.elements.as_slice())? {
        return Ok(false);
    }
    Ok(is_message(parts.bom, &parts.msg))
}
