// The fields of what a payload says.
ghost use Rattle.std.specs.Prelude.{◌≡◌, ◌++◌, ◌<◌, map, Ok, IfOk, OnOk};
ghost use Rattle.std.specs.String.{string_bytes};
ghost use Rattle.std.specs.List.{fold, flat_map};
ghost use Rattle.gl_fields.specs.declared.field.Field.{Field};
ghost use Rattle.gl_fields.specs.Putting.{text_field, whole_field, then_put, IsPut, IsDecoded};
ghost use Rattle.gl_syslog.specs.Decoding.{field_if, allowed, parameter_name, parameter_field, element_fields};
ghost use Rattle.gl_syslog.specs.Putting.{put_in, put_common, put_in_order};

use crate::content::Content;
use gl_base::Text;
use gl_fields::{DecodeFault, FieldMap, Value};
use gl_syslogtext::Element;
use gl_text::facility_name;
use std::alloc::{AllocError, Global};

/// Fields without those of parameters.
const ROOM: usize = 8;

#[tactic(auto, unfolding(crate::specs::Putting::put_in))]
fn put_text(fields: &mut FieldMap, name: &str, text: Text) -> Result<(), DecodeFault>
    ensures { IsPut (put_in fields.old (text_field name.now text)) result fields.new }
{
    fields.set(name, Value::Text(text))?;
    Ok(())
}

#[tactic(auto, unfolding(crate::specs::Putting::put_in))]
fn put_if(fields: &mut FieldMap, name: &str, text: Option<Text>) -> Result<(), DecodeFault>
    ensures { IsPut (fold then_put (Ok fields.old) (field_if name.now text)) result fields.new }
{
    match text {
        Some(text) => put_text(fields, name, text),
        None => Ok(()),
    }
}

#[tactic(auto, unfolding(crate::specs::Putting::put_in))]
fn put_whole(fields: &mut FieldMap, name: &str, number: i64) -> Result<(), DecodeFault>
    ensures { IsPut (put_in fields.old (whole_field name.now number)) result fields.new }
{
    fields.set(name, Value::Whole(number))?;
    Ok(())
}

/// The name of the field of a parameter.
fn parameter_name(alloc: Global, id: &str, name: &str) -> Result<String, AllocError>
    ensures { IfOk result (λ t. string_bytes t ≡ parameter_name id.now name.now) }
{
    let mut out = String::with_capacity(
        alloc,
        id.len().saturating_add(name.len()).saturating_add(1),
    )?;
    push_allowed(&mut out, id.as_bytes())?;
    out.push('.')?;
    push_allowed(&mut out, name.as_bytes())?;
    Ok(out)
}

/// `_` for each byte that a field name doesn't allow.
fn push_allowed(out: &mut String, bytes: &[u8]) -> Result<(), AllocError>
    ensures { OnOk result (string_bytes out.new ≡ string_bytes out.old ++ map allowed bytes.now) }
{
    for byte in bytes {
        out.push(allowed(*byte) as char)?;
    }
    Ok(())
}

fn allowed(byte: u8) -> u8
    ensures value { result ≡ allowed byte }
    ensures ascii { result < 128 }
{
    if byte.is_ascii_alphanumeric() || byte == b'_' || byte == b'.' || byte == b'-' {
        byte
    } else {
        b'_'
    }
}

#[tactic(auto, unfolding(crate::specs::Putting::put_in))]
fn put_parameters(
    alloc: Global,
    fields: &mut FieldMap,
    id: &str,
    params: &[(Text, Text)],
) -> Result<(), DecodeFault>
    ensures { IsPut (fold then_put (Ok fields.old) (map (parameter_field id.now) params.now)) result fields.new }
{
    for (name, value) in params {
        let field = parameter_name(alloc, id, name.as_str())?;
        put_text(fields, field.as_str(), value.copy()?)?;
    }
    Ok(())
}

fn put_elements(
    alloc: Global,
    fields: &mut FieldMap,
    elements: &[Element],
) -> Result<(), DecodeFault>
    ensures { IsPut (fold then_put (Ok fields.old) (flat_map element_fields elements.now)) result fields.new }
{
    for element in elements {
        put_parameters(
            alloc,
            fields,
            element.id.as_str(),
            element.params.as_slice(),
        )?;
    }
    Ok(())
}

/// Puts in the fields that each message has.
#[tactic(auto, unfolding(crate::specs::Putting::put_common))]
fn put_common(
    alloc: Global,
    fields: &mut FieldMap,
    message: Text,
    source: Text,
    timestamp: i64,
    pri: u8,
) -> Result<(), DecodeFault>
    ensures { IsPut (put_common fields.old message source timestamp pri) result fields.new }
{
    let facility = Text::from_str(alloc, facility_name(pri / 8))?;
    put_text(fields, "message", message)?;
    put_text(fields, "source", source)?;
    put_whole(fields, "timestamp", timestamp)?;
    put_whole(fields, "level", i64::from(pri % 8))?;
    put_text(fields, "facility", facility)
}

/// The map of the fields of what a payload says.
#[tactic(auto, unfolding(crate::specs::Putting::put_in_order))]
pub fn map_of(alloc: Global, content: Content) -> Result<FieldMap, DecodeFault>
    ensures { IsDecoded (put_in_order content) result }
{
    let mut fields = FieldMap::with_capacity(alloc, ROOM)?;
    put_common(
        alloc,
        &mut fields,
        content.message,
        content.source,
        content.timestamp,
        content.pri,
    )?;
    put_if(&mut fields, "application_name", content.application_name)?;
    put_if(&mut fields, "process_id", content.process_id)?;
    put_if(&mut fields, "message_id", content.message_id)?;
    put_elements(alloc, &mut fields, content.elements.as_slice())?;
    Ok(fields)
}
