// Lists of texts, of ids and of converters.
ghost use Rattle.serde_json.specs.Find.{as_str};
ghost use Rattle.serde_json.specs.View.{view};
ghost use Rattle.gl_commands.specs.CommandReading.{list_at, id_in, converter_in, Reads};

use crate::keys::values_at;
use crate::names::converter_named;
use crate::unread::Unread;
use gl_base::{Items, Text};
use gl_extract::Converter;
use gl_text::read_id;
use serde_json::Value;
use std::alloc::Global;

pub fn texts_at(alloc: Global, value: &Value, key: &str) -> Result<Items<Text>, Unread>
    ensures { Reads result (list_at as_str key.now (view value.now)) }
{
    let values = values_at(value, key)?;
    let mut texts = Items::new(alloc);
    for value in values {
        let text = value.as_str().ok_or(Unread::Other)?;
        texts.push(Text::from_str(alloc, text)?)?;
    }
    Ok(texts)
}

pub fn ids_at(alloc: Global, value: &Value, key: &str) -> Result<Items<u64>, Unread>
    ensures { Reads result (list_at id_in key.now (view value.now)) }
{
    let values = values_at(value, key)?;
    let mut ids = Items::new(alloc);
    for value in values {
        ids.push(id_in(value)?)?;
    }
    Ok(ids)
}

#[tactic(auto, unfolding(crate::specs::CommandReading::id_in))]
fn id_in(value: &Value) -> Result<u64, Unread>
    ensures { Reads result (id_in (view value.now)) }
{
    let text = value.as_str().ok_or(Unread::Other)?;
    read_id(text).ok_or(Unread::Other)
}

pub fn converters_at(alloc: Global, value: &Value, key: &str) -> Result<Items<Converter>, Unread>
    ensures { Reads result (list_at converter_in key.now (view value.now)) }
{
    let values = values_at(value, key)?;
    let mut converters = Items::new(alloc);
    for value in values {
        converters.push(converter_in(value)?)?;
    }
    Ok(converters)
}

#[tactic(auto, unfolding(crate::specs::CommandReading::converter_in))]
fn converter_in(value: &Value) -> Result<Converter, Unread>
    ensures { Reads result (converter_in (view value.now)) }
{
    let name = value.as_str().ok_or(Unread::Other)?;
    converter_named(name).ok_or(Unread::Other)
}
