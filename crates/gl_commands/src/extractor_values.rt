// The values of extractors. The keys of each object stand in the order of their bytes.
ghost use Rattle.std.specs.Prelude.{◌≡◌, IfOk};
ghost use Rattle.serde_json.specs.Data.{string};
ghost use Rattle.serde_json.specs.View.{view};
ghost use Rattle.gl_extract.specs.declared.parts.ExtractorKind.TheVariants.{Regex, Substring, Split, Grok, Json};
ghost use Rattle.gl_commands.specs.Texts.{list_data, condition_data, converter_name, extractor_data};

use crate::names::converter_name;
use gl_base::Text;
use gl_extract::{Condition, Converter, ExtractorKind, ExtractorParts};
use serde_json::{Value, json};
use std::alloc::{AllocError, Global};

pub fn extractors_value(alloc: Global, extractors: &[ExtractorParts]) -> Result<Value, AllocError>
    ensures { IfOk result (λ v. view v ≡ list_data extractor_data extractors.now) }
{
    let mut values = Vec::with_capacity(alloc, extractors.len())?;
    for extractor in extractors {
        values.push(extractor_value(alloc, extractor)?)?;
    }
    Ok(Value::Array(values))
}

fn extractor_value(alloc: Global, parts: &ExtractorParts) -> Result<Value, AllocError>
    ensures { IfOk result (λ v. view v ≡ extractor_data parts.now) }
{
    match &parts.kind {
        ExtractorKind::Regex { pattern, target } => regex_value(alloc, parts, pattern, target),
        ExtractorKind::Substring { begin, end, target } => {
            substring_value(alloc, parts, *begin, *end, target)
        }
        ExtractorKind::Split { by, index, target } => {
            split_value(alloc, parts, by, *index, target)
        }
        ExtractorKind::Grok { pattern } => grok_value(alloc, parts, pattern),
        ExtractorKind::Json => json_value(alloc, parts),
    }
}

fn regex_value(
    alloc: Global,
    parts: &ExtractorParts,
    pattern: &Text,
    target: &Text,
) -> Result<Value, AllocError>
    requires { parts.now.kind ≡ Regex pattern.now target.now }
    ensures { IfOk result (λ v. view v ≡ extractor_data parts.now) }
{
    json!(in alloc; {
        "condition": condition_value(alloc, &parts.condition)?,
        "converters": converters_value(alloc, parts.converters.as_slice())?,
        "cut": parts.cut,
        "kind": "regex",
        "pattern": pattern.as_str(),
        "source": parts.source.as_str(),
        "target": target.as_str()
    })
}

fn substring_value(
    alloc: Global,
    parts: &ExtractorParts,
    begin: u64,
    end: u64,
    target: &Text,
) -> Result<Value, AllocError>
    requires { parts.now.kind ≡ Substring begin end target.now }
    ensures { IfOk result (λ v. view v ≡ extractor_data parts.now) }
{
    json!(in alloc; {
        "begin": begin,
        "condition": condition_value(alloc, &parts.condition)?,
        "converters": converters_value(alloc, parts.converters.as_slice())?,
        "cut": parts.cut,
        "end": end,
        "kind": "substring",
        "source": parts.source.as_str(),
        "target": target.as_str()
    })
}

fn split_value(
    alloc: Global,
    parts: &ExtractorParts,
    by: &Text,
    index: u64,
    target: &Text,
) -> Result<Value, AllocError>
    requires { parts.now.kind ≡ Split by.now index target.now }
    ensures { IfOk result (λ v. view v ≡ extractor_data parts.now) }
{
    json!(in alloc; {
        "by": by.as_str(),
        "condition": condition_value(alloc, &parts.condition)?,
        "converters": converters_value(alloc, parts.converters.as_slice())?,
        "cut": parts.cut,
        "index": index,
        "kind": "split",
        "source": parts.source.as_str(),
        "target": target.as_str()
    })
}

fn grok_value(alloc: Global, parts: &ExtractorParts, pattern: &Text) -> Result<Value, AllocError>
    requires { parts.now.kind ≡ Grok pattern.now }
    ensures { IfOk result (λ v. view v ≡ extractor_data parts.now) }
{
    json!(in alloc; {
        "condition": condition_value(alloc, &parts.condition)?,
        "converters": converters_value(alloc, parts.converters.as_slice())?,
        "cut": parts.cut,
        "kind": "grok",
        "pattern": pattern.as_str(),
        "source": parts.source.as_str(),
        "target": ""
    })
}

fn json_value(alloc: Global, parts: &ExtractorParts) -> Result<Value, AllocError>
    requires { parts.now.kind ≡ Json }
    ensures { IfOk result (λ v. view v ≡ extractor_data parts.now) }
{
    json!(in alloc; {
        "condition": condition_value(alloc, &parts.condition)?,
        "converters": converters_value(alloc, parts.converters.as_slice())?,
        "cut": parts.cut,
        "kind": "json",
        "source": parts.source.as_str(),
        "target": ""
    })
}

fn condition_value(alloc: Global, condition: &Condition) -> Result<Value, AllocError>
    ensures { IfOk result (λ v. view v ≡ condition_data condition.now) }
{
    match condition {
        Condition::None => Ok(Value::Null),
        Condition::Contains(part) => json!(in alloc; { "contains": part.as_str() }),
        Condition::Regex(pattern) => json!(in alloc; { "regex": pattern.as_str() }),
    }
}

fn converters_value(alloc: Global, converters: &[Converter]) -> Result<Value, AllocError>
    ensures { IfOk result (λ v. view v ≡ list_data (λ converter. string (converter_name converter)) converters.now) }
{
    let mut values = Vec::with_capacity(alloc, converters.len())?;
    for converter in converters {
        values.push(json!(in alloc; converter_name(*converter))?)?;
    }
    Ok(Value::Array(values))
}
