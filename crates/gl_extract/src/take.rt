// One part of a text is set in a field, and cut out of the source.
ghost use Rattle.std.specs.Prelude.{◌≡◌, IfOk, OnOk, OnErr, IfSome};
ghost use Rattle.gl_patterns.specs.Patterns.{CutsIn};
ghost use Rattle.gl_extract.specs.Extraction.{part_given, rest_of, with_cut, with_part, AreBegun};

use crate::ExtractorParts;
use crate::convert::converted_by;
use crate::set_many::set_or_leave;
use gl_base::Text;
use gl_fields::{FieldMap, Value};
use std::alloc::{AllocError, Global};

/// Sets what stands in the span in the target, and cuts it out of the source where that is asked for.
#[tactic(auto, unfolding(crate::specs::Extraction::with_part, crate::specs::Extraction::set_or_left))]
pub fn set_part(
    alloc: Global,
    parts: &ExtractorParts,
    target: &str,
    text: &str,
    span: Option<(usize, usize)>,
    fields: &mut FieldMap,
) -> Result<(), AllocError>
    requires { IfSome span (CutsIn text.now) }
    ensures fields { OnOk result (fields.new ≡ with_part parts.now target.now text.now span fields.old) }
    ensures err { OnErr result (AreBegun (part_given parts.now target.now text.now span) fields.old fields.new) }
{
    let Some((from, to)) = span else {
        return Ok(());
    };
    let part = Text::from_str(alloc, &text[from..to])?;
    let value = converted_by(alloc, parts.converters.as_slice(), Value::Text(part))?;
    if set_or_leave(fields, target, value)? {
        cut(alloc, parts, text, from, to, fields)?;
    }
    Ok(())
}

/// Sets the source to its text without the bytes from `from` to before `to`, where that is asked for.
#[tactic(auto, unfolding(crate::specs::Extraction::with_cut))]
fn cut(
    alloc: Global,
    parts: &ExtractorParts,
    text: &str,
    from: usize,
    to: usize,
    fields: &mut FieldMap,
) -> Result<(), AllocError>
    requires { CutsIn text.now (from, to) }
    ensures fields { OnOk result (fields.new ≡ with_cut parts.now text.now (from, to) fields.old) }
    ensures err { OnErr result (fields.new ≡ fields.old) }
{
    if parts.cut {
        let rest = text_without(alloc, text, from, to)?;
        set_or_leave(fields, parts.source.as_str(), Value::Text(rest))?;
    }
    Ok(())
}

/// The text without the bytes from `from` to before `to`.
fn text_without(alloc: Global, text: &str, from: usize, to: usize) -> Result<Text, AllocError>
    requires { CutsIn text.now (from, to) }
    ensures { IfOk result (λ t. t ≡ rest_of text.now (from, to)) }
{
    let mut rest = String::from_str(alloc, &text[..from])?;
    rest.push_str(&text[to..])?;
    Ok(Text::from_string(rest))
}
