// The fields of a grok: those of the names whose groups took part.
ghost use Rattle.std.specs.Prelude.{◌≡◌, IfOk, OnOk, OnErr, IfSome};
ghost use Rattle.gl_patterns.specs.Patterns.{named_in, CutsIn};
ghost use Rattle.gl_extract.specs.Extraction.{set_all, grok_fields, group_field, group_fields, group_name, AreBegun};
ghost use Rattle.gl_extract.specs.Groups.{AreGroups};

use crate::set_many::set_or_leave;
use gl_base::Text;
use gl_fields::{FieldMap, Value};
use gl_patterns::Pattern;
use std::alloc::{AllocError, Global};

/// Sets the fields of the names whose groups took part.
pub fn set_named(
    alloc: Global,
    pattern: &mut Option<Pattern>,
    names: &[Text],
    text: &str,
    fields: &mut FieldMap,
) -> Result<(), AllocError>
    ensures fields { OnOk result (fields.new ≡ set_all (grok_fields pattern.old names.now text.now) fields.old) }
    ensures err { OnErr result (AreBegun (grok_fields pattern.old names.now text.now) fields.old fields.new) }
    ensures same { pattern.new ≡ pattern.old }
{
    match pattern {
        Some(pattern) => set_groups(alloc, pattern, names, text, fields),
        None => Ok(()),
    }
}

/// The same of a pattern. One search gives what each of its groups spans.
#[tactic(auto, unfolding(crate::specs::Extraction::group_fields))]
fn set_groups(
    alloc: Global,
    pattern: &mut Pattern,
    names: &[Text],
    text: &str,
    fields: &mut FieldMap,
) -> Result<(), AllocError>
    ensures fields { OnOk result (fields.new ≡ set_all (group_fields pattern.old text.now 0 names.now) fields.old) }
    ensures err { OnErr result (AreBegun (group_fields pattern.old text.now 0 names.now) fields.old fields.new) }
    ensures same { pattern.new ≡ pattern.old }
{
    let spans = spans_of(alloc, pattern, text)?;
    for (number, name) in names.iter().enumerate() {
        let span = span_named(alloc, pattern, spans.as_slice(), number, text)?;
        set_span(alloc, span, name.as_str(), text, fields)?;
    }
    Ok(())
}

/// What the groups of a pattern span in its first match.
fn spans_of(
    alloc: Global,
    pattern: &mut Pattern,
    text: &str,
) -> Result<Vec<Option<(usize, usize)>>, AllocError>
    ensures groups { IfOk result (λ spans. AreGroups pattern.new text.now spans.items) }
    ensures same { pattern.new ≡ pattern.old }
{
    let mut spans = vec![in alloc; None; pattern.group_count()]?;
    pattern.groups(text, spans.as_mut_slice());
    Ok(spans)
}

/// What the group spans whose name is `g` and this number.
fn span_named(
    alloc: Global,
    pattern: &Pattern,
    spans: &[Option<(usize, usize)>],
    number: usize,
    text: &str,
) -> Result<Option<(usize, usize)>, AllocError>
    requires { AreGroups pattern.now text.now spans.now }
    ensures value { IfOk result (λ span. span ≡ named_in pattern.now text.now (group_name number)) }
    ensures cuts { IfOk result (λ span. IfSome span (CutsIn text.now)) }
{
    let name = format!(in alloc; "g{number}")?;
    match pattern.group_of_name(name.as_str()) {
        Some(group) => Ok(spans[group as usize]),
        None => Ok(None),
    }
}

/// Sets a field to what stands in a span, if there is one.
fn set_span(
    alloc: Global,
    span: Option<(usize, usize)>,
    name: &str,
    text: &str,
    fields: &mut FieldMap,
) -> Result<(), AllocError>
    requires { IfSome span (CutsIn text.now) }
    ensures fields { OnOk result (fields.new ≡ set_all (group_field name.now text.now span) fields.old) }
    ensures err { OnErr result (fields.new ≡ fields.old) }
{
    let Some((from, to)) = span else {
        return Ok(());
    };
    let part = Text::from_str(alloc, &text[from..to])?;
    set_or_leave(fields, name, Value::Text(part))?;
    Ok(())
}
