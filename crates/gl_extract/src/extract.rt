// An extractor works on the fields of a message.
ghost use Rattle.std.specs.Prelude.{◌≡◌, ℕ, List, IfOk, OnOk, OnErr, IfSome, option_and_then};
ghost use Rattle.gl_patterns.specs.Patterns.{group_in, CutsIn};
ghost use Rattle.gl_text.specs.Texts.{characters, piece};
ghost use Rattle.gl_extract.specs.Extraction.{extracted, given, is_met, source_text, taken, condition_of, pattern_of, AreBegun, Fits, IsBegun};

use crate::groups::set_named;
use crate::set_many::set_object;
use crate::take::set_part;
use crate::{Built, Condition, Extractor, ExtractorKind, ExtractorParts};
use gl_base::Text;
use gl_fields::FieldMap;
use gl_patterns::Pattern;
use gl_text::{characters, contains, piece};
use std::alloc::{AllocError, Global};

/// Changes the fields to what the extractor makes of them, with what was built for it.
///
/// Nothing happens where the source is missing or the condition isn't met. A field that the map refuses isn't set;
/// of the fields of a Grok or a Json the next ones still are. Where memory is wanting, some of the fields may have
/// been set, in their order.
#[tactic(auto, unfolding(crate::specs::Extraction::extracted))]
pub fn apply(
    alloc: Global,
    extractor: &Extractor,
    built: &mut Built,
    fields: &mut FieldMap,
) -> Result<(), AllocError>
    requires { Fits extractor.now built.old }
    ensures fields { OnOk result (fields.new ≡ extracted extractor.now built.old fields.old) }
    ensures err { OnErr result (IsBegun extractor.now built.old fields.old fields.new) }
    ensures same { built.new ≡ built.old }
{
    let parts = extractor.parts();
    let Some(text) = source_text(alloc, parts.source.as_str(), fields)? else {
        return Ok(());
    };
    if is_met(&parts.condition, &mut built.condition, text.as_str())? {
        take(alloc, parts, built, text.as_str(), fields)?;
    }
    Ok(())
}

/// The text of the source.
fn source_text(alloc: Global, source: &str, fields: &FieldMap) -> Result<Option<Text>, AllocError>
    ensures { IfOk result (λ text. text ≡ source_text source.now fields.now) }
{
    match fields.get(source) {
        Some(value) => Ok(Some(value.to_text(alloc)?)),
        None => Ok(None),
    }
}

#[tactic(auto, unfolding(crate::specs::Extraction::is_met))]
fn is_met(
    condition: &Condition,
    built: &mut Option<Pattern>,
    text: &str,
) -> Result<bool, AllocError>
    requires { built.old ≡ condition_of condition.now }
    ensures value { IfOk result (λ yes. yes ≡ is_met condition.now text.now) }
    ensures same { built.new ≡ built.old }
{
    match condition {
        Condition::None => Ok(true),
        Condition::Contains(part) => Ok(contains(text, part.as_str())),
        Condition::Regex(_) => match built {
            Some(pattern) => pattern.found(text),
            None => unreachable!(),
        },
    }
}

#[tactic(auto, unfolding(crate::specs::Extraction::taken, crate::specs::Extraction::given))]
fn take(
    alloc: Global,
    parts: &ExtractorParts,
    built: &mut Built,
    text: &str,
    fields: &mut FieldMap,
) -> Result<(), AllocError>
    requires { (expanded : List ℕ → List ℕ) × (built.old.pattern ≡ pattern_of expanded parts.now.kind) }
    ensures fields { OnOk result (fields.new ≡ taken parts.now.kind parts.now built.old text.now fields.old) }
    ensures err { OnErr result (AreBegun (given parts.now.kind parts.now built.old text.now) fields.old fields.new) }
    ensures same { built.new ≡ built.old }
{
    match &parts.kind {
        ExtractorKind::Regex { target, .. } => {
            let span = first_group(&mut built.pattern, text)?;
            set_part(alloc, parts, target.as_str(), text, span, fields)
        }
        ExtractorKind::Substring { begin, end, target } => {
            let span = characters(text, *begin, *end);
            set_part(alloc, parts, target.as_str(), text, span, fields)
        }
        ExtractorKind::Split { by, index, target } => {
            let span = piece(text, by.as_str(), *index);
            set_part(alloc, parts, target.as_str(), text, span, fields)
        }
        ExtractorKind::Grok { .. } => set_named(
            alloc,
            &mut built.pattern,
            built.names.as_slice(),
            text,
            fields,
        ),
        ExtractorKind::Json => set_object(alloc, text, fields),
    }
}

/// What group 1 spans in the first match of a pattern.
fn first_group(
    pattern: &mut Option<Pattern>,
    text: &str,
) -> Result<Option<(usize, usize)>, AllocError>
    ensures value { IfOk result (λ span. span ≡ option_and_then (λ p. group_in p text.now 1) pattern.old) }
    ensures cuts { IfOk result (λ span. IfSome span (CutsIn text.now)) }
    ensures same { pattern.new ≡ pattern.old }
{
    match pattern {
        Some(pattern) => pattern.group(text, 1),
        None => Ok(None),
    }
}
