ghost use Rattle.std.specs.Prelude.{◌≡◌, ◌↔◌, IsTrue, IfOk, option_copied};
ghost use Rattle.gl_extract.specs.Refusals.{accepted, is_target, is_range, may_cut, refusal_of, target_of};

use crate::same::same_parts;
use crate::{ExtractorKind, ExtractorParts};
use gl_base::Text;
use gl_fields::is_field_name;
use std::alloc::AllocError;
use std::marker::Model;

/// Why parts make no extractor.
#[derive(Clone, Copy, Debug, PartialEq, Eq)]
pub enum ExtractRefusal {
    /// The source or the target isn't a name of a field, or the target is `timestamp`.
    BadName,
    /// Grok and Json cut nothing; nothing is cut from `timestamp`, nor from a source that is the target.
    CutNotAllowed,
    /// `begin` isn't below `end`, `end` passes 1,048,576, `index` is 0, or `by` is empty.
    BadRange,
}

/// A rule that makes fields of a field's text.
#[derive(Drop)]
pub struct Extractor {
    parts: ExtractorParts,
}

impl Model for Extractor {
    ghost use Rattle.std.specs.Prelude.{◌≡◌, None};
    ghost use Rattle.gl_extract.specs.declared.parts.ExtractorParts.{ExtractorParts};

    ghost Value = { ExtractorParts };

    ghost view = { λ e. e.parts };

    ghost use Rattle.gl_extract.specs.Refusals.{refusal_of};

    ghost invariant = { λ e. refusal_of e.parts ≡ None };
}

/// The greatest end of a range of characters.
const MAX_END: u64 = 1_048_576;

impl Extractor {
    /// The extractor of these parts. It takes no memory.
    ///
    /// The first refusal that has a cause is told, in the order in which they are listed.
    pub fn new(parts: ExtractorParts) -> Result<Extractor, ExtractRefusal>
        ensures { result ≡ accepted parts }
    {
        if !is_field_name(parts.source.as_str()) || !is_target(&parts.kind) {
            return Err(ExtractRefusal::BadName);
        }
        if parts.cut && !may_cut(&parts.source, &parts.kind) {
            return Err(ExtractRefusal::CutNotAllowed);
        }
        if !is_range(&parts.kind) {
            return Err(ExtractRefusal::BadRange);
        }
        Ok(Extractor { parts })
    }

    /// Its parts, which are lawful.
    pub fn parts(&self) -> &ExtractorParts
        ensures value { result.now ≡ self.now }
        ensures lawful { refusal_of self.now ≡ None }
    {
        &self.parts
    }

    /// Whether both are made of equal parts. It takes no memory.
    pub fn same(&self, other: &Self) -> bool
        ensures { IsTrue result ↔ (self.now ≡ other.now) }
    {
        same_parts(&self.parts, &other.parts)
    }

    /// An equal extractor.
    pub fn copy(&self) -> Result<Extractor, AllocError>
        ensures { IfOk result (λ e. e ≡ self.now) }
    {
        Ok(Extractor {
            parts: self.parts.copy()?,
        })
    }
}

/// The name of the field that is set, where the kind has one.
fn target_of(kind: &ExtractorKind) -> Option<&Text>
    ensures { option_copied result ≡ target_of kind.now }
{
    match kind {
        ExtractorKind::Regex { target, .. }
        | ExtractorKind::Substring { target, .. }
        | ExtractorKind::Split { target, .. } => Some(target),
        ExtractorKind::Grok { .. } | ExtractorKind::Json => None,
    }
}

fn is_target(kind: &ExtractorKind) -> bool
    ensures { result ≡ is_target (target_of kind.now) }
{
    match target_of(kind) {
        Some(target) => is_field_name(target.as_str()) && target.as_str() != "timestamp",
        None => true,
    }
}

fn may_cut(source: &Text, kind: &ExtractorKind) -> bool
    ensures { result ≡ may_cut source.now (target_of kind.now) }
{
    match target_of(kind) {
        Some(target) => source.as_str() != "timestamp" && !target.same(source),
        None => false,
    }
}

fn is_range(kind: &ExtractorKind) -> bool
    ensures { result ≡ is_range kind.now }
{
    match kind {
        ExtractorKind::Substring { begin, end, .. } => *begin < *end && *end <= MAX_END,
        ExtractorKind::Split { by, index, .. } => *index > 0 && !by.is_empty(),
        ExtractorKind::Regex { .. } | ExtractorKind::Grok { .. } | ExtractorKind::Json => true,
    }
}
