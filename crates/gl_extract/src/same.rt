// Whether parts are equal.
ghost use Rattle.std.specs.Prelude.{◌≡◌, ◌↔◌, IsTrue};

use crate::{Condition, Converter, ExtractorKind, ExtractorParts};

pub fn same_parts(parts: &ExtractorParts, other: &ExtractorParts) -> bool
    ensures { IsTrue result ↔ (parts.now ≡ other.now) }
{
    if parts.cut != other.cut {
        return false;
    }
    if !parts.source.same(&other.source) {
        return false;
    }
    if !same_kind(&parts.kind, &other.kind) {
        return false;
    }
    if !same_condition(&parts.condition, &other.condition) {
        return false;
    }
    same_converters(parts.converters.as_slice(), other.converters.as_slice())
}

fn same_kind(kind: &ExtractorKind, other: &ExtractorKind) -> bool
    ensures { IsTrue result ↔ (kind.now ≡ other.now) }
{
    match (kind, other) {
        (
            ExtractorKind::Regex { pattern, target },
            ExtractorKind::Regex {
                pattern: other_pattern,
                target: other_target,
            },
        ) => pattern.same(other_pattern) && target.same(other_target),
        (
            ExtractorKind::Substring { begin, end, target },
            ExtractorKind::Substring {
                begin: other_begin,
                end: other_end,
                target: other_target,
            },
        ) => *begin == *other_begin && *end == *other_end && target.same(other_target),
        (
            ExtractorKind::Split { by, index, target },
            ExtractorKind::Split {
                by: other_by,
                index: other_index,
                target: other_target,
            },
        ) => *index == *other_index && by.same(other_by) && target.same(other_target),
        (
            ExtractorKind::Grok { pattern },
            ExtractorKind::Grok {
                pattern: other_pattern,
            },
        ) => pattern.same(other_pattern),
        (ExtractorKind::Json, ExtractorKind::Json) => true,
        _ => false,
    }
}

fn same_condition(condition: &Condition, other: &Condition) -> bool
    ensures { IsTrue result ↔ (condition.now ≡ other.now) }
{
    match (condition, other) {
        (Condition::None, Condition::None) => true,
        (Condition::Contains(part), Condition::Contains(other_part)) => part.same(other_part),
        (Condition::Regex(pattern), Condition::Regex(other_pattern)) => pattern.same(other_pattern),
        _ => false,
    }
}

fn same_converters(converters: &[Converter], other: &[Converter]) -> bool
    ensures { IsTrue result ↔ (converters.now ≡ other.now) }
{
    converters == other
}
