//! Extractors: fields that are made of the text of another field.
//!
//! An `Extractor` is what its parts say, and its parts are always lawful (`specs/Refusals`). `apply` changes a
//! message's fields to exactly those that `specs/Extraction` defines: a function of the texts of patterns, which
//! mean what `gl_patterns` defines for them, and of the fields. Patterns are built beforehand and lent to it.
//! Converters are in `specs/Converting`, the fields of a JSON object in `specs/Objects`: by `law_object_fields` those that
//! the grammar of gl_json gives its members.
#![tactic(auto)]

mod built;
mod convert;
mod extract;
mod extractor;
mod groups;
mod laws;
mod parts;
mod same;
mod set_many;
mod take;

pub use built::Built;
pub use extract::apply;
pub use extractor::{ExtractRefusal, Extractor};
pub use laws::law_object_fields;
pub use parts::{Condition, Converter, ExtractorKind, ExtractorParts};
