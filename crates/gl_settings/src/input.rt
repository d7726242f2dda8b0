ghost use Rattle.std.specs.Prelude.{◌≡◌, ◌↔◌, IfOk, IsTrue};
ghost use Rattle.gl_settings.specs.Settings.{new_input};

use crate::Named;
use gl_base::{Items, Text};
use gl_extract::Extractor;
use gl_fields::InputKind;
use std::alloc::{AllocError, Global};

/// An input: the name by which senders reach it, what decodes its payloads, and its extractors, in the order in which they
/// run.
#[derive(Drop)]
pub struct Input {
    pub name: Text,
    pub kind: InputKind,
    pub extractors: Items<Extractor>,
}

impl Input {
    /// An input of this name and kind, without extractors.
    pub fn new(alloc: Global, name: &str, kind: InputKind) -> Result<Input, AllocError>
        ensures { IfOk result (λ i. i ≡ new_input name.now kind) }
    {
        Ok(Input {
            name: Text::from_str(alloc, name)?,
            kind,
            extractors: Items::new(alloc),
        })
    }
}

impl Named for Input {
    ghost name_of = { λ i. i.name };

    fn name(&self) -> &str {
        self.name.as_str()
    }

    fn copied(&self, alloc: Global) -> Result<Input, AllocError> {
        Ok(Input {
            name: self.name.copy()?,
            kind: self.kind,
            extractors: copy_extractors(alloc, self.extractors.as_slice())?,
        })
    }

    fn is_same(&self, other: &Input) -> bool {
        self.kind == other.kind
            && self.name.same(&other.name)
            && same_extractors(self.extractors.as_slice(), other.extractors.as_slice())
    }
}

/// Equal extractors.
pub fn copy_extractors(
    alloc: Global,
    extractors: &[Extractor],
) -> Result<Items<Extractor>, AllocError>
    ensures { IfOk result (λ copies. copies ≡ extractors.now) }
{
    let mut copies = Items::new(alloc);
    for extractor in extractors {
        copies.push(extractor.copy()?)?;
    }
    Ok(copies)
}

/// Whether both are the same extractors, in the same order.
fn same_extractors(extractors: &[Extractor], others: &[Extractor]) -> bool
    ensures { IsTrue result ↔ (extractors.now ≡ others.now) }
{
    if extractors.len() != others.len() {
        return false;
    }
    for (index, extractor) in extractors.iter().enumerate() {
        if !extractor.same(&others[index]) {
            return false;
        }
    }
    true
}
