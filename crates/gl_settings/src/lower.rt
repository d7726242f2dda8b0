// The parts that lower crates declare, under their names.
use crate::Named;
use gl_check::Checked;
use gl_fields::SetRule;
use gl_rulelang::Pipeline;
use gl_streams::Stream;
use std::alloc::{AllocError, Global};

impl Named for SetRule {
    ghost name_of = { λ set. set.name };

    fn name(&self) -> &str {
        self.name.as_str()
    }

    fn copied(&self, _alloc: Global) -> Result<SetRule, AllocError> {
        self.copy()
    }

    fn is_same(&self, other: &SetRule) -> bool {
        self.same(other)
    }
}

impl Named for Stream {
    ghost name_of = { λ stream. stream.name };

    fn name(&self) -> &str {
        self.name.as_str()
    }

    fn copied(&self, alloc: Global) -> Result<Stream, AllocError> {
        self.copy(alloc)
    }

    fn is_same(&self, other: &Stream) -> bool {
        self.same(other)
    }
}

impl Named for Checked {
    ghost name_of = { λ rule. rule.name };

    fn name(&self) -> &str {
        self.rule().name.as_str()
    }

    fn copied(&self, _alloc: Global) -> Result<Checked, AllocError> {
        self.copy()
    }

    fn is_same(&self, other: &Checked) -> bool {
        self.same(other)
    }
}

impl Named for Pipeline {
    ghost name_of = { λ pipeline. pipeline.name };

    fn name(&self) -> &str {
        self.name.as_str()
    }

    fn copied(&self, alloc: Global) -> Result<Pipeline, AllocError> {
        self.copy(alloc)
    }

    fn is_same(&self, other: &Pipeline) -> bool {
        self.same(other)
    }
}
