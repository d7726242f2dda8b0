// What a worker is given, and what it gives back.
ghost use Rattle.std.specs.Prelude.{◌≡◌, IfOk, IfErr, map};
ghost use Rattle.std.specs.List.{All};
ghost use Rattle.gl_fields.specs.Bounds.{IsOutcome};
ghost use Rattle.gl_outcome.specs.Outcomes.{outcome_under};
ghost use Rattle.gl_outcome.specs.Staging.{IsStageableEntry};
ghost use Rattle.gl_process.specs.Once.{bounded_once};

use gl_base::{Items, Joint};
use gl_config::Config;
use gl_fields::{Entry, Outcome};
use gl_outcome::{Compiled, stage_entries};
use std::alloc::{AllocError, Global};

/// A range of the journal to be worked on: its entries from a position on, which are of one version, and the configuration of
/// that version.
#[derive(Drop)]
pub struct Range {
    pub first: u64,
    pub config: Config,
    pub entries: Items<Joint<Entry>>,
}

/// A range with the outcomes of its entries.
#[derive(Drop)]
pub struct Work {
    pub range: Range,
    pub outcomes: Items<Outcome>,
    pub ghost staged: { outcomes ≡ map (outcome_under range.config) range.entries },
    pub ghost bounded: { All IsOutcome outcomes } by { bounded_once outcomes },
}

/// Stages a range under its configuration, which was compiled: gives it with the outcomes of its entries, one after another.
/// Where memory is wanting it gives the range back. The patterns are as before either way.
pub fn stage_range(
    alloc: Global,
    range: Range,
    compiled: &mut Compiled,
) -> Result<Work, (Range, AllocError)>
    requires fits { compiled.old ≡ range.config }
    requires entries { All (IsStageableEntry range.config) range.entries }
    ensures value { IfOk result (λ work. work.range ≡ range) }
    ensures err { IfErr result (λ refused. refused.0 ≡ range) }
    ensures same { compiled.new ≡ compiled.old }
{
    match stage_entries(alloc, compiled, range.entries.as_slice()) {
        Ok(outcomes) => Ok(Work { range, outcomes }),
        Err(error) => Err((range, error)),
    }
}

impl Work {
    /// The range. None of these calls takes memory.
    pub fn range(&self) -> &Range
        ensures { result.now ≡ self.now.range }
    {
        &self.range
    }

    /// The outcomes of the range's entries, in their order.
    pub fn outcomes(&self) -> &[Outcome]
        ensures value { result.now ≡ self.now.outcomes }
        ensures staged { result.now ≡ map (outcome_under self.now.range.config) self.now.range.entries }
    {
        self.outcomes.as_slice()
    }

    /// Both of their own.
    pub fn into_parts(self) -> (Range, Items<Outcome>)
        ensures range { result.0 ≡ self.range }
        ensures outcomes { result.1 ≡ self.outcomes }
    {
        (self.range, self.outcomes)
    }
}
