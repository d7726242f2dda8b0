// What a worker is given, and what it gives back.
ghost use Rattle.std.specs.Prelude.{◌≡◌, IfOk, IfErr, map};
ghost use Rattle.std.specs.List.{All};
ghost use Rattle.gl_fields.specs.Bounds.{IsOutcome};
ghost use Rattle.gl_node.specs.Bounded.{bounded_once};
ghost use Rattle.gl_node.specs.Decoding.{outcome_under};

use crate::config::Config;
use crate::staging::stage_entries;
use gl_base::Items;
use gl_fields::{Entry, Outcome};
use std::alloc::{AllocError, Global};

/// A range of the journal to be worked on: its entries from a position on, which are of one version,
/// and the configuration of that version.
#[derive(Drop)]
pub struct Range {
    pub first: u64,
    pub config: Config,
    pub entries: Items<Entry>,
}

/// A range with the outcomes of its entries.
#[derive(Drop)]
pub struct Work {
    pub range: Range,
    pub outcomes: Items<Outcome>,
    pub ghost staged: { outcomes ≡ map (outcome_under range.config) range.entries },
    pub ghost bounded: { All IsOutcome outcomes } by { bounded_once outcomes },
}

/// Stages a range: gives it with the outcomes of its entries, one after another. Where memory is
/// wanting it gives the range back, and also where a moment is above 253,402,300,799,999 or a payload
/// has more than 1,048,576 bytes, which is so in no entry of a journal.
pub fn stage_range(alloc: Global, range: Range) -> Result<Work, (Range, AllocError)>
    ensures value { IfOk result (λ work. work.range ≡ range) }
    ensures err { IfErr result (λ refused. refused.0 ≡ range) }
{
    match stage_entries(alloc, &range.config, range.entries.as_slice()) {
        Ok(outcomes) => Ok(Work { range, outcomes }),
        Err(error) => Err((range, error)),
    }
}
