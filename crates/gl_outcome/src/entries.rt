// Entries, one after another.
ghost use Rattle.std.specs.Prelude.{◌≡◌, map, IfOk};
ghost use Rattle.std.specs.List.{All};
ghost use Rattle.gl_fields.specs.Bounds.{IsOutcome};
ghost use Rattle.gl_outcome.specs.Outcomes.{outcome_under};
ghost use Rattle.gl_outcome.specs.Staging.{IsStageableEntry};

use crate::compiled::{Compiled, stage_message};
use gl_base::{Items, Joint};
use gl_fields::{Entry, Outcome};
use std::alloc::{AllocError, Global};

/// What these entries become under the configuration that was compiled, one after another. Its patterns are as before, also
/// where memory is wanting.
pub fn stage_entries(
    alloc: Global,
    compiled: &mut Compiled,
    entries: &[Joint<Entry>],
) -> Result<Items<Outcome>, AllocError>
    requires { All (IsStageableEntry compiled.old) entries.now }
    ensures value { IfOk result (λ outcomes. outcomes ≡ map (outcome_under compiled.old) entries.now) }
    ensures bounded { IfOk result (λ outcomes. All IsOutcome outcomes) }
    ensures same { compiled.new ≡ compiled.old }
{
    let mut outcomes = Items::with_capacity(alloc, entries.len())?;
    for entry in entries {
        let outcome = stage_entry(alloc, compiled, entry.get())?;
        outcomes.push(outcome)?;
    }
    Ok(outcomes)
}

fn stage_entry(alloc: Global, compiled: &mut Compiled, entry: &Entry) -> Result<Outcome, AllocError>
    requires { IsStageableEntry compiled.old entry.now }
    ensures value { IfOk result (λ outcome. outcome ≡ outcome_under compiled.old entry.now) }
    ensures bounded { IfOk result IsOutcome }
    ensures same { compiled.new ≡ compiled.old }
{
    match entry {
        Entry::Admin(_) => Ok(Outcome::Applied),
        Entry::Message(message) => stage_message(alloc, compiled, message),
    }
}
