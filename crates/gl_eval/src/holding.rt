ghost use Rattle.std.specs.Prelude.{◌≡◌, IfOk};
ghost use Rattle.gl_check.specs.Checking.{pattern_texts};
ghost use Rattle.gl_functions.specs.Worlds.{known_of};
ghost use Rattle.gl_eval.specs.Meaning.{condition_holds};

use crate::patterns::RulePatterns;
use crate::scope::Scope;
use crate::walking::meaning_of;
use gl_check::Checked;
use gl_fields::FieldMap;
use gl_functions::World;
use std::alloc::{AllocError, Global};

/// Whether a rule's condition is true of a message with these fields that is in these streams.
///
/// The patterns are those of the rule's `pattern_texts`, each at its place; they are as before.
pub fn holds(
    alloc: Global,
    rule: &Checked,
    patterns: &mut RulePatterns,
    world: &World<'_>,
    fields: &FieldMap,
    streams: &[u64],
) -> Result<bool, AllocError>
    requires { patterns.old ≡ pattern_texts rule.now }
    ensures value { IfOk result (λ yes. yes ≡ condition_holds (known_of world.now) fields.now streams.now rule.now) }
    ensures same { patterns.new ≡ patterns.old }
{
    let scope = Scope {
        world,
        fields,
        streams,
        variables: &[],
    };
    patterns.row.next = 0;
    let value = meaning_of(alloc, &scope, &rule.rule().condition, &mut patterns.row)?;
    Ok(value.is_true())
}
