// The command on index sets.
ghost use Rattle.std.specs.Prelude.{◌≡◌, ◌-◌, ◌<◌, ◌^◌, None, IfOk, IfErr, OnOk};
ghost use Rattle.gl_commands.specs.declared.command.Command.TheVariants.{CreateIndexSet};
ghost use Rattle.gl_settings.specs.Limits.{Refuses};
ghost use Rattle.gl_config.specs.Next.{behind, changed};
ghost use Rattle.gl_config.specs.Applying.{set_refusal, Makes};

use gl_base::Text;
use gl_fields::SetRule;
use gl_settings::{ConfigRefusal, Parts, Text as BadText, has_name, is_short_name, placed};
use std::alloc::{AllocError, Global};

fn refuse_set(parts: &Parts, name: &Text, keep: u64) -> Result<(), ConfigRefusal>
    ensures ok { OnOk result (set_refusal parts.now name.now keep ≡ None) }
    ensures err { IfErr result (Refuses (set_refusal parts.now name.now keep)) }
{
    if !is_short_name(name.as_str()) {
        return Err(ConfigRefusal::BadName);
    }
    if has_name(name.as_str(), parts.sets()) {
        return Err(ConfigRefusal::NameTaken);
    }
    if keep == 0 {
        return Err(ConfigRefusal::BadText(BadText::Number));
    }
    Ok(())
}

fn with_set(
    parts: &Parts,
    alloc: Global,
    name: &Text,
    max_docs: u64,
    max_ms: u64,
    keep: u64,
) -> Result<Parts, AllocError>
    requires { parts.now.version < 2 ^ 64 - 1 }
    ensures { IfOk result (λ next. next ≡ behind parts.now (changed parts.now (CreateIndexSet name.now max_docs max_ms keep))) }
{
    let set = SetRule {
        name: name.copy()?,
        max_docs,
        max_ms,
        keep,
    };
    let sets = placed(alloc, set, parts.sets())?;
    parts.next()?.with_sets(alloc, sets)
}

/// An index set more.
pub fn create_set(
    parts: &Parts,
    alloc: Global,
    name: &Text,
    max_docs: u64,
    max_ms: u64,
    keep: u64,
) -> Result<Parts, ConfigRefusal>
    requires { parts.now.version < 2 ^ 64 - 1 }
    ensures ok { IfOk result (Makes (set_refusal parts.now name.now keep) (behind parts.now (changed parts.now (CreateIndexSet name.now max_docs max_ms keep)))) }
    ensures err { IfErr result (Refuses (set_refusal parts.now name.now keep)) }
{
    refuse_set(parts, name, keep)?;
    Ok(with_set(parts, alloc, name, max_docs, max_ms, keep)?)
}
