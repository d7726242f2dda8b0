// The commands on named patterns of grok.
ghost use Rattle.std.specs.Prelude.{◌≡◌, ◌-◌, ◌<◌, ◌^◌, None, IfOk, IfErr, OnOk};
ghost use Rattle.gl_grok.specs.Tables.{table_of, with_pattern};
ghost use Rattle.gl_settings.specs.Limits.{Refuses};
ghost use Rattle.gl_config.specs.Next.{with_grok, behind};
ghost use Rattle.gl_config.specs.Applying.{grok_name_cause, grok_cause, others_cause, new_grok_refusal, grok_refusal, Makes};

use crate::known::has_grok;
use crate::own::Own;
use crate::texts::{check_inputs, check_named, check_pattern};
use gl_base::Text;
use gl_grok::name_pattern;
use gl_settings::{ConfigRefusal, Parts, copy_patterns, is_grok_name};
use std::alloc::{AllocError, Global};
use std::collections::BTreeMap;

#[tactic(auto, using(crate::proofs::Refusing::refuses_first, crate::proofs::Refusing::refuses_later, crate::proofs::Refusing::none_both))]
fn refuse_name(parts: &Parts, own: Own, name: &Text) -> Result<(), ConfigRefusal>
    ensures ok { OnOk result (grok_name_cause own parts.now name.now ≡ None) }
    ensures err { IfErr result (Refuses (grok_name_cause own parts.now name.now)) }
{
    if !is_grok_name(name.as_str()) {
        return Err(ConfigRefusal::BadName);
    }
    own.check(has_grok(parts, name))
}

/// The next table.
fn with_pattern(
    parts: &Parts,
    alloc: Global,
    name: &Text,
    pattern: &Text,
) -> Result<BTreeMap<String, String>, AllocError>
    ensures { IfOk result (λ groks. table_of groks ≡ with_pattern parts.now.groks name.now pattern.now) }
{
    let mut groks = copy_patterns(parts.groks())?;
    name_pattern(alloc, &mut groks, name.as_str(), pattern.as_str())?;
    Ok(groks)
}

fn with_table(
    parts: &Parts,
    alloc: Global,
    groks: BTreeMap<String, String>,
) -> Result<Parts, AllocError>
    requires { parts.now.version < 2 ^ 64 - 1 }
    ensures { IfOk result (λ next. next ≡ behind parts.now (record parts.now { groks = table_of groks })) }
{
    parts.next()?.with_groks(alloc, groks)
}

/// A named pattern more.
#[tactic(auto, using(crate::proofs::Refusing::refuses_first, crate::proofs::Refusing::refuses_later, crate::proofs::Refusing::none_both))]
pub fn create_grok(
    parts: &Parts,
    alloc: Global,
    name: &Text,
    pattern: &Text,
) -> Result<Parts, ConfigRefusal>
    requires { parts.now.version < 2 ^ 64 - 1 }
    ensures ok { IfOk result (Makes (new_grok_refusal parts.now name.now pattern.now) (behind parts.now (with_grok parts.now name.now pattern.now))) }
    ensures err { IfErr result (Refuses (new_grok_refusal parts.now name.now pattern.now)) }
{
    refuse_name(parts, Own::Created, name)?;
    let groks = with_pattern(parts, alloc, name, pattern)?;
    check_pattern(alloc, &groks, pattern.as_str())?;
    Ok(with_table(parts, alloc, groks)?)
}

/// Whether all patterns that were expanded before are expanded by this table too.
#[tactic(auto, using(crate::proofs::Refusing::refuses_first, crate::proofs::Refusing::refuses_later, crate::proofs::Refusing::none_both))]
fn check_others(
    parts: &Parts,
    alloc: Global,
    groks: &BTreeMap<String, String>,
) -> Result<(), ConfigRefusal>
    ensures ok { OnOk result (others_cause parts.now (table_of groks.now) ≡ None) }
    ensures err { IfErr result (Refuses (others_cause parts.now (table_of groks.now))) }
{
    check_named(alloc, groks)?;
    check_inputs(alloc, groks, parts.inputs())
}

/// Another pattern for a name that is there.
#[tactic(auto, using(crate::proofs::Refusing::refuses_first, crate::proofs::Refusing::refuses_later, crate::proofs::Refusing::none_both))]
pub fn set_grok(
    parts: &Parts,
    alloc: Global,
    name: &Text,
    pattern: &Text,
) -> Result<Parts, ConfigRefusal>
    requires { parts.now.version < 2 ^ 64 - 1 }
    ensures ok { IfOk result (Makes (grok_refusal parts.now name.now pattern.now) (behind parts.now (with_grok parts.now name.now pattern.now))) }
    ensures err { IfErr result (Refuses (grok_refusal parts.now name.now pattern.now)) }
{
    refuse_name(parts, Own::Changed, name)?;
    let groks = with_pattern(parts, alloc, name, pattern)?;
    check_pattern(alloc, &groks, pattern.as_str())?;
    check_others(parts, alloc, &groks)?;
    Ok(with_table(parts, alloc, groks)?)
}
