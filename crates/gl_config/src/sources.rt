// The commands on rules and pipelines, whose names stand in their sources.
ghost use Rattle.std.specs.Prelude.{◌≡◌, ◌-◌, ◌<◌, ◌^◌, None, IfOk, IfErr, OnOk, Ok};
ghost use Rattle.gl_rulelang.specs.Tree.{rule_of};
ghost use Rattle.gl_rulelang.specs.Rules.{rule_text};
ghost use Rattle.gl_rulelang.specs.Pipelines.{pipeline_text};
ghost use Rattle.gl_settings.specs.Settings.{has_rule, has_pipeline};
ghost use Rattle.gl_settings.specs.Limits.{Refuses};
ghost use Rattle.gl_config.specs.Next.{with_rule, with_pipeline, behind};
ghost use Rattle.gl_config.specs.Applying.{title_cause, rule_refusal, pipeline_refusal, Makes};

use crate::known::{has_named, has_pipeline, has_rule};
use crate::own::Own;
use crate::texts::{check_rule, pipeline_in, rule_in};
use gl_base::Text;
use gl_check::Checked;
use gl_rulelang::{Pipeline, Rule};
use gl_settings::{ConfigRefusal, Parts, is_title, placed};
use std::alloc::{AllocError, Global};

#[tactic(auto, using(crate::proofs::Refusing::refuses_first, crate::proofs::Refusing::refuses_later, crate::proofs::Refusing::none_both))]
fn refuse_title(own: Own, name: &Text, is_there: bool) -> Result<(), ConfigRefusal>
    ensures ok { OnOk result (title_cause own name.now is_there ≡ None) }
    ensures err { IfErr result (Refuses (title_cause own name.now is_there)) }
{
    if !is_title(name.as_str()) {
        return Err(ConfigRefusal::BadName);
    }
    own.check(is_there)
}

#[tactic(auto, using(crate::proofs::Refusing::refuses_first, crate::proofs::Refusing::refuses_later, crate::proofs::Refusing::none_both))]
fn taken_rule(parts: &Parts, alloc: Global, own: Own, rule: Rule) -> Result<Checked, ConfigRefusal>
    ensures ok { IfOk result (λ taken. (rule_refusal own parts.now (Ok (rule_of rule)) ≡ None) × (taken ≡ rule_of rule)) }
    ensures err { IfErr result (Refuses (rule_refusal own parts.now (Ok (rule_of rule)))) }
{
    refuse_title(own, &rule.name, has_rule(parts, &rule.name))?;
    check_rule(alloc, rule)
}

fn with_rule(parts: &Parts, alloc: Global, rule: Checked) -> Result<Parts, AllocError>
    requires { parts.now.version < 2 ^ 64 - 1 }
    ensures { IfOk result (λ next. next ≡ behind parts.now (with_rule parts.now (Ok rule))) }
{
    let rules = placed(alloc, rule, parts.rules())?;
    parts.next()?.with_rules(alloc, rules)
}

/// A rule more, or another in the place of one.
pub fn put_rule(
    parts: &Parts,
    alloc: Global,
    own: Own,
    source: &Text,
) -> Result<Parts, ConfigRefusal>
    requires { parts.now.version < 2 ^ 64 - 1 }
    ensures ok { IfOk result (Makes (rule_refusal own parts.now (rule_text source.now)) (behind parts.now (with_rule parts.now (rule_text source.now)))) }
    ensures err { IfErr result (Refuses (rule_refusal own parts.now (rule_text source.now))) }
{
    let rule = rule_in(alloc, source)?;
    let rule = taken_rule(parts, alloc, own, rule)?;
    Ok(with_rule(parts, alloc, rule)?)
}

#[tactic(auto, using(crate::proofs::Refusing::refuses_first, crate::proofs::Refusing::refuses_later, crate::proofs::Refusing::none_both))]
fn refuse_pipeline(parts: &Parts, own: Own, pipeline: &Pipeline) -> Result<(), ConfigRefusal>
    ensures ok { OnOk result (pipeline_refusal own parts.now (Ok pipeline.now) ≡ None) }
    ensures err { IfErr result (Refuses (pipeline_refusal own parts.now (Ok pipeline.now))) }
{
    refuse_title(own, &pipeline.name, has_pipeline(parts, &pipeline.name))?;
    if !has_named(parts, pipeline) {
        return Err(ConfigRefusal::UnknownName);
    }
    Ok(())
}

fn with_pipeline(parts: &Parts, alloc: Global, pipeline: Pipeline) -> Result<Parts, AllocError>
    requires { parts.now.version < 2 ^ 64 - 1 }
    ensures { IfOk result (λ next. next ≡ behind parts.now (with_pipeline parts.now (Ok pipeline))) }
{
    let pipelines = placed(alloc, pipeline, parts.pipelines())?;
    parts.next()?.with_pipelines(alloc, pipelines)
}

/// A pipeline more, or another in the place of one.
pub fn put_pipeline(
    parts: &Parts,
    alloc: Global,
    own: Own,
    source: &Text,
) -> Result<Parts, ConfigRefusal>
    requires { parts.now.version < 2 ^ 64 - 1 }
    ensures ok { IfOk result (Makes (pipeline_refusal own parts.now (pipeline_text source.now)) (behind parts.now (with_pipeline parts.now (pipeline_text source.now)))) }
    ensures err { IfErr result (Refuses (pipeline_refusal own parts.now (pipeline_text source.now))) }
{
    let pipeline = pipeline_in(alloc, source)?;
    refuse_pipeline(parts, own, &pipeline)?;
    Ok(with_pipeline(parts, alloc, pipeline)?)
}
