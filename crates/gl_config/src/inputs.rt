// The commands on inputs.
ghost use Rattle.std.specs.Prelude.{◌≡◌, ◌-◌, ◌<◌, ◌^◌, None, map, IfOk, IfErr, OnOk};
ghost use Rattle.gl_commands.specs.declared.command.Command.TheVariants.{CreateInput, SetExtractors};
ghost use Rattle.gl_settings.specs.Limits.{Refuses};
ghost use Rattle.gl_config.specs.Next.{with_extractors, behind, changed};
ghost use Rattle.gl_config.specs.Applying.{first_of, extractor_cause, input_refusal, extractors_refusal, Makes};

use crate::texts::extractors_of;
use gl_base::{Items, Text};
use gl_extract::{Extractor, ExtractorParts};
use gl_fields::InputKind;
use gl_settings::{
    ConfigRefusal, Input, Named, Parts, copies, copy_extractors, has_name, is_short_name,
};
use std::alloc::{AllocError, Global};

fn refuse_input(parts: &Parts, name: &Text) -> Result<(), ConfigRefusal>
    ensures ok { OnOk result (input_refusal parts.now name.now ≡ None) }
    ensures err { IfErr result (Refuses (input_refusal parts.now name.now)) }
{
    if !is_short_name(name.as_str()) {
        return Err(ConfigRefusal::BadName);
    }
    if has_name(name.as_str(), parts.inputs()) {
        return Err(ConfigRefusal::NameTaken);
    }
    Ok(())
}

fn with_input(
    parts: &Parts,
    alloc: Global,
    name: &Text,
    kind: InputKind,
) -> Result<Parts, AllocError>
    requires { parts.now.version < 2 ^ 64 - 1 }
    ensures { IfOk result (λ next. next ≡ behind parts.now (changed parts.now (CreateInput name.now kind))) }
{
    let mut inputs = copies(alloc, parts.inputs())?;
    inputs.push(Input::new(alloc, name.as_str(), kind)?)?;
    parts.next()?.with_inputs(alloc, inputs)
}

/// An input more, without extractors.
pub fn create_input(
    parts: &Parts,
    alloc: Global,
    name: &Text,
    kind: InputKind,
) -> Result<Parts, ConfigRefusal>
    requires { parts.now.version < 2 ^ 64 - 1 }
    ensures ok { IfOk result (Makes (input_refusal parts.now name.now) (behind parts.now (changed parts.now (CreateInput name.now kind)))) }
    ensures err { IfErr result (Refuses (input_refusal parts.now name.now)) }
{
    refuse_input(parts, name)?;
    Ok(with_input(parts, alloc, name, kind)?)
}

/// The input, with these extractors if it has this name.
fn copy_with(
    alloc: Global,
    input: &Input,
    name: &str,
    extractors: &[Extractor],
) -> Result<Input, AllocError>
    ensures { IfOk result (λ i. i ≡ with_extractors name.now extractors.now input.now) }
{
    if name != input.name.as_str() {
        return input.copied(alloc);
    }
    Ok(Input {
        name: input.name.copy()?,
        kind: input.kind,
        extractors: copy_extractors(alloc, extractors)?,
    })
}

fn copies_with(
    alloc: Global,
    inputs: &[Input],
    name: &str,
    extractors: &[Extractor],
) -> Result<Items<Input>, AllocError>
    ensures { IfOk result (λ copies. copies ≡ map (with_extractors name.now extractors.now) inputs.now) }
{
    let mut copies = Items::new(alloc);
    for input in inputs {
        copies.push(copy_with(alloc, input, name, extractors)?)?;
    }
    Ok(copies)
}

fn with_extractors(
    parts: &Parts,
    alloc: Global,
    input: &Text,
    extractors: &[Extractor],
) -> Result<Parts, AllocError>
    requires { parts.now.version < 2 ^ 64 - 1 }
    ensures { IfOk result (λ next. next ≡ behind parts.now (changed parts.now (SetExtractors input.now extractors.now))) }
{
    let inputs = copies_with(alloc, parts.inputs(), input.as_str(), extractors)?;
    parts.next()?.with_inputs(alloc, inputs)
}

/// The extractors of these parts, with the named patterns that there are.
fn made_for(
    parts: &Parts,
    alloc: Global,
    extractors: &[ExtractorParts],
) -> Result<Items<Extractor>, ConfigRefusal>
    ensures ok { IfOk result (λ made. (first_of (map (extractor_cause parts.now.groks) extractors.now) ≡ None) × (made ≡ extractors.now)) }
    ensures err { IfErr result (Refuses (first_of (map (extractor_cause parts.now.groks) extractors.now))) }
{
    extractors_of(alloc, parts.groks(), extractors)
}

/// Other extractors for an input that is there.
#[tactic(auto, using(crate::proofs::Refusing::refuses_first, crate::proofs::Refusing::refuses_later, crate::proofs::Refusing::none_both))]
pub fn set_extractors(
    parts: &Parts,
    alloc: Global,
    input: &Text,
    extractors: &[ExtractorParts],
) -> Result<Parts, ConfigRefusal>
    requires { parts.now.version < 2 ^ 64 - 1 }
    ensures ok { IfOk result (Makes (extractors_refusal parts.now input.now extractors.now) (behind parts.now (changed parts.now (SetExtractors input.now extractors.now)))) }
    ensures err { IfErr result (Refuses (extractors_refusal parts.now input.now extractors.now)) }
{
    if !has_name(input.as_str(), parts.inputs()) {
        return Err(ConfigRefusal::UnknownName);
    }
    let extractors = made_for(parts, alloc, extractors)?;
    Ok(with_extractors(parts, alloc, input, extractors.as_slice())?)
}
