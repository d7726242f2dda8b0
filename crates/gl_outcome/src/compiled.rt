// A configuration with its patterns.
ghost use Rattle.std.specs.Prelude.{◌≡◌, IfOk, IsOk, IsErrOf, Contains};
ghost use Rattle.std.specs.List.{All};
ghost use Rattle.gl_base.specs.Counts.{HasCause};
ghost use Rattle.gl_fields.specs.Bounds.{IsOutcome};
ghost use Rattle.gl_patterns.specs.Patterns.{IsPattern};
ghost use Rattle.gl_settings.specs.Patterns.{patterns_of};
ghost use Rattle.gl_building.specs.declared.fault.StageFault.TheVariants.{PatternFault};
ghost use Rattle.gl_building.specs.Building.{Builds};
ghost use Rattle.gl_outcome.specs.Compiling.{IsCompilable, IsBuiltOf};
ghost use Rattle.gl_outcome.specs.Outcomes.{message_under};
ghost use Rattle.gl_outcome.specs.Staging.{IsStageable};

use crate::staging::stage;
use gl_building::{ExtractorPatterns, StageFault, build_inputs, build_rules, build_streams};
use gl_fields::{Message, Outcome};
use gl_patterns::PatternShop;
use gl_settings::Parts;
use gl_stage::RuleBook;
use gl_streams::StreamPatterns;
use std::alloc::{AllocError, Global};
use std::marker::Model;

/// What was built of a configuration, which it holds.
#[derive(Drop)]
pub(crate) struct BuiltParts {
    pub(crate) parts: Parts,
    pub(crate) streams: StreamPatterns,
    pub(crate) extractors: ExtractorPatterns,
    pub(crate) rules: RuleBook,
}

/// A configuration with its patterns built. Contracts see the configuration.
#[derive(Drop)]
pub struct Compiled {
    built: BuiltParts,
}

impl Model for Compiled {
    ghost use Rattle.gl_settings.specs.Settings.{Settings};
    ghost use Rattle.gl_settings.specs.Codes.{settings_code};

    ghost Value = { Settings };

    ghost coded = { settings_code };

    ghost view = { λ c. c.built.parts };

    ghost use Rattle.gl_outcome.specs.Compiling.{IsBuiltOf};

    ghost invariant = { λ c. IsBuiltOf c.built.parts c.built };
}

fn build_parts<P: PatternShop>(
    alloc: Global,
    parts: &Parts,
    shop: &mut P,
) -> Result<BuiltParts, StageFault>
    requires { IsCompilable parts.now }
    ensures value { IfOk result (λ built. IsBuiltOf parts.now built) }
    ensures builds { Builds (patterns_of parts.now) (P.faults shop.old) (P.faults shop.new) (P.refused shop.old) (P.refused shop.new) result }
{
    let streams = build_streams(alloc, shop, parts.streams())?;
    let extractors = build_inputs(alloc, shop, parts.groks(), parts.inputs())?;
    let rules = RuleBook::new(build_rules(alloc, shop, parts.rules())?);
    Ok(BuiltParts {
        parts: parts.copy()?,
        streams,
        extractors,
        rules,
    })
}

/// Builds each pattern of a configuration by a shop: those of the rules of streams, of extractors and their conditions, and of
/// rules.
///
/// `PatternFault` comes only where the shop's count of refusals rose in this call, and the shop then tells a pattern of the
/// configuration as the refused one. Want of memory leaves count and text as they were.
pub fn compile<P: PatternShop>(
    alloc: Global,
    parts: &Parts,
    shop: &mut P,
) -> Result<Compiled, StageFault>
    requires { IsCompilable parts.now }
    ensures built { IfOk result (λ c. c ≡ parts.now) }
    ensures patterns { IsOk result → All IsPattern (patterns_of parts.now) }
    ensures cause { HasCause PatternFault (P.faults shop.old) (P.faults shop.new) result }
    ensures refused { IsErrOf result PatternFault → Contains (patterns_of parts.now) (P.refused shop.new) }
    ensures kept { (IsErrOf result PatternFault → ⊥) → P.refused shop.new ≡ P.refused shop.old }
{
    Ok(Compiled {
        built: build_parts(alloc, parts, shop)?,
    })
}

/// What a message becomes under the configuration that was compiled, which is that of the message's version and has its input.
/// The patterns are as before, also where memory is wanting.
pub fn stage_message(
    alloc: Global,
    compiled: &mut Compiled,
    message: &Message,
) -> Result<Outcome, AllocError>
    requires { IsStageable compiled.old message.now }
    ensures value { IfOk result (λ outcome. outcome ≡ message_under compiled.old message.now) }
    ensures bounded { IfOk result IsOutcome }
    ensures same { compiled.new ≡ compiled.old }
{
    stage(alloc, &mut compiled.built, message)
}
