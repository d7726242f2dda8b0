ghost use Rattle.std.specs.Prelude.{◌≡◌, IfOk, IsOk, IsErrOf, Contains};
ghost use Rattle.std.specs.List.{All};
ghost use Rattle.gl_base.specs.Counts.{HasCause};
ghost use Rattle.gl_patterns.specs.Patterns.{IsPattern};
ghost use Rattle.gl_settings.specs.Patterns.{patterns_of};
ghost use Rattle.gl_building.specs.declared.fault.StageFault.TheVariants.{PatternFault};
ghost use Rattle.gl_outcome.specs.Compiling.{IsCompilable};

use gl_config::Config;
use gl_outcome::{Compiled, StageFault};
use gl_patterns::PatternShop;
use std::alloc::Global;

/// Builds each pattern of a configuration by a shop: those of the rules of streams, of extractors and their conditions, and of
/// rules.
///
/// `PatternFault` comes only where the shop's count of refusals rose in this call, and the shop then tells a pattern of the
/// configuration as the refused one. Want of memory leaves count and text as they were.
pub fn compile<P: PatternShop>(
    alloc: Global,
    config: &Config,
    shop: &mut P,
) -> Result<Compiled, StageFault>
    requires { IsCompilable config.now }
    ensures built { IfOk result (λ c. c ≡ config.now) }
    ensures patterns { IsOk result → All IsPattern (patterns_of config.now) }
    ensures cause { HasCause PatternFault (P.faults shop.old) (P.faults shop.new) result }
    ensures refused { IsErrOf result PatternFault → Contains (patterns_of config.now) (P.refused shop.new) }
    ensures kept { (IsErrOf result PatternFault → ⊥) → P.refused shop.new ≡ P.refused shop.old }
{
    gl_outcome::compile(alloc, config.parts(), shop)
}
