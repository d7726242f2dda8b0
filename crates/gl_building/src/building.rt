// Patterns of texts, built by a shop.
ghost use Rattle.std.specs.Prelude.{◌≡◌, ◌∷◌, [], IfOk, option_copied, option_to_list};
ghost use Rattle.gl_building.specs.Building.{Builds};

use crate::StageFault;
use gl_base::Text;
use gl_outside::Outside;
use gl_patterns::{Pattern, PatternShop};
use std::alloc::Global;

/// The pattern of a text.
pub fn build<P: PatternShop>(shop: &mut P, text: &Text) -> Result<Pattern, StageFault>
    ensures value { IfOk result (λ pattern. pattern ≡ text.now) }
    ensures builds { Builds (text.now ∷ []) (P.faults shop.old) (P.faults shop.new) (P.refused shop.old) (P.refused shop.new) result }
{
    match shop.build(text.as_str()) {
        Ok(pattern) => Ok(pattern),
        Err(Outside::Failed) => Err(StageFault::PatternFault),
        Err(Outside::OutOfMemory) => Err(StageFault::OutOfMemory),
    }
}

/// The pattern of a text, where there is one.
pub fn build_some<P: PatternShop>(
    shop: &mut P,
    text: Option<&Text>,
) -> Result<Option<Pattern>, StageFault>
    ensures value { IfOk result (λ pattern. pattern ≡ option_copied text.entry) }
    ensures builds { Builds (option_to_list (option_copied text.entry)) (P.faults shop.old) (P.faults shop.new) (P.refused shop.old) (P.refused shop.new) result }
{
    match text {
        Some(text) => Ok(Some(build(shop, text)?)),
        None => Ok(None),
    }
}

/// The patterns of these texts, in their order.
pub fn build_all<P: PatternShop>(
    alloc: Global,
    shop: &mut P,
    texts: &[Text],
) -> Result<Vec<Pattern>, StageFault>
    ensures value { IfOk result (λ patterns. patterns.items ≡ texts.now) }
    ensures builds { Builds texts.now (P.faults shop.old) (P.faults shop.new) (P.refused shop.old) (P.refused shop.new) result }
{
    let mut patterns = Vec::new(alloc);
    for text in texts {
        let pattern = build(shop, text)?;
        patterns.push(pattern)?;
    }
    Ok(patterns)
}
