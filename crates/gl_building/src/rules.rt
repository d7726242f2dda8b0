// Rules with their patterns.
ghost use Rattle.std.specs.Prelude.{◌≡◌, IfOk};
ghost use Rattle.std.specs.List.{flat_map};
ghost use Rattle.gl_check.specs.Checking.{pattern_texts};
ghost use Rattle.gl_building.specs.Building.{Builds};
ghost use Rattle.gl_building.specs.Places.{book_of};

use crate::StageFault;
use crate::building::build_all;
use gl_check::Checked;
use gl_eval::RulePatterns;
use gl_patterns::PatternShop;
use std::alloc::Global;

fn build_rule<P: PatternShop>(
    alloc: Global,
    shop: &mut P,
    rule: &Checked,
) -> Result<RulePatterns, StageFault>
    ensures value { IfOk result (λ patterns. patterns ≡ pattern_texts rule.now) }
    ensures builds { Builds (pattern_texts rule.now) (P.faults shop.old) (P.faults shop.new) (P.refused shop.old) (P.refused shop.new) result }
{
    let texts = rule.pattern_texts(alloc)?;
    Ok(RulePatterns::new(build_all(alloc, shop, texts.as_slice())?))
}

/// These rules, each with its patterns.
pub fn build_rules<P: PatternShop>(
    alloc: Global,
    shop: &mut P,
    rules: &[Checked],
) -> Result<Vec<(Checked, RulePatterns)>, StageFault>
    ensures value { IfOk result (λ book. book.items ≡ book_of rules.now) }
    ensures builds { Builds (flat_map pattern_texts rules.now) (P.faults shop.old) (P.faults shop.new) (P.refused shop.old) (P.refused shop.new) result }
{
    let mut book = Vec::new(alloc);
    for rule in rules {
        let patterns = build_rule(alloc, shop, rule)?;
        book.push((rule.copy()?, patterns))?;
    }
    Ok(book)
}
