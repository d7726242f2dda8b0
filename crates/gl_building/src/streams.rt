// The patterns of streams.
ghost use Rattle.std.specs.Prelude.{◌≡◌, map, IfOk, option_copied};
ghost use Rattle.std.specs.List.{flat_map};
ghost use Rattle.gl_streams.specs.Matching.{pattern_of, patterns_of, Fits};
ghost use Rattle.gl_settings.specs.Patterns.{stream_patterns};
ghost use Rattle.gl_building.specs.Building.{Builds, rule_patterns};

use crate::StageFault;
use crate::building::build_some;
use gl_base::Text;
use gl_patterns::{Pattern, PatternShop};
use gl_streams::{Stream, StreamPatterns, StreamRule, Test};
use std::alloc::Global;

fn pattern_of(test: &Test) -> Option<&Text>
    ensures { option_copied result ≡ pattern_of test.now }
{
    match test {
        Test::Regex(pattern) => Some(pattern),
        Test::Exact(_)
        | Test::Greater(_)
        | Test::Smaller(_)
        | Test::Presence
        | Test::Contains(_)
        | Test::Always => None,
    }
}

// At the place of each rule its pattern, or none.
fn build_own<P: PatternShop>(
    alloc: Global,
    shop: &mut P,
    rules: &[StreamRule],
) -> Result<Vec<Option<Pattern>>, StageFault>
    ensures value { IfOk result (λ patterns. patterns.items ≡ patterns_of rules.now) }
    ensures builds { Builds (rule_patterns rules.now) (P.faults shop.old) (P.faults shop.new) (P.refused shop.old) (P.refused shop.new) result }
{
    let mut patterns = Vec::new(alloc);
    for rule in rules {
        let pattern = build_some(shop, pattern_of(&rule.test))?;
        patterns.push(pattern)?;
    }
    Ok(patterns)
}

fn build_each<P: PatternShop>(
    alloc: Global,
    shop: &mut P,
    streams: &[Stream],
) -> Result<Vec<Vec<Option<Pattern>>>, StageFault>
    ensures value { IfOk result (λ patterns. Fits streams.now (map (λ own. own.items) patterns.items)) }
    ensures builds { Builds (flat_map stream_patterns streams.now) (P.faults shop.old) (P.faults shop.new) (P.refused shop.old) (P.refused shop.new) result }
{
    let mut patterns = Vec::new(alloc);
    for stream in streams {
        let own = build_own(alloc, shop, stream.rules.as_slice())?;
        patterns.push(own)?;
    }
    Ok(patterns)
}

/// The patterns of these streams, each at the place of its rule.
pub fn build_streams<P: PatternShop>(
    alloc: Global,
    shop: &mut P,
    streams: &[Stream],
) -> Result<StreamPatterns, StageFault>
    ensures value { IfOk result (λ patterns. Fits streams.now patterns) }
    ensures builds { Builds (flat_map stream_patterns streams.now) (P.faults shop.old) (P.faults shop.new) (P.refused shop.old) (P.refused shop.new) result }
{
    Ok(StreamPatterns::new(build_each(alloc, shop, streams)?))
}
