// What is built for the extractors of the inputs.
ghost use Rattle.std.specs.Prelude.{◌≡◌, map, IfOk};
ghost use Rattle.std.specs.List.{flat_map};
ghost use Rattle.gl_grok.specs.Tables.{table_of};
ghost use Rattle.gl_settings.specs.Patterns.{extractor_patterns, input_patterns};
ghost use Rattle.gl_building.specs.Building.{Builds};
ghost use Rattle.gl_building.specs.Places.{AllExpand, InputsExpand, built_all, built_inputs};

use crate::StageFault;
use crate::extractors::build_extractor;
use gl_extract::{Built, Extractor};
use gl_patterns::PatternShop;
use gl_settings::Input;
use std::alloc::Global;
use std::collections::BTreeMap;
use std::marker::Model;

/// What is built for the extractors of each input, in the order of the inputs. A pattern is seen as its text.
#[derive(Drop)]
pub struct ExtractorPatterns {
    pub(crate) inputs: Vec<Vec<Built>>,
}

impl Model for ExtractorPatterns {
    ghost use Rattle.std.specs.Prelude.{map, List};
    ghost use Rattle.gl_extract.specs.declared.built.Built.{Built};

    ghost Value = { List (List Built) };

    ghost view = { λ p. map (λ own. own.items) p.inputs.items };
}

impl ExtractorPatterns {
    pub fn new(inputs: Vec<Vec<Built>>) -> ExtractorPatterns
        ensures { result ≡ map (λ own. own.items) inputs.items }
    {
        ExtractorPatterns { inputs }
    }
}

fn build_extractors<P: PatternShop>(
    alloc: Global,
    shop: &mut P,
    groks: &BTreeMap<String, String>,
    extractors: &[Extractor],
) -> Result<Vec<Built>, StageFault>
    requires { AllExpand (table_of groks.now) extractors.now }
    ensures value { IfOk result (λ built. built.items ≡ built_all (table_of groks.now) extractors.now) }
    ensures builds { Builds (flat_map (extractor_patterns (table_of groks.now)) extractors.now) (P.faults shop.old) (P.faults shop.new) (P.refused shop.old) (P.refused shop.new) result }
{
    let mut built = Vec::new(alloc);
    for extractor in extractors {
        let one = build_extractor(alloc, shop, groks, extractor)?;
        built.push(one)?;
    }
    Ok(built)
}

fn build_each<P: PatternShop>(
    alloc: Global,
    shop: &mut P,
    groks: &BTreeMap<String, String>,
    inputs: &[Input],
) -> Result<Vec<Vec<Built>>, StageFault>
    requires { InputsExpand (table_of groks.now) inputs.now }
    ensures value { IfOk result (λ built. map (λ own. own.items) built.items ≡ built_inputs (table_of groks.now) inputs.now) }
    ensures builds { Builds (flat_map (input_patterns (table_of groks.now)) inputs.now) (P.faults shop.old) (P.faults shop.new) (P.refused shop.old) (P.refused shop.new) result }
{
    let mut built = Vec::new(alloc);
    for input in inputs {
        let own = build_extractors(alloc, shop, groks, input.extractors.as_slice())?;
        built.push(own)?;
    }
    Ok(built)
}

/// What is built for the extractors of these inputs.
pub fn build_inputs<P: PatternShop>(
    alloc: Global,
    shop: &mut P,
    groks: &BTreeMap<String, String>,
    inputs: &[Input],
) -> Result<ExtractorPatterns, StageFault>
    requires { InputsExpand (table_of groks.now) inputs.now }
    ensures value { IfOk result (λ built. built ≡ built_inputs (table_of groks.now) inputs.now) }
    ensures builds { Builds (flat_map (input_patterns (table_of groks.now)) inputs.now) (P.faults shop.old) (P.faults shop.new) (P.refused shop.old) (P.refused shop.new) result }
{
    Ok(ExtractorPatterns::new(build_each(alloc, shop, groks, inputs)?))
}
