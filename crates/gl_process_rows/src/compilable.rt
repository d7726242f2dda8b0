// Whether a configuration can be compiled, tested anew: each configuration that commands make can.
ghost use Rattle.std.specs.Prelude.{◌≡◌, ◌<◌, IfOk, IsTrue};
ghost use Rattle.std.specs.List.{All};
ghost use Rattle.gl_grok.specs.Tables.{table_of};
ghost use Rattle.gl_streams.specs.declared.stream.Stream.{Stream};
ghost use Rattle.gl_building.specs.Places.{Expands, AllExpand, InputsExpand};
ghost use Rattle.gl_outcome.specs.Compiling.{IsCompilable};

use gl_config::{Config, Input};
use gl_extract::{Extractor, ExtractorKind};
use gl_grok::{GrokRefusal, expand};
use gl_streams::Stream;
use std::alloc::{AllocError, Global};
use std::collections::BTreeMap;

fn expands(
    alloc: Global,
    groks: &BTreeMap<String, String>,
    kind: &ExtractorKind,
) -> Result<bool, AllocError>
    ensures { IfOk result (λ yes. IsTrue yes → Expands (table_of groks.now) kind.now) }
{
    match kind {
        ExtractorKind::Grok { pattern } => match expand(alloc, pattern.as_str(), groks) {
            Ok(_) => Ok(true),
            Err(GrokRefusal::OutOfMemory) => Err(AllocError),
            Err(_) => Ok(false),
        },
        ExtractorKind::Regex { .. }
        | ExtractorKind::Substring { .. }
        | ExtractorKind::Split { .. }
        | ExtractorKind::Json => Ok(true),
    }
}

fn all_expand(
    alloc: Global,
    groks: &BTreeMap<String, String>,
    extractors: &[Extractor],
) -> Result<bool, AllocError>
    ensures { IfOk result (λ yes. IsTrue yes → AllExpand (table_of groks.now) extractors.now) }
{
    for extractor in extractors {
        if !expands(alloc, groks, &extractor.parts().kind)? {
            return Ok(false);
        }
    }
    Ok(true)
}

fn inputs_expand(
    alloc: Global,
    groks: &BTreeMap<String, String>,
    inputs: &[Input],
) -> Result<bool, AllocError>
    ensures { IfOk result (λ yes. IsTrue yes → InputsExpand (table_of groks.now) inputs.now) }
{
    for input in inputs {
        if !all_expand(alloc, groks, input.extractors.as_slice())? {
            return Ok(false);
        }
    }
    Ok(true)
}

fn are_low(streams: &[Stream]) -> bool
    ensures { IsTrue result → All (λ (stream : Stream). stream.id < 65535) streams.now }
{
    streams.iter().all(|stream| stream.id < 65535)
}

/// Whether a configuration can be compiled.
pub fn is_compilable(alloc: Global, config: &Config) -> Result<bool, AllocError>
    ensures { IfOk result (λ yes. IsTrue yes → IsCompilable config.now) }
{
    if !are_low(config.streams()) {
        return Ok(false);
    }
    inputs_expand(alloc, config.groks(), config.inputs())
}
