// The extractors of an input at work.
ghost use Rattle.std.specs.Prelude.{◌≡◌, ◌<◌, length, map, position, slice_get, OnOk, Some};
ghost use Rattle.std.specs.Str.{bytes_eq};
ghost use Rattle.gl_grok.specs.Tables.{Table};
ghost use Rattle.gl_settings.specs.declared.input.Input.{Input};
ghost use Rattle.gl_building.specs.Places.{built_all, built_inputs, extracted_all};

use crate::inputs::ExtractorPatterns;
use gl_extract::{Built, Extractor, apply};
use gl_fields::FieldMap;
use gl_settings::Input;
use std::alloc::{AllocError, Global};

// The place of the input of this name.
pub fn place_of(inputs: &[Input], name: &str) -> Option<usize>
    ensures { result ≡ position (λ input. bytes_eq name.now input.name) inputs.now }
{
    inputs.iter().position(|input| name == input.name.as_str())
}

// Changes the fields to what these extractors make of them, one behind the other.
fn extract_all(
    alloc: Global,
    extractors: &[Extractor],
    built: &mut [Built],
    fields: &mut FieldMap,
) -> Result<(), AllocError>
    requires { (groks : Table) × (built.old ≡ built_all groks extractors.now) }
    ensures fields { OnOk result ((groks : Table) → built.old ≡ built_all groks extractors.now → fields.new ≡ extracted_all groks extractors.now fields.old) }
    ensures same { built.new ≡ built.old }
{
    for (i, extractor) in extractors.iter().enumerate() {
        apply(alloc, extractor, &mut built[i], fields)?;
    }
    Ok(())
}

// The same with what was built for the input at this place.
fn extract_at(
    alloc: Global,
    inputs: &[Input],
    place: usize,
    built: &mut [Vec<Built>],
    fields: &mut FieldMap,
) -> Result<(), AllocError>
    requires built { (groks : Table) × (map (λ own. own.items) built.old ≡ built_inputs groks inputs.now) }
    requires within { place < length inputs.now }
    ensures fields { OnOk result ((groks : Table) → map (λ own. own.items) built.old ≡ built_inputs groks inputs.now
        → (input : Input) → slice_get inputs.now place ≡ Some input → fields.new ≡ extracted_all groks input.extractors fields.old) }
    ensures same { map (λ own. own.items) built.new ≡ map (λ own. own.items) built.old }
{
    extract_all(
        alloc,
        inputs[place].extractors.as_slice(),
        built[place].as_mut_slice(),
        fields,
    )
}

/// Changes the fields to what the extractors of the input at this place make of them, with what was built for each input.
pub fn extract(
    alloc: Global,
    inputs: &[Input],
    place: usize,
    patterns: &mut ExtractorPatterns,
    fields: &mut FieldMap,
) -> Result<(), AllocError>
    requires built { (groks : Table) × (patterns.old ≡ built_inputs groks inputs.now) }
    requires within { place < length inputs.now }
    ensures fields { OnOk result ((groks : Table) → patterns.old ≡ built_inputs groks inputs.now
        → (input : Input) → slice_get inputs.now place ≡ Some input → fields.new ≡ extracted_all groks input.extractors fields.old) }
    ensures same { patterns.new ≡ patterns.old }
{
    extract_at(alloc, inputs, place, patterns.inputs.as_mut_slice(), fields)
}
