// What is named is there.
ghost use Rattle.std.specs.Prelude.{◌≡◌, ◌==◌, flat_map};
ghost use Rattle.std.specs.List.{list_all};
ghost use Rattle.gl_settings.specs.Settings.{has_rule, has_pipeline, has_lookup, has_stream, rules_named};
ghost use Rattle.gl_grok.specs.Tables.{is_known};
ghost use Rattle.gl_config.specs.Applying.{is_anothers};

use gl_base::Text;
use gl_rulelang::{Pipeline, Stage};
use gl_settings::{Parts, has_name, has_pattern, has_table};

pub fn has_stream(parts: &Parts, id: u64) -> bool
    ensures { result ≡ has_stream parts.now id }
{
    parts.streams().iter().any(|stream| stream.id == id)
}

pub fn has_streams(parts: &Parts, ids: &[u64]) -> bool
    ensures { result ≡ list_all (has_stream parts.now) ids.now }
{
    for id in ids {
        if !has_stream(parts, *id) {
            return false;
        }
    }
    true
}

pub fn has_rule(parts: &Parts, name: &Text) -> bool
    ensures { result ≡ has_rule parts.now name.now }
{
    has_name(name.as_str(), parts.rules())
}

pub fn has_pipeline(parts: &Parts, name: &Text) -> bool
    ensures { result ≡ has_pipeline parts.now name.now }
{
    has_name(name.as_str(), parts.pipelines())
}

pub fn has_lookup(parts: &Parts, name: &Text) -> bool
    ensures { result ≡ has_lookup parts.now name.now }
{
    has_table(parts.lookups(), name.as_str())
}

pub fn has_grok(parts: &Parts, name: &Text) -> bool
    ensures { result ≡ is_known parts.now.groks name.now }
{
    has_pattern(parts.groks(), name.as_str())
}

pub fn has_pipelines(parts: &Parts, names: &[Text]) -> bool
    ensures { result ≡ list_all (has_pipeline parts.now) names.now }
{
    for name in names {
        if !has_pipeline(parts, name) {
            return false;
        }
    }
    true
}

fn has_rules(parts: &Parts, names: &[Text]) -> bool
    ensures { result ≡ list_all (has_rule parts.now) names.now }
{
    for name in names {
        if !has_rule(parts, name) {
            return false;
        }
    }
    true
}

fn has_staged(parts: &Parts, stages: &[Stage]) -> bool
    ensures { result ≡ list_all (has_rule parts.now) (flat_map (λ stage. stage.rules) stages.now) }
{
    for stage in stages {
        if !has_rules(parts, stage.rules.as_slice()) {
            return false;
        }
    }
    true
}

/// Whether each rule that a pipeline names is there.
pub fn has_named(parts: &Parts, pipeline: &Pipeline) -> bool
    ensures { result ≡ list_all (has_rule parts.now) (rules_named pipeline.now) }
{
    has_staged(parts, pipeline.stages.as_slice())
}

/// Whether another user than the one of this name has this hash.
pub fn is_anothers(parts: &Parts, name: &str, hash: &str) -> bool
    ensures { result ≡ is_anothers parts.now name.now hash.now }
{
    parts.users().iter().any(|user| name != user.name.as_str()
        && hash == user.token_sha256.as_str())
}
