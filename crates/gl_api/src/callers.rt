// What a caller is told of the streams, of the server, and of a rule or a pipeline.
ghost use Rattle.std.specs.Prelude.{◌≡◌, option_copied, option_map, IfOk};
ghost use Rattle.std.specs.Str.{bytes_eq};
ghost use Rattle.gl_rulelang.specs.Printing.{pipeline_print, rule_print};
ghost use Rattle.gl_rulelang.specs.Tree.{rule_of};
ghost use Rattle.gl_api.specs.Callers.{pipeline_named, pipeline_reply, rule_named, rule_reply, source_told, streams_reply, system_reply, to_administrator};

use gl_base::Text;
use gl_bodies::{self as bodies, Reply, admin_only_reply, unknown_name_reply, unknown_token_reply};
use gl_check::Checked;
use gl_rulelang::{Pipeline, print_pipeline, print_rule};
use gl_settings::User;
use gl_streams::Stream;
use std::alloc::{AllocError, Global};

/// The permitted streams, in the order in which they stand, which in a configuration is that of their ids; 401 where no user has
/// the caller's token.
pub fn streams_reply(
    alloc: Global,
    permitted: Option<&[u64]>,
    streams: &[Stream],
) -> Result<Reply, AllocError>
    ensures { IfOk result (λ r. r ≡ streams_reply (option_map (λ ids. ids.now) permitted.entry) streams.now) }
{
    match permitted {
        Some(ids) => bodies::streams_reply(alloc, ids, streams),
        None => unknown_token_reply(alloc),
    }
}

/// How many outcomes are committed, each live index with its rows, how many entries the journal has, and the configuration's
/// version; 401 and 403 to who is no administrator.
pub fn system_reply(
    alloc: Global,
    caller: Option<&User>,
    committed: u64,
    indexes: &[(Text, u64)],
    journal: u64,
    version: u64,
) -> Result<Reply, AllocError>
    ensures { IfOk result (λ r. r ≡ system_reply (option_copied caller.entry) committed indexes.now journal version) }
{
    match caller {
        None => unknown_token_reply(alloc),
        Some(user) => {
            if !user.admin {
                return admin_only_reply(alloc);
            }
            bodies::system_reply(alloc, committed, indexes, journal, version)
        }
    }
}

/// The rule of this name, printed; 401 and 403 to who is no administrator, and 404 where there is none.
pub fn rule_reply(
    alloc: Global,
    caller: Option<&User>,
    rules: &[Checked],
    name: &str,
) -> Result<Reply, AllocError>
    ensures { IfOk result (λ r. r ≡ rule_reply (option_copied caller.entry) rules.now name.now) }
{
    match caller {
        None => unknown_token_reply(alloc),
        Some(user) => {
            if !user.admin {
                return admin_only_reply(alloc);
            }
            rule_told(alloc, rules, name)
        }
    }
}

fn has_name(rule: &Checked, name: &str) -> bool
    ensures { result ≡ bytes_eq name.now rule.now.name }
{
    name == rule.rule().name.as_str()
}

fn rule_named<'r>(rules: &'r [Checked], name: &str) -> Option<&'r Checked>
    ensures { option_copied result ≡ rule_named name.now rules.now }
{
    rules.iter().find(|rule| has_name(rule, name))
}

fn rule_told(alloc: Global, rules: &[Checked], name: &str) -> Result<Reply, AllocError>
    ensures { IfOk result (λ r. r ≡ source_told (option_map rule_print (rule_named name.now rules.now))) }
{
    match rule_named(rules, name) {
        Some(rule) => {
            let source = print_rule(alloc, rule.rule())?;
            bodies::source_reply(alloc, source.as_str())
        }
        None => unknown_name_reply(alloc),
    }
}

/// The same of a pipeline.
pub fn pipeline_reply(
    alloc: Global,
    caller: Option<&User>,
    pipelines: &[Pipeline],
    name: &str,
) -> Result<Reply, AllocError>
    ensures { IfOk result (λ r. r ≡ pipeline_reply (option_copied caller.entry) pipelines.now name.now) }
{
    match caller {
        None => unknown_token_reply(alloc),
        Some(user) => {
            if !user.admin {
                return admin_only_reply(alloc);
            }
            pipeline_told(alloc, pipelines, name)
        }
    }
}

fn pipeline_named<'p>(pipelines: &'p [Pipeline], name: &str) -> Option<&'p Pipeline>
    ensures { option_copied result ≡ pipeline_named name.now pipelines.now }
{
    pipelines
        .iter()
        .find(|pipeline| name == pipeline.name.as_str())
}

fn pipeline_told(alloc: Global, pipelines: &[Pipeline], name: &str) -> Result<Reply, AllocError>
    ensures { IfOk result (λ r. r ≡ source_told (option_map pipeline_print (pipeline_named name.now pipelines.now))) }
{
    match pipeline_named(pipelines, name) {
        Some(pipeline) => {
            let source = print_pipeline(alloc, pipeline)?;
            bodies::source_reply(alloc, source.as_str())
        }
        None => unknown_name_reply(alloc),
    }
}
