// The replies to commands that are refused.
ghost use Rattle.std.specs.Prelude.{◌≡◌, IfOk};
ghost use Rattle.gl_bodies.specs.Replies.{out_of_memory_reply};
ghost use Rattle.gl_api.specs.Refusals.{bound_name, budget_reply, check_reply, config_reply, csv_reply, extract_reply, grok_reply, limit_reply, rule_text_reply, text_reply};

use gl_bodies::{
    Reply, begin, count_reply, error_reply, finish, name_reply, place_reply, put_number, put_text,
    unknown_name_reply,
};
use gl_check::CheckRefusal;
use gl_extract::ExtractRefusal;
use gl_grok::GrokRefusal;
use gl_lookup::LookupRefusal;
use gl_rulelang::TextRefusal;
use gl_settings::{Bound, ConfigRefusal, Text};
use std::alloc::{AllocError, Global};

/// Why a command is refused: 404, 409 or 422, and 500 for want of memory.
pub fn config_reply(alloc: Global, refusal: &ConfigRefusal) -> Result<Reply, AllocError>
    ensures { IfOk result (λ r. r ≡ config_reply refusal.now) }
{
    match refusal {
        ConfigRefusal::VersionConflict { present } => {
            count_reply(alloc, 409, "VersionConflict", "present", *present)
        }
        ConfigRefusal::BadName => error_reply(alloc, 422, "BadName"),
        ConfigRefusal::NameTaken => error_reply(alloc, 409, "NameTaken"),
        ConfigRefusal::UnknownName => unknown_name_reply(alloc),
        ConfigRefusal::BadText(text) => text_reply(alloc, text),
        ConfigRefusal::PatternRefused => error_reply(alloc, 422, "PatternRefused"),
        ConfigRefusal::Limit { which, limit } => limit_reply(alloc, *which, *limit),
        ConfigRefusal::Budget { sum, limit } => budget_reply(alloc, *sum, *limit),
        ConfigRefusal::OutOfMemory => memory_reply(alloc),
    }
}

fn memory_reply(alloc: Global) -> Result<Reply, AllocError>
    ensures { IfOk result (λ r. r ≡ out_of_memory_reply) }
{
    error_reply(alloc, 500, "OutOfMemory")
}

fn text_reply(alloc: Global, text: &Text) -> Result<Reply, AllocError>
    ensures { IfOk result (λ r. r ≡ text_reply text.now) }
{
    match text {
        Text::Rule(refusal) => rule_text_reply(alloc, *refusal),
        Text::Check(refusal) => check_reply(alloc, *refusal),
        Text::Grok(refusal) => grok_reply(alloc, refusal),
        Text::Csv(refusal) => csv_reply(alloc, *refusal),
        Text::Extract(refusal) => extract_reply(alloc, refusal),
        Text::Number => error_reply(alloc, 422, "Number"),
        Text::Hash => error_reply(alloc, 422, "Hash"),
    }
}

fn rule_text_reply(alloc: Global, refusal: TextRefusal) -> Result<Reply, AllocError>
    ensures { IfOk result (λ r. r ≡ rule_text_reply refusal) }
{
    match refusal {
        TextRefusal::BadToken { at } => place_reply(alloc, 422, "BadToken", at),
        TextRefusal::Unexpected { at } => place_reply(alloc, 422, "Unexpected", at),
        TextRefusal::TooDeep => error_reply(alloc, 422, "TooDeep"),
        TextRefusal::OutOfMemory => memory_reply(alloc),
    }
}

fn check_reply(alloc: Global, refusal: CheckRefusal) -> Result<Reply, AllocError>
    ensures { IfOk result (λ r. r ≡ check_reply refusal) }
{
    match refusal {
        CheckRefusal::UnknownFunction { at } => place_reply(alloc, 422, "UnknownFunction", at),
        CheckRefusal::BadArguments { at } => place_reply(alloc, 422, "BadArguments", at),
        CheckRefusal::WrongType { at } => place_reply(alloc, 422, "WrongType", at),
        CheckRefusal::UnknownVariable { at } => place_reply(alloc, 422, "UnknownVariable", at),
        CheckRefusal::OutOfMemory => memory_reply(alloc),
    }
}

fn grok_reply(alloc: Global, refusal: &GrokRefusal) -> Result<Reply, AllocError>
    ensures { IfOk result (λ r. r ≡ grok_reply refusal.now) }
{
    match refusal {
        GrokRefusal::UnknownPattern { name } => {
            name_reply(alloc, 422, "UnknownPattern", name.as_str())
        }
        GrokRefusal::Circular { name } => name_reply(alloc, 422, "Circular", name.as_str()),
        GrokRefusal::TooLong => error_reply(alloc, 422, "TooLong"),
        GrokRefusal::OutOfMemory => memory_reply(alloc),
    }
}

fn csv_reply(alloc: Global, refusal: LookupRefusal) -> Result<Reply, AllocError>
    ensures { IfOk result (λ r. r ≡ csv_reply refusal) }
{
    match refusal {
        LookupRefusal::BadCsv { row } => count_reply(alloc, 422, "BadCsv", "row", row),
        LookupRefusal::NoColumn => error_reply(alloc, 422, "NoColumn"),
        LookupRefusal::TooManyRows => error_reply(alloc, 422, "TooManyRows"),
        LookupRefusal::OutOfMemory => memory_reply(alloc),
    }
}

fn extract_reply(alloc: Global, refusal: &ExtractRefusal) -> Result<Reply, AllocError>
    ensures { IfOk result (λ r. r ≡ extract_reply refusal.now) }
{
    match refusal {
        ExtractRefusal::BadName => error_reply(alloc, 422, "BadName"),
        ExtractRefusal::CutNotAllowed => error_reply(alloc, 422, "CutNotAllowed"),
        ExtractRefusal::BadRange => error_reply(alloc, 422, "BadRange"),
    }
}

fn bound_name(bound: Bound) -> &'static str
    ensures { result.now ≡ bound_name bound }
{
    match bound {
        Bound::Inputs => "Inputs",
        Bound::IndexSets => "IndexSets",
        Bound::Streams => "Streams",
        Bound::StreamRules => "StreamRules",
        Bound::Rules => "Rules",
        Bound::Pipelines => "Pipelines",
        Bound::Lookups => "Lookups",
        Bound::Groks => "Groks",
        Bound::Users => "Users",
        Bound::Extractors => "Extractors",
        Bound::Patterns => "Patterns",
        Bound::Connected => "Connected",
    }
}

fn limit_reply(alloc: Global, which: Bound, limit: u64) -> Result<Reply, AllocError>
    ensures { IfOk result (λ r. r ≡ limit_reply which limit) }
{
    let mut body = begin(alloc)?;
    put_text(&mut body, "error", "Limit")?;
    put_number(&mut body, "limit", limit)?;
    put_text(&mut body, "which", bound_name(which))?;
    finish(body, 422)
}

fn budget_reply(alloc: Global, sum: u64, limit: u64) -> Result<Reply, AllocError>
    ensures { IfOk result (λ r. r ≡ budget_reply sum limit) }
{
    let mut body = begin(alloc)?;
    put_text(&mut body, "error", "Budget")?;
    put_number(&mut body, "limit", limit)?;
    put_number(&mut body, "sum", sum)?;
    finish(body, 422)
}
