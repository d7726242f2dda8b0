// Refusals of commands as rows write them: their names, one inside another behind it, and their values.

use gl_base::Text;
use gl_check::CheckRefusal;
use gl_extract::ExtractRefusal;
use gl_grok::GrokRefusal;
use gl_lookup::LookupRefusal;
use gl_rows::Row;
use gl_rulelang::TextRefusal;
use gl_settings::{self as settings, Bound, ConfigRefusal};
use std::alloc::{AllocError, Global};

/// `refused NAME VALUE..`, or `refused BadText KIND NAME VALUE..`. A name that is none is `OutOfMemory`.
pub fn refusal_of(alloc: Global, row: &Row) -> Result<ConfigRefusal, AllocError> {
    let first = row.number(2);
    match row.text(1) {
        "VersionConflict" => Ok(ConfigRefusal::VersionConflict { present: first }),
        "NameTaken" => Ok(ConfigRefusal::NameTaken),
        "UnknownName" => Ok(ConfigRefusal::UnknownName),
        "BadName" => Ok(ConfigRefusal::BadName),
        "BadText" => Ok(ConfigRefusal::BadText(text_of(alloc, row)?)),
        "PatternRefused" => Ok(ConfigRefusal::PatternRefused),
        "Limit" => Ok(ConfigRefusal::Limit {
            which: bound_of(row.text(2)),
            limit: row.number(3),
        }),
        "Budget" => Ok(ConfigRefusal::Budget {
            sum: first,
            limit: row.number(3),
        }),
        _ => Ok(ConfigRefusal::OutOfMemory),
    }
}

fn text_of(alloc: Global, row: &Row) -> Result<settings::Text, AllocError> {
    match row.text(2) {
        "Rule" => Ok(settings::Text::Rule(rule_refusal(row.text(3), row.number(4)))),
        "Check" => Ok(settings::Text::Check(check_refusal(row.text(3), row.number(4)))),
        "Grok" => Ok(settings::Text::Grok(grok_refusal(alloc, row)?)),
        "Csv" => Ok(settings::Text::Csv(csv_refusal(row.text(3), row.number(4)))),
        "Extract" => Ok(settings::Text::Extract(extract_refusal(row.text(3)))),
        "Number" => Ok(settings::Text::Number),
        _ => Ok(settings::Text::Hash),
    }
}

fn rule_refusal(name: &str, at: u64) -> TextRefusal {
    match name {
        "BadToken" => TextRefusal::BadToken { at },
        "Unexpected" => TextRefusal::Unexpected { at },
        "TooDeep" => TextRefusal::TooDeep,
        _ => TextRefusal::OutOfMemory,
    }
}

fn check_refusal(name: &str, at: u64) -> CheckRefusal {
    match name {
        "UnknownFunction" => CheckRefusal::UnknownFunction { at },
        "BadArguments" => CheckRefusal::BadArguments { at },
        "WrongType" => CheckRefusal::WrongType { at },
        "UnknownVariable" => CheckRefusal::UnknownVariable { at },
        _ => CheckRefusal::OutOfMemory,
    }
}

fn grok_refusal(alloc: Global, row: &Row) -> Result<GrokRefusal, AllocError> {
    let name = Text::from_str(alloc, row.text(4))?;
    match row.text(3) {
        "UnknownPattern" => Ok(GrokRefusal::UnknownPattern { name }),
        "Circular" => Ok(GrokRefusal::Circular { name }),
        "TooLong" => Ok(GrokRefusal::TooLong),
        _ => Ok(GrokRefusal::OutOfMemory),
    }
}

fn csv_refusal(name: &str, row: u64) -> LookupRefusal {
    match name {
        "BadCsv" => LookupRefusal::BadCsv { row },
        "NoColumn" => LookupRefusal::NoColumn,
        "TooManyRows" => LookupRefusal::TooManyRows,
        _ => LookupRefusal::OutOfMemory,
    }
}

fn extract_refusal(name: &str) -> ExtractRefusal {
    match name {
        "BadName" => ExtractRefusal::BadName,
        "CutNotAllowed" => ExtractRefusal::CutNotAllowed,
        _ => ExtractRefusal::BadRange,
    }
}

fn bound_of(name: &str) -> Bound {
    match name {
        "Inputs" => Bound::Inputs,
        "IndexSets" => Bound::IndexSets,
        "Streams" => Bound::Streams,
        "StreamRules" => Bound::StreamRules,
        "Rules" => Bound::Rules,
        "Pipelines" => Bound::Pipelines,
        "Lookups" => Bound::Lookups,
        "Groks" => Bound::Groks,
        "Users" => Bound::Users,
        "Extractors" => Bound::Extractors,
        "Patterns" => Bound::Patterns,
        _ => Bound::Connected,
    }
}
