// How the parts of a configuration are shown.

use crate::apply::kind_word;
use crate::streams;
use gl_base::{Items, Text};
use gl_check::Checked;
use gl_config::{Config, Input, User};
use gl_fields::SetRule;
use gl_rows::{Row, push_bytes, push_word};
use gl_rulelang::{Pipeline, print_pipeline, print_rule};
use std::alloc::{AllocError, Global};
use std::fmt::Write;

/// The parts that the words of a row name from this one on.
pub fn push_parts(
    alloc: Global,
    row: &Row,
    from: usize,
    config: &Config,
    out: &mut String,
) -> Result<(), AllocError> {
    for index in from..row.len() {
        push_part(alloc, row.text(index), config, out)?;
    }
    Ok(())
}

fn push_part(
    alloc: Global,
    part: &str,
    config: &Config,
    out: &mut String,
) -> Result<(), AllocError> {
    match part {
        "version" => {
            push_word(out, "version", config.version())?;
            out.push('\n')
        }
        "inputs" => push_inputs(out, config.inputs()),
        "sets" => push_sets(out, config.index_sets()),
        "streams" => streams::push_all(out, config.streams()),
        "rules" => push_rules(alloc, out, config.rules()),
        "pipelines" => push_pipelines(alloc, out, config.pipelines()),
        "connections" => push_connections(out, config.connections()),
        "lookups" => push_lookups(out, config),
        "groks" => push_groks(out, config),
        "users" => push_users(out, config.users()),
        "patterns" => push_patterns(out, config.patterns(alloc)?.as_slice()),
        _ => out.push_str("no such part\n"),
    }
}

fn push_inputs(out: &mut String, inputs: &[Input]) -> Result<(), AllocError> {
    for input in inputs {
        out.push_str("input ")?;
        push_bytes(out, input.name.as_str().as_bytes())?;
        let kind = kind_word(input.kind);
        let count = input.extractors.len();
        write!(out, " {kind} {count}\n")?;
    }
    Ok(())
}

fn push_sets(out: &mut String, sets: &[SetRule]) -> Result<(), AllocError> {
    for set in sets {
        out.push_str("set ")?;
        push_bytes(out, set.name.as_str().as_bytes())?;
        let (docs, ms, keep) = (set.max_docs, set.max_ms, set.keep);
        write!(out, " {docs} {ms} {keep}\n")?;
    }
    Ok(())
}

fn push_rules(alloc: Global, out: &mut String, rules: &[Checked]) -> Result<(), AllocError> {
    if rules.is_empty() {
        return out.push_str("no rules\n");
    }
    for rule in rules {
        out.push_str(print_rule(alloc, rule.rule())?.as_str())?;
    }
    Ok(())
}

fn push_pipelines(
    alloc: Global,
    out: &mut String,
    pipelines: &[Pipeline],
) -> Result<(), AllocError> {
    if pipelines.is_empty() {
        return out.push_str("no pipelines\n");
    }
    for pipeline in pipelines {
        out.push_str(print_pipeline(alloc, pipeline)?.as_str())?;
    }
    Ok(())
}

fn push_connections(
    out: &mut String,
    connections: &[(u64, Items<Text>)],
) -> Result<(), AllocError> {
    if connections.is_empty() {
        return out.push_str("no connections\n");
    }
    for connection in connections {
        push_word(out, "connection", connection.0)?;
        for name in connection.1.as_slice() {
            out.push(' ')?;
            push_bytes(out, name.as_str().as_bytes())?;
        }
        out.push('\n')?;
    }
    Ok(())
}

fn push_lookups(out: &mut String, config: &Config) -> Result<(), AllocError> {
    if config.lookups().is_empty() {
        return out.push_str("no tables\n");
    }
    for (name, _) in config.lookups() {
        out.push_str("table ")?;
        push_bytes(out, name.as_bytes())?;
        out.push('\n')?;
    }
    Ok(())
}

fn push_groks(out: &mut String, config: &Config) -> Result<(), AllocError> {
    for (name, pattern) in config.groks() {
        out.push_str("grok ")?;
        push_bytes(out, name.as_bytes())?;
        out.push(' ')?;
        push_bytes(out, pattern.as_bytes())?;
        out.push('\n')?;
    }
    Ok(())
}

fn push_users(out: &mut String, users: &[User]) -> Result<(), AllocError> {
    for user in users {
        out.push_str("user ")?;
        push_bytes(out, user.name.as_str().as_bytes())?;
        out.push(' ')?;
        push_bytes(out, user.token_sha256.as_str().as_bytes())?;
        out.push_str(if user.admin {
            " administrator"
        } else {
            " reader"
        })?;
        for id in user.streams.as_slice() {
            write!(out, " {id}")?;
        }
        out.push('\n')?;
    }
    Ok(())
}

fn push_patterns(out: &mut String, patterns: &[Text]) -> Result<(), AllocError> {
    if patterns.is_empty() {
        return out.push_str("no patterns\n");
    }
    for pattern in patterns {
        out.push_str("pattern ")?;
        push_bytes(out, pattern.as_str().as_bytes())?;
        out.push('\n')?;
    }
    Ok(())
}
