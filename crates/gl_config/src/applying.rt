// What a command makes of a configuration's parts, whatever the limits.
ghost use Rattle.std.specs.Prelude.{◌≡◌, ◌-◌, ◌<◌, ◌^◌, IfOk, IfErr};
ghost use Rattle.gl_settings.specs.Limits.{Refuses};
ghost use Rattle.gl_config.specs.Next.{next_settings};
ghost use Rattle.gl_config.specs.Applying.{first_refusal, Makes};

use crate::connecting::connect;
use crate::groks::{create_grok, set_grok};
use crate::index_sets::create_set;
use crate::inputs::{create_input, set_extractors};
use crate::lookups::{Columns, put_table};
use crate::own::Own;
use crate::sources::{put_pipeline, put_rule};
use crate::streams::{Ways, create_stream, set_stream};
use crate::users::{Given, create_user, set_user};
use gl_commands::Command;
use gl_settings::{ConfigRefusal, Parts};
use std::alloc::Global;

#[tactic(auto, unfolding(crate::specs::Applying::first_refusal, crate::specs::Next::next_settings))]
/// The parts behind a command, unless its texts and names refuse it.
pub fn made_by(parts: &Parts, alloc: Global, command: &Command) -> Result<Parts, ConfigRefusal>
    requires { parts.now.version < 2 ^ 64 - 1 }
    ensures ok { IfOk result (Makes (first_refusal parts.now command.now) (next_settings parts.now command.now)) }
    ensures err { IfErr result (Refuses (first_refusal parts.now command.now)) }
{
    match command {
        Command::CreateInput { name, kind } => create_input(parts, alloc, name, *kind),
        Command::SetExtractors { input, extractors } => {
            set_extractors(parts, alloc, input, extractors.as_slice())
        }
        Command::CreateIndexSet {
            name,
            max_docs,
            max_ms,
            keep,
        } => create_set(parts, alloc, name, *max_docs, *max_ms, *keep),
        Command::CreateStream {
            name,
            index_set,
            any,
            remove_from_default,
            rules,
        } => {
            let ways = Ways {
                any: *any,
                remove_from_default: *remove_from_default,
                paused: false,
            };
            create_stream(parts, alloc, name, index_set, ways, rules.as_slice())
        }
        Command::SetStream {
            id,
            any,
            remove_from_default,
            paused,
            rules,
        } => {
            let ways = Ways {
                any: *any,
                remove_from_default: *remove_from_default,
                paused: *paused,
            };
            set_stream(parts, alloc, *id, ways, rules.as_slice())
        }
        Command::CreateRule { source } => put_rule(parts, alloc, Own::Created, source),
        Command::SetRule { source } => put_rule(parts, alloc, Own::Changed, source),
        Command::CreatePipeline { source } => put_pipeline(parts, alloc, Own::Created, source),
        Command::SetPipeline { source } => put_pipeline(parts, alloc, Own::Changed, source),
        Command::Connect { stream, pipelines } => {
            connect(parts, alloc, *stream, pipelines.as_slice())
        }
        Command::CreateLookup {
            name,
            csv,
            key,
            value,
        } => put_table(
            parts,
            alloc,
            Own::Created,
            name,
            &Columns { csv, key, value },
        ),
        Command::SetLookup {
            name,
            csv,
            key,
            value,
        } => put_table(
            parts,
            alloc,
            Own::Changed,
            name,
            &Columns { csv, key, value },
        ),
        Command::CreateGrok { name, pattern } => create_grok(parts, alloc, name, pattern),
        Command::SetGrok { name, pattern } => set_grok(parts, alloc, name, pattern),
        Command::CreateUser {
            name,
            token_sha256,
            admin,
            streams,
        } => {
            let given = Given {
                name,
                hash: token_sha256,
                admin: *admin,
                streams,
            };
            create_user(parts, alloc, &given)
        }
        Command::SetUser {
            name,
            token_sha256,
            admin,
            streams,
        } => {
            let given = Given {
                name,
                hash: token_sha256,
                admin: *admin,
                streams,
            };
            set_user(parts, alloc, &given)
        }
    }
}
