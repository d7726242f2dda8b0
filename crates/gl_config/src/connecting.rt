// The command that connects a stream to pipelines.
ghost use Rattle.std.specs.Prelude.{◌≡◌, ◌-◌, ◌<◌, ◌^◌, None, IfOk, IfErr};
ghost use Rattle.gl_commands.specs.declared.command.Command.TheVariants.{Connect};
ghost use Rattle.gl_settings.specs.Limits.{Refuses};
ghost use Rattle.gl_config.specs.Next.{behind, changed};
ghost use Rattle.gl_config.specs.Applying.{connection_refusal, Makes};

use crate::known::{has_pipelines, has_stream};
use gl_base::Text;
use gl_settings::{ConfigRefusal, Parts, connected, copy_names};
use std::alloc::{AllocError, Global};

fn with_connection(
    parts: &Parts,
    alloc: Global,
    stream: u64,
    pipelines: &[Text],
) -> Result<Parts, AllocError>
    requires { parts.now.version < 2 ^ 64 - 1 }
    ensures { IfOk result (λ next. next ≡ behind parts.now (changed parts.now (Connect stream pipelines.now))) }
{
    let pipelines = copy_names(alloc, pipelines)?;
    let connections = connected(alloc, stream, pipelines, parts.connections())?;
    parts.next()?.with_connections(alloc, connections)
}

/// Another list of pipelines for a stream that is there.
pub fn connect(
    parts: &Parts,
    alloc: Global,
    stream: u64,
    pipelines: &[Text],
) -> Result<Parts, ConfigRefusal>
    requires { parts.now.version < 2 ^ 64 - 1 }
    ensures ok { IfOk result (Makes (connection_refusal parts.now stream pipelines.now) (behind parts.now (changed parts.now (Connect stream pipelines.now)))) }
    ensures err { IfErr result (Refuses (connection_refusal parts.now stream pipelines.now)) }
{
    if !has_stream(parts, stream) || !has_pipelines(parts, pipelines) {
        return Err(ConfigRefusal::UnknownName);
    }
    Ok(with_connection(parts, alloc, stream, pipelines)?)
}
