// What `check` says of a store.
ghost use Rattle.std.specs.Prelude.{OnOk, OnErr, IfErr};
ghost use Rattle.std.specs.Io.KnownBytes.{Appends};
ghost use Rattle.gl_base.specs.Counts.{HasCause};
ghost use Rattle.gl_node.specs.Node.{Keeps};
ghost use Rattle.gl_node.specs.State.{State};
ghost use Rattle.gl_cli.specs.Ends.{check_text};
ghost use Rattle.gl_cli.specs.Statuses.{IsSinkStatus};
ghost use Rattle.gl_cli.specs.Writing.{AppendsSome};

use crate::answering::send;
use crate::print;
use crate::status::Status;
use gl_node::Node;
use gl_outside::Sink;
use std::alloc::Global;

/// Writes the line that says how many entries the journal of a node has, how many of them are committed, and the version of
/// its configuration.
pub fn write_check<K: Sink>(alloc: Global, node: &Node, sink: &mut K) -> Result<(), Status>
    ensures ok { OnOk result ((s : State) → Keeps node.now s → Appends (K.contents sink.old) (K.contents sink.new) (check_text s)) }
    ensures err { OnErr result ((s : State) → Keeps node.now s → AppendsSome (K.contents sink.old) (K.contents sink.new) (check_text s)) }
    ensures kind { IfErr result IsSinkStatus }
    ensures cause { HasCause Status.SinkFault (K.faults sink.old) (K.faults sink.new) result }
{
    let text = print::check_text(alloc, node.journalled(), node.committed(), node.version())?;
    send(sink, text.as_bytes())?;
    Ok(())
}
