// What a line of a script is answered.
ghost use Rattle.std.specs.Prelude.{◌≡◌, ◌<◌, ◌≤◌, List, false, IfErr, OnOk, OnErr};
ghost use Rattle.std.specs.Io.KnownBytes.{Appends};
ghost use Rattle.gl_base.specs.Counts.{HasCause};
ghost use Rattle.gl_outside.specs.Disk.{Tells};
ghost use Rattle.gl_node.specs.Node.{Keeps, NodeOn, NodeReady, store_of};
ghost use Rattle.gl_node.specs.State.{State, outcomes};
ghost use Rattle.gl_cli.specs.Desk.{DeskKeeps};
ghost use Rattle.gl_cli.specs.Connections.{Connection};
ghost use Rattle.gl_cli.specs.Opened.{ConnectionsStandFor};
ghost use Rattle.gl_cli.specs.Runs.{done_text, listed, turn_of};
ghost use Rattle.gl_cli.specs.Sessions.{DoesTurn, CutsTurn, DuringTurn, CutLeaves, Follows, IsFit, With, claim_turn, finish_turn, outcomes_text};
ghost use Rattle.gl_cli.specs.Statuses.{IsSinkStatus, IsLineStatus};
ghost use Rattle.gl_cli.specs.Writing.{AppendsSome};

use crate::arriving::{answer_datagram, answer_end, answer_sent};
use crate::connections::Connections;
use crate::desk::Desk;
use crate::line::Line;
use crate::print;
use crate::status::Status;
use crate::writer::write_all;
use gl_node::{Node, law_images_show_the_state};
use gl_outside::{Disk, Outside, Sink};
use std::alloc::Global;

/// Writes a text, or tells how that ends the command.
pub fn send<K: Sink>(sink: &mut K, bytes: &[u8]) -> Result<(), Status>
    ensures ok { OnOk result (Appends (K.contents sink.old) (K.contents sink.new) bytes.now) }
    ensures err { OnErr result (AppendsSome (K.contents sink.old) (K.contents sink.new) bytes.now) }
    ensures kind { IfErr result IsSinkStatus }
    ensures cause { HasCause Status.SinkFault (K.faults sink.old) (K.faults sink.new) result }
{
    match write_all(sink, bytes) {
        Ok(()) => Ok(()),
        Err(Outside::Failed) => Err(Status::SinkFault),
        Err(Outside::OutOfMemory) => Err(Status::OutOfMemory),
    }
}

/// Claims a range for a worker, and answers.
fn answer_claim<K: Sink>(
    alloc: Global,
    desk: &mut Desk,
    sink: &mut K,
    worker: u32,
    limit: u32,
) -> Result<(), Status>
    requires worker { worker < 64 }
    requires least { 1 ≤ limit }
    requires most { limit ≤ 256 }
    requires keeps { (s : State) × DeskKeeps desk.old s }
    ensures answered { OnOk result (DoesTurn (claim_turn worker limit) desk.old desk.new (K.contents sink.old) (K.contents sink.new)) }
    ensures cut { OnErr result (CutsTurn (claim_turn worker limit) desk.old (K.contents sink.old) (K.contents sink.new)) }
    ensures same_store { store_of desk.new.node ≡ store_of desk.old.node }
    ensures kind { IfErr result IsSinkStatus }
    ensures cause { HasCause Status.SinkFault (K.faults sink.old) (K.faults sink.new) result }
{
    let text = desk.claim(alloc, worker, limit)?;
    send(sink, text.as_bytes())?;
    Ok(())
}

/// Does the work of the range that a worker holds, and answers.
fn answer_finish<D: Disk, K: Sink>(
    alloc: Global,
    desk: &mut Desk,
    disk: &mut D,
    sink: &mut K,
    worker: u32,
) -> Result<(), Status>
    requires worker { worker < 64 }
    requires keeps { (s : State) × DeskKeeps desk.old s }
    requires ready { Tells (D.state disk.old) → NodeReady desk.old.node (D.state disk.old) }
    ensures answered { OnOk result (DoesTurn (finish_turn worker) desk.old desk.new (K.contents sink.old) (K.contents sink.new)) }
    ensures cut { OnErr result (CutsTurn (finish_turn worker) desk.old (K.contents sink.old) (K.contents sink.new)) }
    ensures ready { Tells (D.state disk.old) → OnOk result (NodeReady desk.new.node (D.state disk.new)) }
    ensures stands { Tells (D.state disk.old) → NodeOn desk.old.node (D.state disk.old) → OnOk result (NodeOn desk.new.node (D.state disk.new)) }
    ensures kind { IfErr result IsLineStatus }
    ensures sink_cause { HasCause Status.SinkFault (K.faults sink.old) (K.faults sink.new) result }
    ensures disk_cause { HasCause Status.DiskFault (D.faults disk.old) (D.faults disk.new) result }
    ensures tells { (D.state disk.new).tells ≡ (D.state disk.old).tells }
    // A crash at any moment leaves the state after some of the first of the line's events, and after those of each answer
    // line that has a byte in the sink.
    ensures any_moment { DuringTurn (finish_turn worker) desk.old (D.state disk.old) (D.state disk.new) }
    ensures cut_leaves { OnErr result (CutLeaves (finish_turn worker) desk.old (K.contents sink.old) (K.contents sink.new) (D.state disk.old) (D.state disk.new)) }
{
    let finished = desk.finish(alloc, disk, worker)?;
    law_images_show_the_state(&desk.node, disk);
    let text = print::finish_text(alloc, &finished)?;
    send(sink, text.as_bytes())?;
    Ok(())
}

/// Writes the line of each committed position.
fn write_outcomes<K: Sink>(alloc: Global, node: &Node, sink: &mut K) -> Result<(), Status>
    requires keeps { (s : State) × Keeps node.now s }
    ensures ok { OnOk result ((s : State) → Keeps node.now s → Appends (K.contents sink.old) (K.contents sink.new) (outcomes_text (outcomes s))) }
    ensures err { OnErr result ((s : State) → Keeps node.now s → AppendsSome (K.contents sink.old) (K.contents sink.new) (outcomes_text (outcomes s))) }
    ensures kind { IfErr result IsSinkStatus }
    ensures cause { HasCause Status.SinkFault (K.faults sink.old) (K.faults sink.new) result }
{
    for position in 0..node.committed() {
        match node.outcome(position) {
            None => unreachable!(),
            Some(outcome) => {
                let text = print::listed_text(alloc, position, outcome)?;
                send(sink, &text)?;
            }
        }
    }
    Ok(())
}

/// Lists what the node has.
fn answer_list<K: Sink>(alloc: Global, desk: &Desk, sink: &mut K) -> Result<(), Status>
    requires keeps { (s : State) × DeskKeeps desk.now s }
    ensures answered { OnOk result (DoesTurn listed desk.now desk.now (K.contents sink.old) (K.contents sink.new)) }
    ensures cut { OnErr result (CutsTurn listed desk.now (K.contents sink.old) (K.contents sink.new)) }
    ensures kind { IfErr result IsSinkStatus }
    ensures cause { HasCause Status.SinkFault (K.faults sink.old) (K.faults sink.new) result }
{
    let text = print::head_text(alloc, desk.node.journalled(), desk.node.committed())?;
    send(sink, text.as_bytes())?;
    write_outcomes(alloc, &desk.node, sink)?;
    Ok(())
}

/// Writes the last line of a session.
pub fn write_done<K: Sink>(alloc: Global, desk: &Desk, sink: &mut K) -> Result<(), Status>
    ensures ok { OnOk result ((s : State) → DeskKeeps desk.now s → Appends (K.contents sink.old) (K.contents sink.new) (done_text s)) }
    ensures err { OnErr result ((s : State) → DeskKeeps desk.now s → AppendsSome (K.contents sink.old) (K.contents sink.new) (done_text s)) }
    ensures kind { IfErr result IsSinkStatus }
    ensures cause { HasCause Status.SinkFault (K.faults sink.old) (K.faults sink.new) result }
{
    let text = print::done_text(alloc, desk.node.journalled(), desk.node.committed())?;
    send(sink, text.as_bytes())?;
    Ok(())
}

/// Does what a line asks for, and writes its answer lines as they become known.
///
/// The clauses hold for each state that the desk keeps, and each list that the connections stand for.
pub fn answer_line<D: Disk, K: Sink>(
    alloc: Global,
    desk: &mut Desk,
    connections: &mut Connections,
    disk: &mut D,
    sink: &mut K,
    moment: u64,
    line: &Line,
) -> Result<(), Status>
    requires moment { moment ≤ 253402300799999 }
    requires fit { IsFit line.now }
    requires connections { (cs : List Connection) × ConnectionsStandFor connections.old.all.items cs }
    requires keeps { (s : State) × DeskKeeps desk.old s }
    requires ready { Tells (D.state disk.old) → NodeReady desk.old.node (D.state disk.old) }
    ensures answered { OnOk result (With connections.old (λ cs. DoesTurn (turn_of moment cs false line.now) desk.old desk.new (K.contents sink.old) (K.contents sink.new))) }
    ensures connections { OnOk result (Follows line.now desk.old connections.old connections.new) }
    ensures cut { OnErr result (With connections.old (λ cs. CutsTurn (turn_of moment cs false line.now) desk.old (K.contents sink.old) (K.contents sink.new))) }
    ensures ready { Tells (D.state disk.old) → OnOk result (NodeReady desk.new.node (D.state disk.new)) }
    ensures stands { Tells (D.state disk.old) → NodeOn desk.old.node (D.state disk.old) → OnOk result (NodeOn desk.new.node (D.state disk.new)) }
    ensures kind { IfErr result IsLineStatus }
    ensures sink_cause { HasCause Status.SinkFault (K.faults sink.old) (K.faults sink.new) result }
    ensures disk_cause { HasCause Status.DiskFault (D.faults disk.old) (D.faults disk.new) result }
    ensures tells { (D.state disk.new).tells ≡ (D.state disk.old).tells }
    // A crash at any moment leaves the state after some of the first of the line's events, and after those of each answer
    // line that has a byte in the sink.
    ensures any_moment { With connections.old (λ cs. DuringTurn (turn_of moment cs false line.now) desk.old (D.state disk.old) (D.state disk.new)) }
    ensures cut_leaves { OnErr result (With connections.old (λ cs. CutLeaves (turn_of moment cs false line.now) desk.old (K.contents sink.old) (K.contents sink.new) (D.state disk.old) (D.state disk.new))) }
{
    law_images_show_the_state(&desk.node, disk);
    match line {
        Line::Blank | Line::At { .. } => Ok(()),
        Line::Udp {
            input,
            peer,
            payload,
        } => {
            let (input, peer) = (input.as_str(), peer.as_str());
            answer_datagram(
                alloc,
                desk,
                disk,
                sink,
                moment,
                input,
                peer,
                payload.as_slice(),
            )?;
            Ok(())
        }
        Line::Tcp {
            input,
            number,
            peer,
            payload,
        } => {
            let (input, peer) = (input.as_str(), peer.as_str());
            answer_sent(
                alloc,
                desk,
                connections,
                disk,
                sink,
                moment,
                input,
                *number,
                peer,
                payload.as_slice(),
            )?;
            Ok(())
        }
        Line::End { input, number } => {
            answer_end(
                alloc,
                desk,
                connections,
                disk,
                sink,
                moment,
                input.as_str(),
                *number,
            )?;
            Ok(())
        }
        Line::Claim { worker, limit } => {
            answer_claim(alloc, desk, sink, *worker, *limit)?;
            Ok(())
        }
        Line::Finish { worker } => {
            answer_finish(alloc, desk, disk, sink, *worker)?;
            Ok(())
        }
        Line::Listing => {
            answer_list(alloc, desk, sink)?;
            Ok(())
        }
    }
}
