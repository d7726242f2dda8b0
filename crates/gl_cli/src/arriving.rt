// What becomes of what arrives.
ghost use Rattle.std.specs.Prelude.{◌≡◌, ◌<◌, ◌≤◌, ◌+◌, List, [], ◌∷◌, ◌++◌, false, length, Some, None, All, IfOk, IfErr, OnOk, OnErr, vec_capacity};
ghost use Rattle.std.specs.Io.KnownBytes.{Appends};
ghost use Rattle.gl_base.specs.Counts.{HasCause};
ghost use Rattle.gl_outside.specs.Disk.{Tells};
ghost use Rattle.gl_node.specs.Node.{NodeOn, NodeReady};
ghost use Rattle.gl_node.specs.State.{State};
ghost use Rattle.gl_fields.specs.declared.input_kind.InputKind.{InputKind};
ghost use Rattle.gl_cli.specs.Answers.{words_text, arrival_words};
ghost use Rattle.gl_cli.specs.Connections.{Connection, is_closed, new_frames, with_sent};
ghost use Rattle.gl_cli.specs.Desk.{DeskKeeps};
ghost use Rattle.gl_cli.specs.Opened.{ForReader, FramesStandFor, IsOpen, SomeReader, ConnectionsStandFor, is_named};
ghost use Rattle.gl_cli.specs.Runs.{begun_turn, datagram_turn, end_turn, frames_turn, refused_turn, sent_connections, sent_turn, tcp_turn, tcp_turn_by, turn_text};
ghost use Rattle.gl_cli.specs.Sessions.{DoesTurn, CutsTurn, DuringTurn, CutLeaves, Follows, With, payload_turn};
ghost use Rattle.gl_cli.specs.Statuses.{IsSinkStatus, IsLineStatus};
ghost use Rattle.gl_cli.specs.Writing.{AppendsSome};
ghost use Rattle.gl_cli.specs.declared.line.Line.TheVariants as lines;

use crate::answering::send;
use crate::connections::{Connections, Open};
use crate::desk::Desk;
use crate::frames::{Frames, law_frames_go_on};
use crate::print;
use crate::status::Status;
use gl_base::{Fed, Text};
use gl_fields::InputKind;
use gl_node::{Arrival, law_images_show_the_state};
use gl_outside::{Disk, Sink};
use std::alloc::Global;

/// Writes what became of an arrival.
fn write_arrival<K: Sink>(alloc: Global, sink: &mut K, arrival: &Arrival) -> Result<(), Status>
    ensures ok { OnOk result (Appends (K.contents sink.old) (K.contents sink.new) (words_text (arrival_words arrival.now))) }
    ensures err { OnErr result (AppendsSome (K.contents sink.old) (K.contents sink.new) (words_text (arrival_words arrival.now))) }
    ensures kind { IfErr result IsSinkStatus }
    ensures cause { HasCause Status.SinkFault (K.faults sink.old) (K.faults sink.new) result }
{
    let text = print::arrival_text(alloc, arrival)?;
    send(sink, text.as_bytes())?;
    Ok(())
}

/// Hands a datagram to the node, and answers.
pub fn answer_datagram<D: Disk, K: Sink>(
    alloc: Global,
    desk: &mut Desk,
    disk: &mut D,
    sink: &mut K,
    moment: u64,
    input: &str,
    peer: &str,
    bytes: &[u8],
) -> Result<(), Status>
    requires moment { moment ≤ 253402300799999 }
    requires some_peer { 0 < length peer.now }
    requires short_peer { length peer.now ≤ 255 }
    requires keeps { (s : State) × DeskKeeps desk.old s }
    requires ready { Tells (D.state disk.old) → NodeReady desk.old.node (D.state disk.old) }
    ensures answered { OnOk result (DoesTurn (datagram_turn moment input.now peer.now bytes.now) desk.old desk.new (K.contents sink.old) (K.contents sink.new)) }
    ensures cut { OnErr result (CutsTurn (datagram_turn moment input.now peer.now bytes.now) desk.old (K.contents sink.old) (K.contents sink.new)) }
    ensures ready { Tells (D.state disk.old) → OnOk result (NodeReady desk.new.node (D.state disk.new)) }
    ensures stands { Tells (D.state disk.old) → NodeOn desk.old.node (D.state disk.old) → OnOk result (NodeOn desk.new.node (D.state disk.new)) }
    ensures kind { IfErr result IsLineStatus }
    ensures sink_cause { HasCause Status.SinkFault (K.faults sink.old) (K.faults sink.new) result }
    ensures disk_cause { HasCause Status.DiskFault (D.faults disk.old) (D.faults disk.new) result }
    ensures tells { (D.state disk.new).tells ≡ (D.state disk.old).tells }
    // A crash at any moment leaves the state after some of the first of the line's events, and after those of each answer
    // line that has a byte in the sink.
    ensures any_moment { DuringTurn (datagram_turn moment input.now peer.now bytes.now) desk.old (D.state disk.old) (D.state disk.new) }
    ensures cut_leaves { OnErr result (CutLeaves (datagram_turn moment input.now peer.now bytes.now) desk.old (K.contents sink.old) (K.contents sink.new) (D.state disk.old) (D.state disk.new)) }
{
    let arrival = desk.datagram(disk, moment, input, peer, bytes)?;
    law_images_show_the_state(&desk.node, disk);
    write_arrival(alloc, sink, &arrival)?;
    Ok(())
}

/// Hands a payload to the node, and answers.
pub fn answer_payload<D: Disk, K: Sink>(
    alloc: Global,
    desk: &mut Desk,
    disk: &mut D,
    sink: &mut K,
    moment: u64,
    input: &str,
    peer: &str,
    bytes: &[u8],
) -> Result<(), Status>
    requires moment { moment ≤ 253402300799999 }
    requires some_peer { 0 < length peer.now }
    requires short_peer { length peer.now ≤ 255 }
    requires keeps { (s : State) × DeskKeeps desk.old s }
    requires ready { Tells (D.state disk.old) → NodeReady desk.old.node (D.state disk.old) }
    ensures answered { OnOk result (DoesTurn (payload_turn moment input.now peer.now bytes.now) desk.old desk.new (K.contents sink.old) (K.contents sink.new)) }
    ensures cut { OnErr result (CutsTurn (payload_turn moment input.now peer.now bytes.now) desk.old (K.contents sink.old) (K.contents sink.new)) }
    ensures ready { Tells (D.state disk.old) → OnOk result (NodeReady desk.new.node (D.state disk.new)) }
    ensures stands { Tells (D.state disk.old) → NodeOn desk.old.node (D.state disk.old) → OnOk result (NodeOn desk.new.node (D.state disk.new)) }
    ensures kind { IfErr result IsLineStatus }
    ensures sink_cause { HasCause Status.SinkFault (K.faults sink.old) (K.faults sink.new) result }
    ensures disk_cause { HasCause Status.DiskFault (D.faults disk.old) (D.faults disk.new) result }
    ensures tells { (D.state disk.new).tells ≡ (D.state disk.old).tells }
    // A crash at any moment leaves the state after some of the first of the line's events, and after those of each answer
    // line that has a byte in the sink.
    ensures any_moment { DuringTurn (payload_turn moment input.now peer.now bytes.now) desk.old (D.state disk.old) (D.state disk.new) }
    ensures cut_leaves { OnErr result (CutLeaves (payload_turn moment input.now peer.now bytes.now) desk.old (K.contents sink.old) (K.contents sink.new) (D.state disk.old) (D.state disk.new)) }
{
    let arrival = desk.payload(disk, moment, input, peer, bytes)?;
    law_images_show_the_state(&desk.node, disk);
    write_arrival(alloc, sink, &arrival)?;
    Ok(())
}

/// Hands the frames that end in a piece to the node, each answered before the next, and says whether a frame was too long.
fn answer_frames<D: Disk, K: Sink>(
    alloc: Global,
    desk: &mut Desk,
    frames: &mut Frames,
    disk: &mut D,
    sink: &mut K,
    moment: u64,
    input: &str,
    peer: &str,
    piece: &[u8],
) -> Result<bool, Status>
    requires moment { moment ≤ 253402300799999 }
    requires some_peer { 0 < length peer.now }
    requires short_peer { length peer.now ≤ 255 }
    requires reader { SomeReader frames.old }
    requires keeps { (s : State) × DeskKeeps desk.old s }
    requires ready { Tells (D.state disk.old) → NodeReady desk.old.node (D.state disk.old) }
    ensures reader { IfOk result (λ closed. ForReader frames.old (λ kind before. (closed ≡ is_closed kind (before ++ piece.now)) × FramesStandFor kind frames.new (before ++ piece.now))) }
    ensures answered { OnOk result (ForReader frames.old (λ kind before. DoesTurn (frames_turn moment input.now peer.now (new_frames kind before piece.now)) desk.old desk.new (K.contents sink.old) (K.contents sink.new))) }
    ensures cut { OnErr result (ForReader frames.old (λ kind before. CutsTurn (frames_turn moment input.now peer.now (new_frames kind before piece.now)) desk.old (K.contents sink.old) (K.contents sink.new))) }
    ensures ready { Tells (D.state disk.old) → OnOk result (NodeReady desk.new.node (D.state disk.new)) }
    ensures stands { Tells (D.state disk.old) → NodeOn desk.old.node (D.state disk.old) → OnOk result (NodeOn desk.new.node (D.state disk.new)) }
    ensures kind { IfErr result IsLineStatus }
    ensures sink_cause { HasCause Status.SinkFault (K.faults sink.old) (K.faults sink.new) result }
    ensures disk_cause { HasCause Status.DiskFault (D.faults disk.old) (D.faults disk.new) result }
    ensures tells { (D.state disk.new).tells ≡ (D.state disk.old).tells }
    ensures any_moment { ForReader frames.old (λ kind before. DuringTurn (frames_turn moment input.now peer.now (new_frames kind before piece.now)) desk.old (D.state disk.old) (D.state disk.new)) }
    ensures cut_leaves { OnErr result (ForReader frames.old (λ kind before. CutLeaves (frames_turn moment input.now peer.now (new_frames kind before piece.now)) desk.old (K.contents sink.old) (K.contents sink.new) (D.state disk.old) (D.state disk.new))) }
{
    law_images_show_the_state(&desk.node, disk);
    let mut rest = piece;
    'frames: loop {
        let (taken, fed) = frames.take(rest);
        law_frames_go_on(frames);
        rest = &rest[taken..];
        match fed {
            Fed::Nothing => return Ok(false),
            Fed::TooLong => return Ok(true),
            Fed::Closed => return Ok(true),
            Fed::Whole => {
                let frame = frames.frame();
                answer_payload(alloc, desk, disk, sink, moment, input, peer, frame)?;
            }
        }
    }
}

/// Answers what a piece gives of a connection that isn't closed.
fn answer_piece<D: Disk, K: Sink>(
    alloc: Global,
    desk: &mut Desk,
    one: &mut Open,
    disk: &mut D,
    sink: &mut K,
    moment: u64,
    input: &str,
    peer: &str,
    piece: &[u8],
) -> Result<(), Status>
    requires moment { moment ≤ 253402300799999 }
    requires some_peer { 0 < length peer.now }
    requires short_peer { length peer.now ≤ 255 }
    requires one { (c : Connection) × IsOpen one.old c }
    requires going { one.old.closed ≡ false }
    requires keeps { (s : State) × DeskKeeps desk.old s }
    requires ready { Tells (D.state disk.old) → NodeReady desk.old.node (D.state disk.old) }
    ensures one { OnOk result ((c : Connection) → IsOpen one.old c → IsOpen one.new (record c { bytes = c.bytes ++ piece.now })) }
    ensures answered { OnOk result ((c : Connection) → IsOpen one.old c → (DoesTurn (sent_turn moment input.now peer.now c.kind c.bytes piece.now) desk.old desk.new (K.contents sink.old) (K.contents sink.new))) }
    ensures cut { OnErr result ((c : Connection) → IsOpen one.old c → CutsTurn (sent_turn moment input.now peer.now c.kind c.bytes piece.now) desk.old (K.contents sink.old) (K.contents sink.new)) }
    ensures ready { Tells (D.state disk.old) → OnOk result (NodeReady desk.new.node (D.state disk.new)) }
    ensures stands { Tells (D.state disk.old) → NodeOn desk.old.node (D.state disk.old) → OnOk result (NodeOn desk.new.node (D.state disk.new)) }
    ensures kind { IfErr result IsLineStatus }
    ensures sink_cause { HasCause Status.SinkFault (K.faults sink.old) (K.faults sink.new) result }
    ensures disk_cause { HasCause Status.DiskFault (D.faults disk.old) (D.faults disk.new) result }
    ensures tells { (D.state disk.new).tells ≡ (D.state disk.old).tells }
    ensures any_moment { (c : Connection) → IsOpen one.old c → DuringTurn (sent_turn moment input.now peer.now c.kind c.bytes piece.now) desk.old (D.state disk.old) (D.state disk.new) }
    ensures cut_leaves { OnErr result ((c : Connection) → IsOpen one.old c → CutLeaves (sent_turn moment input.now peer.now c.kind c.bytes piece.now) desk.old (K.contents sink.old) (K.contents sink.new) (D.state disk.old) (D.state disk.new)) }
{
    let closed = answer_frames(
        alloc,
        desk,
        &mut one.frames,
        disk,
        sink,
        moment,
        input,
        peer,
        piece,
    )?;
    law_images_show_the_state(&desk.node, disk);
    one.closed = closed;
    if !closed {
        return Ok(());
    }
    write_arrival(alloc, sink, &Arrival::FrameTooLong)?;
    Ok(())
}

/// Answers a piece that a closed connection is sent.
fn answer_closed<K: Sink>(sink: &mut K, piece: &[u8]) -> Result<(), Status>
    ensures ok { OnOk result (Appends (K.contents sink.old) (K.contents sink.new) (turn_text (refused_turn piece.now))) }
    ensures err { OnErr result (AppendsSome (K.contents sink.old) (K.contents sink.new) (turn_text (refused_turn piece.now))) }
    ensures kind { IfErr result IsSinkStatus }
    ensures cause { HasCause Status.SinkFault (K.faults sink.old) (K.faults sink.new) result }
{
    if piece.is_empty() {
        return Ok(());
    }
    send(sink, b"closed\n")?;
    Ok(())
}

/// Answers what a piece gives of a connection that has begun.
fn answer_begun<D: Disk, K: Sink>(
    alloc: Global,
    desk: &mut Desk,
    one: &mut Open,
    disk: &mut D,
    sink: &mut K,
    moment: u64,
    input: &str,
    peer: &str,
    piece: &[u8],
) -> Result<(), Status>
    requires moment { moment ≤ 253402300799999 }
    requires some_peer { 0 < length peer.now }
    requires short_peer { length peer.now ≤ 255 }
    requires one { (c : Connection) × IsOpen one.old c }
    requires keeps { (s : State) × DeskKeeps desk.old s }
    requires ready { Tells (D.state disk.old) → NodeReady desk.old.node (D.state disk.old) }
    ensures one { OnOk result ((c : Connection) → IsOpen one.old c → IsOpen one.new (with_sent peer.now piece.now c)) }
    ensures answered { OnOk result ((c : Connection) → IsOpen one.old c → (DoesTurn (begun_turn moment input.now peer.now c piece.now) desk.old desk.new (K.contents sink.old) (K.contents sink.new))) }
    ensures cut { OnErr result ((c : Connection) → IsOpen one.old c → CutsTurn (begun_turn moment input.now peer.now c piece.now) desk.old (K.contents sink.old) (K.contents sink.new)) }
    ensures ready { Tells (D.state disk.old) → OnOk result (NodeReady desk.new.node (D.state disk.new)) }
    ensures stands { Tells (D.state disk.old) → NodeOn desk.old.node (D.state disk.old) → OnOk result (NodeOn desk.new.node (D.state disk.new)) }
    ensures kind { IfErr result IsLineStatus }
    ensures sink_cause { HasCause Status.SinkFault (K.faults sink.old) (K.faults sink.new) result }
    ensures disk_cause { HasCause Status.DiskFault (D.faults disk.old) (D.faults disk.new) result }
    ensures tells { (D.state disk.new).tells ≡ (D.state disk.old).tells }
    ensures any_moment { (c : Connection) → IsOpen one.old c → DuringTurn (begun_turn moment input.now peer.now c piece.now) desk.old (D.state disk.old) (D.state disk.new) }
    ensures cut_leaves { OnErr result ((c : Connection) → IsOpen one.old c → CutLeaves (begun_turn moment input.now peer.now c piece.now) desk.old (K.contents sink.old) (K.contents sink.new) (D.state disk.old) (D.state disk.new)) }
{
    law_images_show_the_state(&desk.node, disk);
    let closed = one.closed;
    if closed {
        answer_closed(sink, piece)?;
        return Ok(());
    }
    one.peer = Text::from_str(alloc, peer)?;
    answer_piece(alloc, desk, one, disk, sink, moment, input, peer, piece)?;
    Ok(())
}

/// Begins a connection, unless too many are open, and answers what a piece gives of it.
fn answer_first<D: Disk, K: Sink>(
    alloc: Global,
    desk: &mut Desk,
    connections: &mut Connections,
    disk: &mut D,
    sink: &mut K,
    kind: InputKind,
    moment: u64,
    input: &str,
    number: u32,
    peer: &str,
    piece: &[u8],
) -> Result<(), Status>
    requires moment { moment ≤ 253402300799999 }
    requires some_peer { 0 < length peer.now }
    requires short_peer { length peer.now ≤ 255 }
    requires connections { (cs : List Connection) × ConnectionsStandFor connections.old.all.items cs }
    requires none { All (λ o. is_named input.now number o ≡ false) connections.old.all.items }
    requires keeps { (s : State) × DeskKeeps desk.old s }
    requires ready { Tells (D.state disk.old) → NodeReady desk.old.node (D.state disk.old) }
    ensures connections { OnOk result (With connections.old (λ cs. ConnectionsStandFor connections.new.all.items (sent_connections (Some kind) None cs input.now number peer.now piece.now))) }
    ensures answered { OnOk result (With connections.old (λ cs. DoesTurn (tcp_turn_by (Some kind) None moment cs input.now peer.now piece.now) desk.old desk.new (K.contents sink.old) (K.contents sink.new))) }
    ensures cut { OnErr result (With connections.old (λ cs. CutsTurn (tcp_turn_by (Some kind) None moment cs input.now peer.now piece.now) desk.old (K.contents sink.old) (K.contents sink.new))) }
    ensures ready { Tells (D.state disk.old) → OnOk result (NodeReady desk.new.node (D.state disk.new)) }
    ensures stands { Tells (D.state disk.old) → NodeOn desk.old.node (D.state disk.old) → OnOk result (NodeOn desk.new.node (D.state disk.new)) }
    ensures kind { IfErr result IsLineStatus }
    ensures sink_cause { HasCause Status.SinkFault (K.faults sink.old) (K.faults sink.new) result }
    ensures disk_cause { HasCause Status.DiskFault (D.faults disk.old) (D.faults disk.new) result }
    ensures tells { (D.state disk.new).tells ≡ (D.state disk.old).tells }
    ensures any_moment { With connections.old (λ cs. DuringTurn (tcp_turn_by (Some kind) None moment cs input.now peer.now piece.now) desk.old (D.state disk.old) (D.state disk.new)) }
    ensures cut_leaves { OnErr result (With connections.old (λ cs. CutLeaves (tcp_turn_by (Some kind) None moment cs input.now peer.now piece.now) desk.old (K.contents sink.old) (K.contents sink.new) (D.state disk.old) (D.state disk.new))) }
{
    law_images_show_the_state(&desk.node, disk);
    if connections.is_full() {
        send(sink, b"too-many-connections\n")?;
        return Ok(());
    }
    connections.all.reserve(1)?;
    let mut one = Open::new(alloc, input, number, kind, peer)?;
    answer_piece(
        alloc, desk, &mut one, disk, sink, moment, input, peer, piece,
    )?;
    push_within(&mut connections.all, one);
    Ok(())
}

/// Puts a connection behind the others, in the room that was made for it.
fn push_within(all: &mut Vec<Open>, one: Open)
    requires { length all.old.items + 1 ≤ vec_capacity all.old }
    ensures { all.new.items ≡ all.old.items ++ one ∷ [] }
{
    match all.push(one) {
        Ok(()) => {}
        Err(_) => unreachable!(),
    }
}

/// Answers what a piece gives that a connection is sent.
pub fn answer_sent<D: Disk, K: Sink>(
    alloc: Global,
    desk: &mut Desk,
    connections: &mut Connections,
    disk: &mut D,
    sink: &mut K,
    moment: u64,
    input: &str,
    number: u32,
    peer: &str,
    piece: &[u8],
) -> Result<(), Status>
    requires moment { moment ≤ 253402300799999 }
    requires some_peer { 0 < length peer.now }
    requires short_peer { length peer.now ≤ 255 }
    requires connections { (cs : List Connection) × ConnectionsStandFor connections.old.all.items cs }
    requires keeps { (s : State) × DeskKeeps desk.old s }
    requires ready { Tells (D.state disk.old) → NodeReady desk.old.node (D.state disk.old) }
    ensures connections { OnOk result (Follows (lines.Tcp input.now number peer.now piece.now) desk.old connections.old connections.new) }
    ensures answered { OnOk result (With connections.old (λ cs. DoesTurn (tcp_turn moment cs input.now number peer.now piece.now) desk.old desk.new (K.contents sink.old) (K.contents sink.new))) }
    ensures cut { OnErr result (With connections.old (λ cs. CutsTurn (tcp_turn moment cs input.now number peer.now piece.now) desk.old (K.contents sink.old) (K.contents sink.new))) }
    ensures ready { Tells (D.state disk.old) → OnOk result (NodeReady desk.new.node (D.state disk.new)) }
    ensures stands { Tells (D.state disk.old) → NodeOn desk.old.node (D.state disk.old) → OnOk result (NodeOn desk.new.node (D.state disk.new)) }
    ensures kind { IfErr result IsLineStatus }
    ensures sink_cause { HasCause Status.SinkFault (K.faults sink.old) (K.faults sink.new) result }
    ensures disk_cause { HasCause Status.DiskFault (D.faults disk.old) (D.faults disk.new) result }
    ensures tells { (D.state disk.new).tells ≡ (D.state disk.old).tells }
    ensures any_moment { With connections.old (λ cs. DuringTurn (tcp_turn moment cs input.now number peer.now piece.now) desk.old (D.state disk.old) (D.state disk.new)) }
    ensures cut_leaves { OnErr result (With connections.old (λ cs. CutLeaves (tcp_turn moment cs input.now number peer.now piece.now) desk.old (K.contents sink.old) (K.contents sink.new) (D.state disk.old) (D.state disk.new))) }
{
    law_images_show_the_state(&desk.node, disk);
    let Some(kind) = desk.node.input_kind(input) else {
        write_arrival(alloc, sink, &Arrival::UnknownInput)?;
        return Ok(());
    };
    let Some(place) = connections.place_of(input, number) else {
        answer_first(
            alloc,
            desk,
            connections,
            disk,
            sink,
            kind,
            moment,
            input,
            number,
            peer,
            piece,
        )?;
        return Ok(());
    };
    let one = &mut connections.all[place];
    answer_begun(alloc, desk, one, disk, sink, moment, input, peer, piece)?;
    Ok(())
}

/// Answers the last frame of a connection that ends, and forgets the connection.
pub fn answer_end<D: Disk, K: Sink>(
    alloc: Global,
    desk: &mut Desk,
    connections: &mut Connections,
    disk: &mut D,
    sink: &mut K,
    moment: u64,
    input: &str,
    number: u32,
) -> Result<(), Status>
    requires moment { moment ≤ 253402300799999 }
    requires connections { (cs : List Connection) × ConnectionsStandFor connections.old.all.items cs }
    requires keeps { (s : State) × DeskKeeps desk.old s }
    requires ready { Tells (D.state disk.old) → NodeReady desk.old.node (D.state disk.old) }
    ensures connections { OnOk result (Follows (lines.End input.now number) desk.old connections.old connections.new) }
    ensures answered { OnOk result (With connections.old (λ cs. DoesTurn (end_turn moment cs input.now number) desk.old desk.new (K.contents sink.old) (K.contents sink.new))) }
    ensures cut { OnErr result (With connections.old (λ cs. CutsTurn (end_turn moment cs input.now number) desk.old (K.contents sink.old) (K.contents sink.new))) }
    ensures ready { Tells (D.state disk.old) → OnOk result (NodeReady desk.new.node (D.state disk.new)) }
    ensures stands { Tells (D.state disk.old) → NodeOn desk.old.node (D.state disk.old) → OnOk result (NodeOn desk.new.node (D.state disk.new)) }
    ensures kind { IfErr result IsLineStatus }
    ensures sink_cause { HasCause Status.SinkFault (K.faults sink.old) (K.faults sink.new) result }
    ensures disk_cause { HasCause Status.DiskFault (D.faults disk.old) (D.faults disk.new) result }
    ensures tells { (D.state disk.new).tells ≡ (D.state disk.old).tells }
    ensures any_moment { With connections.old (λ cs. DuringTurn (end_turn moment cs input.now number) desk.old (D.state disk.old) (D.state disk.new)) }
    ensures cut_leaves { OnErr result (With connections.old (λ cs. CutLeaves (end_turn moment cs input.now number) desk.old (K.contents sink.old) (K.contents sink.new) (D.state disk.old) (D.state disk.new))) }
{
    law_images_show_the_state(&desk.node, disk);
    let Some(place) = connections.place_of(input, number) else {
        return Ok(());
    };
    let mut one = connections.all.remove(place);
    match one.frames.end() {
        Fed::Nothing => Ok(()),
        Fed::TooLong => Ok(()),
        Fed::Closed => Ok(()),
        Fed::Whole => {
            let frame = one.frames.frame();
            answer_payload(
                alloc,
                desk,
                disk,
                sink,
                moment,
                input,
                one.peer.as_str(),
                frame,
            )?;
            Ok(())
        }
    }
}
