// A session: the lines of a script, one after another.
ghost use Rattle.std.specs.Prelude.{◌≡◌, [], max, IfSome};
ghost use Rattle.std.specs.Io.KnownBytes.{IsAtEnd};
ghost use Rattle.gl_outside.specs.Disk.{Image, Tells, LeavesOnly};
ghost use Rattle.gl_node.specs.Moments.{LeftBy};
ghost use Rattle.gl_node.specs.Node.{NodeOn, NodeReady};
ghost use Rattle.gl_node.specs.Standing.{StandsFor};
ghost use Rattle.gl_node.specs.State.{Base, State, opened};
ghost use Rattle.gl_cli.specs.Crashes.{ShownAt};
ghost use Rattle.gl_cli.specs.Desk.{DeskKeeps};
ghost use Rattle.gl_cli.specs.Ends.{SessionEnd, HasCauses, EndsBy, AnsweredAll};
ghost use Rattle.gl_cli.specs.Runs.{all_events, script_turns, last_state};
ghost use Rattle.gl_cli.specs.Script.{moment_in};
ghost use Rattle.gl_cli.specs.Statuses.{IsRunStatus, source_status_of};

use crate::answering::{answer_line, write_done};
use crate::connections::Connections;
use crate::desk::Desk;
use crate::line::Line;
use crate::parse::line_of;
use crate::reader::{LineReader, Next};
use crate::status::Status;
use gl_node::law_images_show_the_state;
use gl_outside::{Disk, Outside, Sink, Source};
use std::alloc::Global;

/// How many bytes of a script are read.
const SCRIPT_LIMIT: usize = 1 << 30;

/// The present moment after a line.
fn moment_with(moment: u64, line: &Line) -> u64
    ensures { result ≡ max moment (moment_in line.now) }
{
    match line {
        Line::At { moment: named } => moment.max(*named),
        _ => moment,
    }
}

/// How a session ends whose source gives nothing.
fn source_status(fault: Outside) -> Status
    ensures { result ≡ source_status_of fault }
{
    match fault {
        Outside::Failed => Status::SourceFault,
        Outside::OutOfMemory => Status::OutOfMemory,
    }
}

/// Runs a script to its end, or to the event that ends it.
///
/// The clauses hold for each base from which the desk was opened, whatever the source has left and
/// whatever the disk tells.
pub fn session<D: Disk, S: Source, K: Sink>(
    alloc: Global,
    desk: &mut Desk,
    disk: &mut D,
    source: &mut S,
    sink: &mut K,
) -> Status
    requires keeps { (s : State) × DeskKeeps desk.old s }
    requires ready { Tells (D.state disk.old) → NodeReady desk.old.node (D.state disk.old) }
    ensures end { (base : Base) → DeskKeeps desk.old (opened base) →
        IfSome (S.left source.old) (λ script. SessionEnd base script result (K.contents sink.old) (K.contents sink.new)) }
    ensures script { IfSome (S.left source.old) (λ script. EndsBy script result) }
    ensures whole { result ≡ Status.Done → IsAtEnd (S.left source.new) }
    ensures shows { Tells (D.state disk.old) → NodeOn desk.old.node (D.state disk.old) → AnsweredAll result → (base : Base) → DeskKeeps desk.old (opened base) →
        IfSome (S.left source.old) (λ script. (image : Image) → (D.state disk.new).may_leave image → StandsFor image (last_state base (script_turns base [] script))) }
    ensures runs { IsRunStatus result }
    ensures causes { HasCauses result
        (record { source = S.faults source.old; sink = K.faults sink.old; disk = D.faults disk.old; shop = 0 })
        (record { source = S.faults source.new; sink = K.faults sink.new; disk = D.faults disk.new; shop = 0 }) }
    ensures tells { (D.state disk.new).tells ≡ (D.state disk.old).tells }
    // A crash at any moment leaves the state after some of the first of the script's events.
    ensures any_moment { Tells (D.state disk.old) → NodeOn desk.old.node (D.state disk.old) → (base : Base) → DeskKeeps desk.old (opened base) →
        IfSome (S.left source.old) (λ script. LeavesOnly (D.state disk.old) (D.state disk.new) (LeftBy (opened base) (all_events (script_turns base [] script)) (D.state disk.old))) }
    // However the session ends, each event whose answer has a byte in the sink is in each image that a crash may leave.
    ensures at_exit { Tells (D.state disk.old) → NodeOn desk.old.node (D.state disk.old) → (base : Base) → DeskKeeps desk.old (opened base) →
        IfSome (S.left source.old) (λ script. (image : Image) → (D.state disk.new).may_leave image → ShownAt base script (K.contents sink.old) (K.contents sink.new) image) }
{
    let mut reader = LineReader::new(alloc, SCRIPT_LIMIT);
    let mut connections = Connections::new(alloc);
    let mut moment = 0;
    let mut number: u64 = 0;
    law_images_show_the_state(&desk.node, disk);
    'lines: loop {
        law_images_show_the_state(&desk.node, disk);
        match reader.next_line(alloc, source) {
            Err(fault) => return source_status(fault),
            Ok(Next::TooLong) => return Status::ScriptTooLong,
            Ok(Next::End) => break 'lines,
            Ok(Next::Line(text)) => {
                number += 1;
                match line_of(alloc, text.as_slice()) {
                    Err(_) => return Status::OutOfMemory,
                    Ok(None) => return Status::BadScript { line: number },
                    Ok(Some(line)) => {
                        match answer_line(
                            alloc,
                            desk,
                            &mut connections,
                            disk,
                            sink,
                            moment,
                            &line,
                        ) {
                            Err(status) => return status,
                            Ok(()) => moment = moment_with(moment, &line),
                        }
                    }
                }
            }
        }
    }
    match write_done(alloc, desk, sink) {
        Err(status) => status,
        Ok(()) => Status::Done,
    }
}
