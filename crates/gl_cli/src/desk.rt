// A node with the ranges that its workers are at.
ghost use Rattle.std.specs.Prelude.{◌≡◌, ◌≢◌, ◌+◌, ◌<◌, ◌≤◌, ◌++◌, length, vec_capacity, IfOk, IfErr, OnOk, MatchOption, All};
ghost use Rattle.gl_base.specs.Counts.{HasCause};
ghost use Rattle.gl_outside.specs.Disk.{Tells, LeavesOnly};
ghost use Rattle.gl_node.specs.Arrivals.{arrival_of, arrival_events, datagram_answer, datagram_events};
ghost use Rattle.gl_node.specs.Calls.{finished_of};
ghost use Rattle.gl_node.specs.Claims.{claim_answer, claimed_by, finish_answer, finish_events};
ghost use Rattle.gl_node.specs.Moments.{LeftBy};
ghost use Rattle.gl_node.specs.Node.{IsRunning, Keeps, NodeOn, NodeReady, store_of};
ghost use Rattle.gl_node.specs.State.{Base, State, opened, state_after};
ghost use Rattle.gl_cli.specs.Answers.{words_text, claim_words};
ghost use Rattle.gl_cli.specs.Desk.{DeskKeeps, IsPlaceOf, given_by};
ghost use Rattle.gl_cli.specs.Statuses.{IsNodeStatus};
ghost use Rattle.gl_cli.specs.declared.desk.Given.{Given};
ghost use Rattle.std.specs.String.{string_bytes};

use crate::print::claim_text;
use crate::status::Status;
use gl_node::{Arrival, Claimed, Finished, Node, Range, law_images_show_the_state, stage_range};
use gl_outside::Disk;
use std::alloc::Global;

/// A range that a worker was given.
#[derive(Drop)]
pub struct Given {
    pub worker: u32,
    pub range: Range,
}

/// A node, and the ranges that its workers were given and haven't brought back.
#[derive(Drop)]
pub struct Desk {
    pub node: Node,
    pub given: Vec<Given>,
}

impl Desk {
    pub fn new(alloc: Global, node: Node) -> Desk
        ensures keeps { (base : Base) → Keeps node (opened base) → IsRunning node → DeskKeeps result (opened base) }
        ensures same { result.node ≡ node }
    {
        Desk {
            node,
            given: Vec::new(alloc),
        }
    }

    /// Where the range of a worker stands among those that were given.
    fn place_of(&self, worker: u32) -> Option<usize>
        ensures { MatchOption result (All (λ (g : Given). g.worker ≢ worker) self.now.given.items) (IsPlaceOf self.now.given.items worker) }
    {
        self.given.iter().position(|given| given.worker == worker)
    }

    /// Hands a datagram to the node.
    pub fn datagram<D: Disk>(
        &mut self,
        disk: &mut D,
        moment: u64,
        input: &str,
        peer: &str,
        bytes: &[u8],
    ) -> Result<Arrival, Status>
        requires moment { moment ≤ 253402300799999 }
        requires some_peer { 0 < length peer.now }
        requires short_peer { length peer.now ≤ 255 }
        requires keeps { (s : State) × DeskKeeps self.old s }
        requires ready { Tells (D.state disk.old) → NodeReady self.old.node (D.state disk.old) }
        ensures answer { IfOk result (λ arrival. (s : State) → DeskKeeps self.old s → (arrival ≡ datagram_answer s moment input.now peer.now bytes.now)
            × DeskKeeps self.new (state_after s (datagram_events s moment input.now peer.now bytes.now))) }
        ensures ready { Tells (D.state disk.old) → OnOk result (NodeReady self.new.node (D.state disk.new)) }
        ensures stands { Tells (D.state disk.old) → NodeOn self.old.node (D.state disk.old) → OnOk result (NodeOn self.new.node (D.state disk.new)) }
        ensures kind { IfErr result IsNodeStatus }
        ensures cause { HasCause Status.DiskFault (D.faults disk.old) (D.faults disk.new) result }
        ensures tells { (D.state disk.new).tells ≡ (D.state disk.old).tells }
        // A crash at any moment leaves the state after some of the first of these events.
        ensures any_moment { Tells (D.state disk.old) → NodeOn self.old.node (D.state disk.old) → (s : State) → DeskKeeps self.old s
            → LeavesOnly (D.state disk.old) (D.state disk.new) (LeftBy s (datagram_events s moment input.now peer.now bytes.now) (D.state disk.old)) }
    {
        let arrival = self.node.datagram(disk, moment, input, peer, bytes)?;
        Ok(arrival)
    }

    /// Hands a payload to the node.
    pub fn payload<D: Disk>(
        &mut self,
        disk: &mut D,
        moment: u64,
        input: &str,
        peer: &str,
        bytes: &[u8],
    ) -> Result<Arrival, Status>
        requires moment { moment ≤ 253402300799999 }
        requires some_peer { 0 < length peer.now }
        requires short_peer { length peer.now ≤ 255 }
        requires keeps { (s : State) × DeskKeeps self.old s }
        requires ready { Tells (D.state disk.old) → NodeReady self.old.node (D.state disk.old) }
        ensures answer { IfOk result (λ arrival. (s : State) → DeskKeeps self.old s → (arrival ≡ arrival_of s moment input.now peer.now bytes.now)
            × DeskKeeps self.new (state_after s (arrival_events s moment input.now peer.now bytes.now))) }
        ensures ready { Tells (D.state disk.old) → OnOk result (NodeReady self.new.node (D.state disk.new)) }
        ensures stands { Tells (D.state disk.old) → NodeOn self.old.node (D.state disk.old) → OnOk result (NodeOn self.new.node (D.state disk.new)) }
        ensures kind { IfErr result IsNodeStatus }
        ensures cause { HasCause Status.DiskFault (D.faults disk.old) (D.faults disk.new) result }
        ensures tells { (D.state disk.new).tells ≡ (D.state disk.old).tells }
        // A crash at any moment leaves the state after some of the first of these events.
        ensures any_moment { Tells (D.state disk.old) → NodeOn self.old.node (D.state disk.old) → (s : State) → DeskKeeps self.old s
            → LeavesOnly (D.state disk.old) (D.state disk.new) (LeftBy s (arrival_events s moment input.now peer.now bytes.now) (D.state disk.old)) }
    {
        let arrival = self.node.payload(disk, moment, input, peer, bytes)?;
        Ok(arrival)
    }

    /// Claims a range for a worker, keeps it for the worker's finish, and gives the line that answers.
    pub fn claim(&mut self, alloc: Global, worker: u32, limit: u32) -> Result<String, Status>
        requires worker { worker < 64 }
        requires least { 1 ≤ limit }
        requires most { limit ≤ 256 }
        requires keeps { (s : State) × DeskKeeps self.old s }
        ensures answer { IfOk result (λ text. (s : State) → DeskKeeps self.old s → (string_bytes text ≡ words_text (claim_words worker (claim_answer s worker limit)))
            × DeskKeeps self.new (state_after s (claimed_by worker (claim_answer s worker limit)))) }
        ensures same_store { store_of self.new.node ≡ store_of self.old.node }
        ensures kind { IfErr result (λ status. status ≡ Status.OutOfMemory) }
    {
        self.given.reserve(1)?;
        let claimed = self.node.claim(worker, limit)?;
        let text = claim_text(alloc, worker, &claimed)?;
        self.keep(worker, claimed);
        Ok(text)
    }

    /// Keeps the range that a claim gave, in the room that was made for it.
    fn keep(&mut self, worker: u32, claimed: Claimed)
        requires room { length self.old.given.items + 1 ≤ vec_capacity self.old.given }
        ensures given { self.new.given.items ≡ self.old.given.items ++ given_by worker claimed }
        ensures same { self.new.node ≡ self.old.node }
    {
        if let Claimed::Range(range) = claimed {
            match self.given.push(Given { worker, range }) {
                Ok(()) => {}
                Err(_) => unreachable!(),
            }
        }
    }

    /// Does the work of the range that a worker was given, and hands it to the node.
    pub fn finish<D: Disk>(
        &mut self,
        alloc: Global,
        disk: &mut D,
        worker: u32,
    ) -> Result<Finished, Status>
        requires worker { worker < 64 }
        requires keeps { (s : State) × DeskKeeps self.old s }
        requires ready { Tells (D.state disk.old) → NodeReady self.old.node (D.state disk.old) }
        ensures answer { IfOk result (λ finished. (s : State) → DeskKeeps self.old s → (finished ≡ finished_of (finish_answer s worker))
            × DeskKeeps self.new (state_after s (finish_events s worker))) }
        ensures ready { Tells (D.state disk.old) → OnOk result (NodeReady self.new.node (D.state disk.new)) }
        ensures stands { Tells (D.state disk.old) → NodeOn self.old.node (D.state disk.old) → OnOk result (NodeOn self.new.node (D.state disk.new)) }
        ensures kind { IfErr result IsNodeStatus }
        ensures cause { HasCause Status.DiskFault (D.faults disk.old) (D.faults disk.new) result }
        ensures tells { (D.state disk.new).tells ≡ (D.state disk.old).tells }
        // A crash at any moment leaves the state after some of the first of these events.
        ensures any_moment { Tells (D.state disk.old) → NodeOn self.old.node (D.state disk.old) → (s : State) → DeskKeeps self.old s
            → LeavesOnly (D.state disk.old) (D.state disk.new) (LeftBy s (finish_events s worker) (D.state disk.old)) }
    {
        law_images_show_the_state(&self.node, disk);
        let Some(place) = self.place_of(worker) else {
            return Ok(Finished::NoClaim);
        };
        let given = self.given.remove(place);
        let work = match stage_range(alloc, given.range) {
            Ok(work) => work,
            Err(_) => return Err(Status::OutOfMemory),
        };
        let finished = self.node.finish(disk, worker, work)?;
        Ok(finished)
    }
}
