// How work comes in, and how the ranges that are ready are committed.
ghost use Rattle.std.specs.Prelude.{◌≡◌, ◌==◌, ◌+◌, ◌++◌, ◌<◌, ◌≤◌, length, map, vec_len, vec_capacity, Some, slice_get, IfOk, OnOk, OnErr};
ghost use Rattle.std.specs.List.{All, position, remove};
ghost use Rattle.gl_outside.specs.Disk.{Tells, LeavesOnly};
ghost use Rattle.gl_gatelog.specs.View.{batch_of};
ghost use Rattle.gl_fields.specs.Bounds.{IsOutcome};
ghost use Rattle.gl_fields.specs.Outcomes.{outcome_bytes};
ghost use Rattle.gl_node.specs.Calls.{finished_of, HasNodeCause};
ghost use Rattle.gl_node.specs.Claims.{commits, full_or_committed, next_ready, range_of};
ghost use Rattle.gl_node.specs.Commits.{IsStep, CommittedSome};
ghost use Rattle.gl_node.specs.Moments.{LeftBy};
ghost use Rattle.gl_node.specs.Node.{IsRunning, Keeps, NodeOn, NodeReady, stopped_of, store_of};
ghost use Rattle.gl_node.specs.State.{CameIn, State, happened, state_after};
ghost use Rattle.gl_node.specs.declared.mark.Claim.{Claim};
ghost use Rattle.gl_node.specs.declared.work.Work.{Work};

use crate::answer::Finished;
use crate::fault::NodeFault;
use crate::node::Node;
use crate::work::Work;
use gl_fields::{Outcome, encode_outcome};
use gl_gatelog::LogFault;
use gl_outside::Disk;
use std::alloc::{AllocError, Global};

// What became of the range that was next.
#[derive(Clone, Copy)]
pub(crate) enum Step {
    Committed,
    // It would pass the limit of the index log.
    Full { bytes: u64, limit: u64 },
}

impl Node {
    // Takes in the work of the claim at this index.
    pub(crate) fn take_in(&mut self, at: usize, work: Work)
        requires at { at < vec_len self.old.held }
        requires keeps { (s : State) × Keeps self.old s }
        ensures kept { (s : State) → Keeps self.old s → (claim : Claim) → slice_get self.old.held.items at ≡ Some claim
            → work.range ≡ range_of s claim.mark → Keeps self.new (happened s (CameIn claim)) }
        ensures next { self.new.next ≡ self.old.next }
        ensures same { (store_of self.new ≡ store_of self.old) × (stopped_of self.new ≡ stopped_of self.old) }
    {
        self.held.remove(at);
        self.waiting.push_reserved(work);
    }

    // The index of the work that is next to be committed.
    pub(crate) fn ready(&self) -> Option<usize>
        ensures { result ≡ position (λ work. work.range.first == vec_len self.now.outcomes) self.now.waiting.items }
    {
        let count = self.outcomes.len() as u64;
        self.waiting
            .iter()
            .position(|work| work.range.first == count)
    }

    // Commits the work at this index, which is next, where its outcomes fit into the index log.
    pub(crate) fn commit_one<D: Disk>(&mut self, disk: &mut D, at: usize) -> Result<Step, NodeFault>
        requires next { position (λ work. work.range.first == vec_len self.old.outcomes) self.old.waiting.items ≡ Some at }
        requires running { IsRunning self.old }
        requires keeps { (s : State) × Keeps self.old s }
        requires ready { Tells (D.state disk.old) → NodeReady self.old (D.state disk.old) }
        ensures step { IfOk result (λ step. (s : State) → Keeps self.old s → IsStep s self.new step) }
        ensures refused { OnErr result ((s : State) → Keeps self.old s → Keeps self.new s) }
        ensures same { IfOk result (λ _. (self.new.held ≡ self.old.held) × (self.new.next ≡ self.old.next)) }
        ensures fewer { IfOk result (λ step. step ≡ Step.Committed → vec_len self.new.waiting < vec_len self.old.waiting) }
        ensures running { OnOk result (IsRunning self.new) }
        ensures ready { Tells (D.state disk.old) → IsRunning self.new → NodeReady self.new (D.state disk.new) }
        ensures stands { Tells (D.state disk.old) → IsRunning self.new → NodeOn self.old (D.state disk.old) → NodeOn self.new (D.state disk.new) }
        ensures faults { HasNodeCause self.old self.new (D.faults disk.old) (D.faults disk.new) result }
        ensures tells { (D.state disk.new).tells ≡ (D.state disk.old).tells }
        // A crash at any moment leaves the state after some of the ready ranges, in order.
        ensures any_moment { Tells (D.state disk.old) → NodeOn self.old (D.state disk.old) → (s : State) → Keeps self.old s
            → LeavesOnly (D.state disk.old) (D.state disk.new) (LeftBy s (commits s) (D.state disk.old)) }
    {
        let Ok(records) = encode_outcomes(self.alloc, self.waiting[at].outcomes.as_slice()) else {
            return Err(NodeFault::OutOfMemory);
        };
        if self.outcomes.reserve(records.len()).is_err() {
            return Err(NodeFault::OutOfMemory);
        }
        match self.index.append(disk, &records) {
            Ok(_) => {
                settle(&mut self.outcomes, &mut self.waiting, at);
                Ok(Step::Committed)
            }
            Err(LogFault::LogFull { bytes, limit }) => Ok(Step::Full { bytes, limit }),
            Err(LogFault::DiskFault) => {
                let faults = disk.faults();
                self.stopped = Some(faults);
                Err(NodeFault::DiskFault { faults })
            }
            Err(LogFault::OutOfMemory) => Err(NodeFault::OutOfMemory),
            Err(LogFault::Damaged { .. }) => unreachable!(),
            Err(LogFault::RecordTooLong) => unreachable!(),
            Err(LogFault::Stopped) => unreachable!(),
        }
    }

    // Commits each range that is ready, one after another, as far as they fit into the index log.
    pub(crate) fn commit_ready<D: Disk>(&mut self, disk: &mut D) -> Result<Finished, NodeFault>
        requires running { IsRunning self.old }
        requires keeps { (s : State) × Keeps self.old s }
        requires ready { Tells (D.state disk.old) → NodeReady self.old (D.state disk.old) }
        ensures answer { IfOk result (λ finished. (s : State) → Keeps self.old s
            → (finished ≡ finished_of (full_or_committed (state_after s (commits s)) (next_ready (state_after s (commits s)))))
            × Keeps self.new (state_after s (commits s))) }
        ensures went_on { OnErr result ((s : State) → Keeps self.old s → CommittedSome s self.new) }
        ensures same { IfOk result (λ _. (self.new.held ≡ self.old.held) × (self.new.next ≡ self.old.next)) }
        ensures ready { Tells (D.state disk.old) → IsRunning self.new → NodeReady self.new (D.state disk.new) }
        ensures stands { Tells (D.state disk.old) → IsRunning self.new → NodeOn self.old (D.state disk.old) → NodeOn self.new (D.state disk.new) }
        ensures faults { HasNodeCause self.old self.new (D.faults disk.old) (D.faults disk.new) result }
        ensures tells { (D.state disk.new).tells ≡ (D.state disk.old).tells }
        // A crash at any moment leaves the state after some of the ready ranges, in order.
        ensures any_moment { Tells (D.state disk.old) → NodeOn self.old (D.state disk.old) → (s : State) → Keeps self.old s
            → LeavesOnly (D.state disk.old) (D.state disk.new) (LeftBy s (commits s) (D.state disk.old)) }
    {
        while let Some(at) = self.ready() {
            match self.commit_one(disk, at)? {
                Step::Committed => {}
                Step::Full { bytes, limit } => return Ok(Finished::IndexFull { bytes, limit }),
            }
        }
        Ok(Finished::Committed(self.outcomes.len() as u64))
    }
}

// Moves the outcomes of the work at this index behind the others.
fn settle(outcomes: &mut Vec<Outcome>, waiting: &mut Vec<Work>, at: usize)
    requires at { at < vec_len waiting.old }
    requires room { (work : Work) → slice_get waiting.old.items at ≡ Some work → vec_len outcomes.old + length work.outcomes ≤ vec_capacity outcomes.old }
    ensures outcomes { (work : Work) → slice_get waiting.old.items at ≡ Some work → outcomes.new.items ≡ outcomes.old.items ++ work.outcomes }
    ensures waiting { waiting.new.items ≡ remove waiting.old.items at }
    ensures capacity { vec_capacity waiting.new ≡ vec_capacity waiting.old }
{
    let work = waiting.remove(at);
    let mut more = work.outcomes.into_vec();
    match outcomes.append(&mut more) {
        Ok(()) => {}
        Err(_) => unreachable!(),
    }
}

// The bytes of each outcome.
fn encode_outcomes(alloc: Global, outcomes: &[Outcome]) -> Result<Vec<Vec<u8>>, AllocError>
    requires { All IsOutcome outcomes.now }
    ensures { IfOk result (λ records. batch_of records.items ≡ map outcome_bytes outcomes.now) }
{
    let mut records = Vec::with_capacity(alloc, outcomes.len())?;
    for outcome in outcomes {
        records.push(encode_outcome(alloc, outcome)?)?;
    }
    Ok(records)
}
