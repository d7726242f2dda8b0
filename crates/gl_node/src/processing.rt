// What processors do with a node: they claim ranges of the journal, and bring in their work.
ghost use Rattle.std.specs.Prelude.{◌≡◌, ◌<◌, ◌≤◌, ℕ, IfOk, IfErr, OnErr};
ghost use Rattle.gl_outside.specs.Disk.{Tells, LeavesOnly};
ghost use Rattle.gl_node.specs.Calls.{claimed_of, finished_of, IsFresh, IsStale, WentOn, HasNodeCause};
ghost use Rattle.gl_node.specs.Claims.{claim_answer, claimed_by, finish_answer, finish_events, mark_of};
ghost use Rattle.gl_node.specs.Moments.{LeftBy};
ghost use Rattle.gl_node.specs.Node.{IsRunning, IsStoppedAt, Keeps, NodeOn, NodeReady, stopped_of, store_of};
ghost use Rattle.gl_node.specs.State.{State, state_after};
ghost use Rattle.gl_node.specs.declared.mark.Claim.{Claim};

use crate::answer::{Claimed, Finished};
use crate::claiming::mark_of;
use crate::fault::NodeFault;
use crate::mark::{Claim, Mark};
use crate::node::Node;
use crate::work::Work;
use gl_outside::Disk;

impl Node {
    /// Claims a range of free positions for a worker: the least free one, and those behind it that are
    /// free and of one version, at most `limit`. The worker is below 64, the limit 1 to 256.
    ///
    /// `Busy` comes exactly where the worker holds a range, else `Nothing` exactly where no position is
    /// free. An error changes nothing.
    pub fn claim(&mut self, worker: u32, limit: u32) -> Result<Claimed, NodeFault>
        requires worker { worker < 64 }
        requires least { 1 ≤ limit }
        requires most { limit ≤ 256 }
        requires keeps { (s : State) × Keeps self.old s }
        ensures answer { IfOk result (λ claimed. (s : State) → Keeps self.old s → (claimed ≡ claimed_of s (claim_answer s worker limit))
            × Keeps self.new (state_after s (claimed_by worker (claim_answer s worker limit)))) }
        ensures refused { OnErr result ((s : State) → Keeps self.old s → Keeps self.new s) }
        ensures same_store { (store_of self.new ≡ store_of self.old) × (stopped_of self.new ≡ stopped_of self.old) }
        ensures stopped { (faults : ℕ) → IsStoppedAt self.old faults → (result ≡ Err (NodeFault.Stopped faults)) × (self.new ≡ self.old) }
        ensures cause { IsRunning self.old → IfErr result (λ e. e ≡ NodeFault.OutOfMemory) }
    {
        if let Some(faults) = self.stopped {
            return Err(NodeFault::Stopped { faults });
        }
        if let Some(at) = self.place_of(worker) {
            return Ok(Claimed::Busy(self.held[at].mark));
        }
        let free = self.entries.len() as u64 - self.next;
        if free == 0 {
            return Ok(Claimed::Nothing);
        }
        let mark = Mark {
            first: self.next,
            count: free.min(u64::from(limit)),
        };
        match self.grant(Claim { worker, mark }) {
            Ok(range) => Ok(Claimed::Range(range)),
            Err(_) => Err(NodeFault::OutOfMemory),
        }
    }

    /// Takes in the work of a worker, and commits each range that is ready, in order.
    ///
    /// `NoClaim` and `Stale` change nothing. Else the work is taken in, whatever follows; want of memory
    /// and `IndexFull` leave the ranges that aren't committed yet waiting for a later call.
    pub fn finish<D: Disk>(
        &mut self,
        disk: &mut D,
        worker: u32,
        work: Work,
    ) -> Result<Finished, NodeFault>
        requires worker { worker < 64 }
        requires keeps { (s : State) × Keeps self.old s }
        requires ready { Tells (D.state disk.old) → IsRunning self.old → NodeReady self.old (D.state disk.old) }
        // The work is of the range that the worker holds, or it holds none.
        ensures answer { IfOk result (λ finished. (s : State) → Keeps self.old s → IsFresh s worker work.range → (finished ≡ finished_of (finish_answer s worker))
            × Keeps self.new (state_after s (finish_events s worker))) }
        ensures stale { IsRunning self.old → (s : State) → Keeps self.old s → (claim : Claim) → IsStale s worker work.range claim
            → (result ≡ Ok (Finished.Stale claim.mark (mark_of work.range))) × (self.new ≡ self.old) × (disk.new ≡ disk.old) }
        // The work is taken in before anything can fail.
        ensures went_on { IsRunning self.old → OnErr result ((s : State) → Keeps self.old s → IsFresh s worker work.range × WentOn s (finish_events s worker) (Keeps self.new)) }
        ensures ready { Tells (D.state disk.old) → IsRunning self.new → NodeReady self.new (D.state disk.new) }
        ensures stands { Tells (D.state disk.old) → IsRunning self.new → NodeOn self.old (D.state disk.old) → NodeOn self.new (D.state disk.new) }
        // A crash at any moment leaves the state after some of the first of these events.
        ensures any_moment { Tells (D.state disk.old) → NodeOn self.old (D.state disk.old) → (s : State) → Keeps self.old s
            → LeavesOnly (D.state disk.old) (D.state disk.new) (LeftBy s (finish_events s worker) (D.state disk.old)) }
        ensures stopped { (faults : ℕ) → IsStoppedAt self.old faults → (result ≡ Err (NodeFault.Stopped faults)) × (self.new ≡ self.old) × (disk.new ≡ disk.old) }
        ensures faults { HasNodeCause self.old self.new (D.faults disk.old) (D.faults disk.new) result }
        ensures tells { (D.state disk.new).tells ≡ (D.state disk.old).tells }
    {
        if let Some(faults) = self.stopped {
            return Err(NodeFault::Stopped { faults });
        }
        let Some(at) = self.place_of(worker) else {
            return Ok(Finished::NoClaim);
        };
        let kept = self.held[at].mark;
        if !self.gave(kept, &work.range) {
            let given = mark_of(&work.range);
            return Ok(Finished::Stale { kept, given });
        }
        self.take_in(at, work);
        if self.holds_below(kept.first) {
            return Ok(Finished::Kept(self.outcomes.len() as u64));
        }
        self.commit_ready(disk)
    }
}
