// A log is opened: read to its end, and taken up there or begun.
ghost use Rattle.std.specs.Prelude.{◌≡◌, ◌≢◌, ◌⊎◌, ℕ, ◌+◌, ◌^◌, ◌<◌, ◌≤◌, List, [], ◌∷◌, true, length, IfOk, IfErr, OnOk, OnErr, IsErrOf, MatchResult};
ghost use Rattle.gl_base.specs.Counts.{HasCause};
ghost use Rattle.gl_outside.specs.Disk.{Image, After, DiskState, Tells, IsUnchanged, LeavesOnly};
ghost use Rattle.gl_gatelog.specs.declared.kind.LogFault.TheVariants.{DiskFault, OutOfMemory};
ghost use Rattle.gl_gatelog.specs.Gate.{AllWait};
ghost use Rattle.gl_gatelog.specs.Log.{area_of};
ghost use Rattle.gl_gatelog.specs.Stand.{IsSameBut, StandsOn, IsReady, IsEmptyBehind, LeftByOpening};
ghost use Rattle.gl_gatelog.specs.View.{begun};
ghost use Rattle.gl_gatelog.specs.Batch.{Batch};
ghost use Rattle.gl_gatelog.specs.Reading.{Reading, Fresh, Whole, Broken, ReadsAs, IsReopened, IsAloneBehind, batches_in, LeftByReading, IsOpenFault, IsReadFault, FaultReads};
ghost use Rattle.gl_gatelog.specs.Progress.{HasRead, HasEnded, IsOfOne};

use crate::batch::encode_begin;
use crate::gate::write_batch;
use crate::log::{BEGIN_SIZE, area_number, next_place};
use crate::{GateLog, Log, LogFault, Opening};
use gl_outside::Disk;
use std::alloc::Global;

/// Writes the begin batch of a log that has none, where its first area waits for one.
pub fn write_begin<D: Disk>(
    alloc: Global,
    disk: &mut D,
    log: Log,
    segment: u64,
    limit: u64,
    gated: bool,
) -> Result<GateLog, LogFault>
    requires least { 4096 ≤ segment }
    requires most { segment ≤ 2 ^ 30 }
    requires waits { Tells (D.state disk.old) → AllWait gated (area_of log 0) 0 (D.state disk.old) }
    ensures value { IfOk result (λ v. v ≡ begun log segment limit) }
    ensures cause { IfErr result IsOpenFault }
    ensures stands { Tells (D.state disk.old) → IsEmptyBehind log (D.state disk.old) → IfOk result (λ v. StandsOn v [] (D.state disk.new)) }
    ensures any_moment { Tells (D.state disk.old) → IsEmptyBehind log (D.state disk.old) → LeavesOnly (D.state disk.old) (D.state disk.new) (LeftByOpening log segment (D.state disk.old)) }
    ensures ready { Tells (D.state disk.old) → IfOk result (λ v. IsReady v (D.state disk.new)) }
    ensures elsewhere { Tells (D.state disk.old) → (b : ℕ) → b ≢ area_of log 0 → (D.state disk.new).reads b ≡ (D.state disk.old).reads b }
    // A crash leaves each other area as it might have left it before.
    ensures apart { Tells (D.state disk.old) → (c : Image) → (D.state disk.new).may_leave c → After (D.state disk.old) (IsSameBut (area_of log 0)) c }
    ensures faults { HasCause LogFault.DiskFault (D.faults disk.old) (D.faults disk.new) result }
    ensures tells { (D.state disk.new).tells ≡ (D.state disk.old).tells }
{
    let batch = encode_begin(alloc, log, segment)?;
    let area = area_number(log, 0);
    write_batch(disk, area, 0, gated, &batch)?;
    let (first, byte, gated) = next_place(log, segment, 0, 0, BEGIN_SIZE);
    Ok(GateLog {
        alloc,
        log,
        segment_size: segment,
        limit,
        segment: first,
        byte,
        gated,
        places: Vec::new(alloc),
        bytes: BEGIN_SIZE,
        stopped: false,
    })
}

// Reads a log to its end.
fn read_to_end<D: Disk>(opening: &mut Opening, disk: &mut D) -> Result<(), LogFault>
    ensures same { IsOfOne opening.old opening.new }
    ensures read { Tells (D.state disk.old) → (b : List Batch) → HasRead opening.old b (D.state disk.old) → OnOk result ((more : List Batch) × HasRead opening.new more (D.state disk.new) × HasEnded opening.new (D.state disk.new)) }
    ensures cause { Tells (D.state disk.old) → (b : List Batch) → HasRead opening.old b (D.state disk.old) → IfErr result (FaultReads opening.old.log.log (D.state disk.old).reads) }
    ensures kind { IfErr result IsReadFault }
    ensures unchanged { Tells (D.state disk.old) → IsUnchanged (D.state disk.old) (D.state disk.new) }
    ensures only_read { Tells (D.state disk.old) → LeavesOnly (D.state disk.old) (D.state disk.new) ((D.state disk.old).may_leave) }
    ensures faults { HasCause LogFault.DiskFault (D.faults disk.old) (D.faults disk.new) result }
    ensures tells { (D.state disk.new).tells ≡ (D.state disk.old).tells }
{
    loop {
        match opening.next(disk)? {
            Some(_) => {}
            None => return Ok(()),
        }
    }
}

impl GateLog {
    /// Opens a log: reads it to its end, and writes the begin batch of one that has no batch.
    ///
    /// `segment` and `limit` are in bytes. Where the log has a begin batch, the segment size that it records holds,
    /// and `segment` isn't used. `Damaged` comes exactly where an opened batch isn't lawful, with its area and the byte of its gate;
    /// such a log is left as it is. Beside it opening refuses for want of memory and for a fault of the disk alone.
    pub fn open<D: Disk>(
        alloc: Global,
        disk: &mut D,
        log: Log,
        segment: u64,
        limit: u64,
    ) -> Result<GateLog, LogFault>
        requires least { 4096 ≤ segment }
        requires most { segment ≤ 2 ^ 30 }
        requires limit { 4096 ≤ limit }
        ensures cause { IfErr result IsReadFault }
        ensures fresh { Tells (D.state disk.old) → ReadsAs log (D.state disk.old).reads Fresh → MatchResult result (λ v. v ≡ begun log segment limit) IsOpenFault }
        ensures whole { Tells (D.state disk.old) → (s : ℕ) (b : List Batch) → ReadsAs log (D.state disk.old).reads (Whole s b) → MatchResult result (IsReopened log s limit b (D.state disk.old).reads) IsOpenFault }
        ensures broken { Tells (D.state disk.old) → (k at : ℕ) → ReadsAs log (D.state disk.old).reads (Broken k at) → MatchResult result (λ _. ⊥) (λ e. IsOpenFault e ⊎ (e ≡ LogFault.Damaged (area_of log k) at)) }
        // Where the areas behind its last one are empty, it stands on the disk.
        ensures stands { Tells (D.state disk.old) → (r : Reading) → ReadsAs log (D.state disk.old).reads r → IsAloneBehind log r (D.state disk.old) → IfOk result (λ v. StandsOn v (batches_in r) (D.state disk.new)) }
        // A log that has a batch, whole or broken, is only read.
        ensures only_read { Tells (D.state disk.old) → (r : Reading) → ReadsAs log (D.state disk.old).reads r → (r ≡ Fresh → ⊥)
            → LeavesOnly (D.state disk.old) (D.state disk.new) ((D.state disk.old).may_leave) × IsUnchanged (D.state disk.old) (D.state disk.new) }
        // A crash at any moment leaves what it might leave before, or a begun log.
        ensures any_moment { Tells (D.state disk.old) → (r : Reading) → ReadsAs log (D.state disk.old).reads r → IsAloneBehind log r (D.state disk.old)
            → LeavesOnly (D.state disk.old) (D.state disk.new) (LeftByReading log segment (D.state disk.old) r) }
        ensures ready { Tells (D.state disk.old) → IfOk result (λ v. IsReady v (D.state disk.new)) }
        // No area but the log's first is written.
        ensures elsewhere { Tells (D.state disk.old) → (b : ℕ) → b ≢ area_of log 0 → (D.state disk.new).reads b ≡ (D.state disk.old).reads b }
        ensures faults { HasCause LogFault.DiskFault (D.faults disk.old) (D.faults disk.new) result }
        ensures tells { (D.state disk.new).tells ≡ (D.state disk.old).tells }
    {
        let mut opening = Opening::begin(alloc, disk, log, segment, limit)?;
        read_to_end(&mut opening, disk)?;
        let opened = opening.finish(disk)?;
        Ok(opened)
    }
}
