// Both logs of a store, read to their ends, are taken up.
ghost use Rattle.std.specs.Prelude.{◌≡◌, List, IfOk, IfErr};
ghost use Rattle.gl_base.specs.Counts.{HasCause};
ghost use Rattle.gl_outside.specs.Disk.{After, LeavesOnly, Tells};
ghost use Rattle.gl_gatelog.specs.declared.kind.Log.{Log};
ghost use Rattle.gl_gatelog.specs.Batch.{Batch};
ghost use Rattle.gl_gatelog.specs.Progress.{HasEnded, HasRead, IsEmptyBeyond, finished};
ghost use Rattle.gl_gatelog.specs.Stand.{IsReady, StandsOn};
ghost use Rattle.gl_node.specs.Opening.{BothStand, IsNotOpened};

use crate::fault::OpenFault;
use crate::reading::open_fault;
use gl_gatelog::{GateLog, Log, Opening};
use gl_outside::Disk;

/// Takes both logs up where they end, the journal first: a log that has no batch is begun.
pub fn take_up<D: Disk>(
    disk: &mut D,
    journal: Opening,
    index: Opening,
) -> Result<(GateLog, GateLog), OpenFault>
    requires logs { (journal.log.log ≡ Log.Journal) × (index.log.log ≡ Log.Index) }
    requires ended { Tells (D.state disk.old) → HasEnded journal (D.state disk.old) × HasEnded index (D.state disk.old) }
    ensures value { IfOk result (λ r. (r.0 ≡ finished journal) × (r.1 ≡ finished index)) }
    ensures ready { Tells (D.state disk.old) → IfOk result (λ r. IsReady r.0 (D.state disk.new) × IsReady r.1 (D.state disk.new)) }
    ensures kind { IfErr result IsNotOpened }
    ensures stands { Tells (D.state disk.old) → (a b : List Batch) → HasRead journal a (D.state disk.old) → HasRead index b (D.state disk.old)
        → IsEmptyBeyond journal.log (D.state disk.old) → IsEmptyBeyond index.log (D.state disk.old)
        → IfOk result (λ r. StandsOn r.0 a (D.state disk.new) × StandsOn r.1 b (D.state disk.new)) }
    ensures any_moment { Tells (D.state disk.old) → (a b : List Batch) → HasRead journal a (D.state disk.old) → HasRead index b (D.state disk.old)
        → IsEmptyBeyond journal.log (D.state disk.old) → IsEmptyBeyond index.log (D.state disk.old)
        → LeavesOnly (D.state disk.old) (D.state disk.new) (After (D.state disk.old) (BothStand journal index a b)) }
    ensures faults { HasCause OpenFault.DiskFault (D.faults disk.old) (D.faults disk.new) result }
    ensures tells { (D.state disk.new).tells ≡ (D.state disk.old).tells }
{
    let journal = match journal.finish(disk) {
        Ok(journal) => journal,
        Err(fault) => return Err(open_fault(Log::Journal, fault)),
    };
    match index.finish(disk) {
        Ok(index) => Ok((journal, index)),
        Err(fault) => Err(open_fault(Log::Index, fault)),
    }
}
