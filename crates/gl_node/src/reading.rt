// The logs of a store are read: each from its begin to its end, its records decoded as they come.
ghost use Rattle.std.specs.Prelude.{◌≡◌, ◌↔◌, ◌++◌, ◌+◌, ◌-◌, ◌<◌, ◌≤◌, ◌^◌, ℕ, List, length, map, true, false, IsTrue, IfOk, IsErrOf};
ghost use Rattle.std.specs.List.{All};
ghost use Rattle.gl_base.specs.Counts.{HasCause};
ghost use Rattle.gl_outside.specs.Disk.{Tells, IsUnchanged, LeavesOnly};
ghost use Rattle.gl_gatelog.specs.declared.kind.Log.{Log};
ghost use Rattle.gl_gatelog.specs.View.{batch_of};
ghost use Rattle.gl_fields.specs.declared.entry.Entry.{Entry};
ghost use Rattle.gl_fields.specs.Bounds.{IsEntry, IsOutcome};
ghost use Rattle.gl_fields.specs.Entries.{entry_bytes};
ghost use Rattle.gl_fields.specs.Outcomes.{outcome_bytes};
ghost use Rattle.gl_node.specs.Configuration.{config_after, initial_config};
ghost use Rattle.gl_node.specs.Damage.{AreEntries, AreOutcomes, UnlawfulAt};
ghost use Rattle.gl_node.specs.Opening.{HasAll, IsOf, open_fault_of};
ghost use Rattle.gl_node.specs.Standing.{IsLawful, MayFollow};

use crate::config::Config;
use crate::fault::OpenFault;
use gl_fields::{Entry, EntryRefusal, Outcome, decode_entry, decode_outcome};
use gl_gatelog::{Log, LogFault, Opening};
use gl_outside::Disk;
use std::alloc::{AllocError, Global};

// A fault of a log in the node's words. Opening gives no other than these.
pub fn open_fault(log: Log, fault: LogFault) -> OpenFault
    ensures { result ≡ open_fault_of log fault }
{
    match fault {
        LogFault::Damaged { area, at } => OpenFault::Damaged { log, area, at },
        LogFault::DiskFault => OpenFault::DiskFault,
        LogFault::LogFull { .. } | LogFault::RecordTooLong | LogFault::Stopped => {
            OpenFault::OutOfMemory
        }
        LogFault::OutOfMemory => OpenFault::OutOfMemory,
    }
}

// Whether an entry may stand behind a journal with this configuration. There are no commands yet.
fn may_follow(config: &Config, entry: &Entry) -> bool
    requires { IsEntry entry.now }
    ensures { (before : List Entry) → config.now ≡ config_after before → IsTrue result ↔ MayFollow before entry.now }
{
    match entry {
        Entry::Admin(_) => false,
        Entry::Message(message) => {
            message.version == config.version
                && config.knows(message.input.as_str())
                && message.origin.is_none()
        }
    }
}

// Puts the entries whose bytes these records are behind the others, where they are the bytes of
// entries that may stand there.
fn take_entries(
    alloc: Global,
    config: &Config,
    entries: &mut Vec<Entry>,
    records: &[Vec<u8>],
) -> Result<bool, AllocError>
    requires config { config.now ≡ initial_config }
    requires lawful { IsLawful entries.old.items }
    ensures taken { IfOk result (λ taken. IsTrue taken → (map entry_bytes entries.new.items ≡ map entry_bytes entries.old.items ++ batch_of records.now) × IsLawful entries.new.items) }
    ensures refused { IfOk result (λ taken. taken ≡ false → AreEntries (map entry_bytes entries.old.items ++ batch_of records.now) → ⊥) }
{
    for record in records {
        match decode_entry(alloc, record) {
            Ok(entry) => {
                if !may_follow(config, &entry) {
                    return Ok(false);
                }
                entries.push(entry)?;
            }
            Err(EntryRefusal::NotAnEntry { .. }) => return Ok(false),
            Err(EntryRefusal::OutOfMemory) => return Err(AllocError),
        }
    }
    Ok(true)
}

// Puts the outcomes whose bytes these records are behind the others, where they are the bytes of
// outcomes, and each has one of so many entries.
fn take_outcomes(
    alloc: Global,
    entries: usize,
    outcomes: &mut Vec<Outcome>,
    records: &[Vec<u8>],
) -> Result<bool, AllocError>
    requires bounded { All IsOutcome outcomes.old.items }
    requires few { length outcomes.old.items ≤ entries }
    ensures taken { IfOk result (λ taken. IsTrue taken → (map outcome_bytes outcomes.new.items ≡ map outcome_bytes outcomes.old.items ++ batch_of records.now)
        × All IsOutcome outcomes.new.items × (length outcomes.new.items ≤ entries)) }
    ensures refused { IfOk result (λ taken. taken ≡ false → AreOutcomes entries (map outcome_bytes outcomes.old.items ++ batch_of records.now) → ⊥) }
{
    for record in records {
        if outcomes.len() == entries {
            return Ok(false);
        }
        match decode_outcome(alloc, record) {
            Ok(outcome) => outcomes.push(outcome)?,
            Err(EntryRefusal::NotAnEntry { .. }) => return Ok(false),
            Err(EntryRefusal::OutOfMemory) => return Err(AllocError),
        }
    }
    Ok(true)
}

/// Reads the journal to its end.
pub fn read_journal<D: Disk>(
    alloc: Global,
    disk: &mut D,
    config: &Config,
    segment: u64,
    limit: u64,
) -> Result<(Opening, Vec<Entry>), OpenFault>
    requires least { 4096 ≤ segment }
    requires most { segment ≤ 2 ^ 30 }
    requires config { config.now ≡ initial_config }
    ensures value { IfOk result (λ r. IsOf Log.Journal segment limit (length r.1.items) r.0 × IsLawful r.1.items) }
    ensures read { Tells (D.state disk.old) → IfOk result (λ r. HasAll r.0 (map entry_bytes r.1.items) (D.state disk.new)) }
    ensures damaged { Tells (D.state disk.old) → (log : Log) (area at : ℕ) → IsErrOf result (OpenFault.Damaged log area at) → (log ≡ Log.Journal) × UnlawfulAt Log.Journal (D.state disk.old).reads AreEntries area at }
    ensures unchanged { Tells (D.state disk.old) → IsUnchanged (D.state disk.old) (D.state disk.new) }
    ensures only_read { Tells (D.state disk.old) → LeavesOnly (D.state disk.old) (D.state disk.new) ((D.state disk.old).may_leave) }
    ensures faults { HasCause OpenFault.DiskFault (D.faults disk.old) (D.faults disk.new) result }
    ensures tells { (D.state disk.new).tells ≡ (D.state disk.old).tells }
{
    let mut opening = match Opening::begin(alloc, disk, Log::Journal, segment, limit) {
        Ok(opening) => opening,
        Err(fault) => return Err(open_fault(Log::Journal, fault)),
    };
    let mut entries = Vec::new(alloc);
    loop {
        let (area, at) = opening.next_place();
        match opening.next(disk) {
            Err(fault) => return Err(open_fault(Log::Journal, fault)),
            Ok(None) => return Ok((opening, entries)),
            Ok(Some(records)) => {
                if !take_entries(alloc, config, &mut entries, &records)? {
                    return Err(OpenFault::Damaged {
                        log: Log::Journal,
                        area,
                        at,
                    });
                }
            }
        }
    }
}

/// Reads the index log to its end, as the outcomes of so many entries.
pub fn read_index<D: Disk>(
    alloc: Global,
    disk: &mut D,
    entries: usize,
    segment: u64,
    limit: u64,
) -> Result<(Opening, Vec<Outcome>), OpenFault>
    requires least { 4096 ≤ segment }
    requires most { segment ≤ 2 ^ 30 }
    ensures value { IfOk result (λ r. IsOf Log.Index segment limit (length r.1.items) r.0 × All IsOutcome r.1.items × (length r.1.items ≤ entries)) }
    ensures read { Tells (D.state disk.old) → IfOk result (λ r. HasAll r.0 (map outcome_bytes r.1.items) (D.state disk.new)) }
    ensures damaged { Tells (D.state disk.old) → (log : Log) (area at : ℕ) → IsErrOf result (OpenFault.Damaged log area at)
        → (log ≡ Log.Index) × UnlawfulAt Log.Index (D.state disk.old).reads (AreOutcomes entries) area at }
    ensures unchanged { Tells (D.state disk.old) → IsUnchanged (D.state disk.old) (D.state disk.new) }
    ensures only_read { Tells (D.state disk.old) → LeavesOnly (D.state disk.old) (D.state disk.new) ((D.state disk.old).may_leave) }
    ensures faults { HasCause OpenFault.DiskFault (D.faults disk.old) (D.faults disk.new) result }
    ensures tells { (D.state disk.new).tells ≡ (D.state disk.old).tells }
{
    let mut opening = match Opening::begin(alloc, disk, Log::Index, segment, limit) {
        Ok(opening) => opening,
        Err(fault) => return Err(open_fault(Log::Index, fault)),
    };
    let mut outcomes = Vec::new(alloc);
    loop {
        let (area, at) = opening.next_place();
        match opening.next(disk) {
            Err(fault) => return Err(open_fault(Log::Index, fault)),
            Ok(None) => return Ok((opening, outcomes)),
            Ok(Some(records)) => {
                if !take_outcomes(alloc, entries, &mut outcomes, &records)? {
                    return Err(OpenFault::Damaged {
                        log: Log::Index,
                        area,
                        at,
                    });
                }
            }
        }
    }
}
