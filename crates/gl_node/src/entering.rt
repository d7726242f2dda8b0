// An entry goes into the journal.
ghost use Rattle.std.specs.Prelude.{◌≡◌, ◌+◌, ◌≤◌, [], ◌∷◌, ◌++◌, false, length, IfOk, OnErr, None, vec_capacity};
ghost use Rattle.gl_outside.specs.Disk.{Tells, LeavesOnly};
ghost use Rattle.gl_gatelog.specs.View.{batch_of};
ghost use Rattle.gl_fields.specs.Bounds.{IsEntry};
ghost use Rattle.gl_fields.specs.Entries.{entry_bytes};
ghost use Rattle.gl_node.specs.Arrivals.{added_by};
ghost use Rattle.gl_node.specs.Calls.{HasNodeCause};
ghost use Rattle.gl_node.specs.Entering.{entered};
ghost use Rattle.gl_node.specs.Moments.{LeftBy};
ghost use Rattle.gl_node.specs.Node.{IsRunning, Keeps, NodeOn, NodeReady};
ghost use Rattle.gl_node.specs.Standing.{MayFollow};
ghost use Rattle.gl_node.specs.State.{State, state_after};

use crate::answer::Arrival;
use crate::fault::NodeFault;
use crate::node::Node;
use gl_base::{Items, Text};
use gl_fields::{Entry, Message, encode_entry};
use gl_gatelog::{Log, LogFault};
use gl_outside::Disk;
use std::alloc::{AllocError, Global};

/// A payload as it came in.
pub fn message_of(
    alloc: Global,
    version: u64,
    moment: u64,
    input: &str,
    peer: &str,
    bytes: &[u8],
) -> Result<Message, AllocError>
    ensures { IfOk result (λ m. m ≡ record { input = input.now; peer = peer.now; origin = None; moment = moment; version = version; bytes = bytes.now }) }
{
    Ok(Message {
        input: Text::from_str(alloc, input)?,
        peer: Text::from_str(alloc, peer)?,
        origin: None,
        moment,
        version,
        bytes: Items::from_slice(alloc, bytes)?,
    })
}

// The one record of an entry.
fn records_of(alloc: Global, entry: &Entry) -> Result<Vec<Vec<u8>>, AllocError>
    requires { IsEntry entry.now }
    ensures { IfOk result (λ records. batch_of records.items ≡ entry_bytes entry.now ∷ []) }
{
    let mut records = Vec::with_capacity(alloc, 1)?;
    records.push(encode_entry(alloc, entry)?)?;
    Ok(records)
}

impl Node {
    /// Adds an entry that may follow the journal, unless it is full.
    pub(crate) fn enter<D: Disk>(
        &mut self,
        disk: &mut D,
        entry: Entry,
    ) -> Result<Arrival, NodeFault>
        requires follows { MayFollow self.old.entries.items entry }
        requires open { self.old.journal.stopped ≡ false }
        requires logs { (self.old.journal.log ≡ Log.Journal) × (self.old.index.log ≡ Log.Index) }
        requires ready { Tells (D.state disk.old) → NodeReady self.old (D.state disk.old) }
        ensures answer { IfOk result (λ arrival. (s : State) → Keeps self.old s → (arrival ≡ entered s entry) × Keeps self.new (state_after s (added_by (entered s entry) entry))) }
        ensures refused { OnErr result ((s : State) → Keeps self.old s → Keeps self.new s) }
        ensures ready { Tells (D.state disk.old) → IsRunning self.new → NodeReady self.new (D.state disk.new) }
        ensures stands { Tells (D.state disk.old) → IsRunning self.new → NodeOn self.old (D.state disk.old) → NodeOn self.new (D.state disk.new) }
        ensures faults { HasNodeCause self.old self.new (D.faults disk.old) (D.faults disk.new) result }
        ensures tells { (D.state disk.new).tells ≡ (D.state disk.old).tells }
        // A crash at any moment leaves the state as it was, or with the entry.
        ensures any_moment { Tells (D.state disk.old) → NodeOn self.old (D.state disk.old) → (s : State) → Keeps self.old s
            → LeavesOnly (D.state disk.old) (D.state disk.new) (LeftBy s (added_by (entered s entry) entry) (D.state disk.old)) }
    {
        let records = records_of(self.alloc, &entry)?;
        self.entries.reserve(1)?;
        self.add(disk, entry, &records)
    }

    // Adds an entry with its record, where there is room for it.
    fn add<D: Disk>(
        &mut self,
        disk: &mut D,
        entry: Entry,
        records: &[Vec<u8>],
    ) -> Result<Arrival, NodeFault>
        requires follows { MayFollow self.old.entries.items entry }
        requires room { length self.old.entries.items + 1 ≤ vec_capacity self.old.entries }
        requires record_is { batch_of records.now ≡ entry_bytes entry ∷ [] }
        requires open { self.old.journal.stopped ≡ false }
        requires logs { (self.old.journal.log ≡ Log.Journal) × (self.old.index.log ≡ Log.Index) }
        requires ready { Tells (D.state disk.old) → NodeReady self.old (D.state disk.old) }
        ensures answer { IfOk result (λ arrival. (s : State) → Keeps self.old s → (arrival ≡ entered s entry) × Keeps self.new (state_after s (added_by (entered s entry) entry))) }
        ensures refused { OnErr result ((s : State) → Keeps self.old s → Keeps self.new s) }
        ensures ready { Tells (D.state disk.old) → IsRunning self.new → NodeReady self.new (D.state disk.new) }
        ensures stands { Tells (D.state disk.old) → IsRunning self.new → NodeOn self.old (D.state disk.old) → NodeOn self.new (D.state disk.new) }
        ensures faults { HasNodeCause self.old self.new (D.faults disk.old) (D.faults disk.new) result }
        ensures tells { (D.state disk.new).tells ≡ (D.state disk.old).tells }
        // A crash at any moment leaves the state as it was, or with the entry.
        ensures any_moment { Tells (D.state disk.old) → NodeOn self.old (D.state disk.old) → (s : State) → Keeps self.old s
            → LeavesOnly (D.state disk.old) (D.state disk.new) (LeftBy s (added_by (entered s entry) entry) (D.state disk.old)) }
    {
        match self.journal.append(disk, records) {
            Ok(position) => {
                push_within(&mut self.entries, entry);
                Ok(Arrival::Journalled { position })
            }
            Err(LogFault::LogFull { bytes, limit }) => Ok(Arrival::JournalFull { bytes, limit }),
            Err(LogFault::DiskFault) => {
                let faults = disk.faults();
                self.stopped = Some(faults);
                Err(NodeFault::DiskFault { faults })
            }
            Err(LogFault::OutOfMemory) => Err(NodeFault::OutOfMemory),
            // The journal isn't stopped, and no entry is too long for a record.
            Err(LogFault::Damaged { .. } | LogFault::RecordTooLong | LogFault::Stopped) => {
                unreachable!()
            }
        }
    }
}

// Puts an entry behind the others, where there is room for it.
fn push_within(entries: &mut Vec<Entry>, entry: Entry)
    requires { length entries.old.items + 1 ≤ vec_capacity entries.old }
    ensures { entries.new.items ≡ entries.old.items ++ entry ∷ [] }
{
    match entries.push(entry) {
        Ok(()) => {}
        Err(_) => unreachable!(),
    }
}
