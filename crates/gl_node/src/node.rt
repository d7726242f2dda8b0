// The node: two logs on a disk, and what is kept of them in memory.
ghost use Rattle.std.specs.Prelude.{◌≡◌, ◌⊎◌, ◌<◌, ℕ, List, [], length, None, IfOk, OnOk, IsErrOf, MatchResult, slice_get};
ghost use Rattle.std.specs.Option.{option_copied};
ghost use Rattle.gl_base.specs.Counts.{HasCause};
ghost use Rattle.gl_outside.specs.Disk.{Image, IsUnchanged, Tells, LeavesOnly};
ghost use Rattle.gl_gatelog.specs.declared.kind.Log.{Log};
ghost use Rattle.gl_fields.specs.declared.entry.Entry.{Entry};
ghost use Rattle.gl_fields.specs.declared.entry.Outcome.{Outcome};
ghost use Rattle.gl_fields.specs.Entries.{version_after};
ghost use Rattle.gl_node.specs.Moments.{LeftSince};
ghost use Rattle.gl_node.specs.Node.{AreTables, IsRunning, Keeps, NodeOn, NodeReady};
ghost use Rattle.gl_node.specs.Damage.{IsDamaged};
ghost use Rattle.gl_node.specs.Standing.{AreOptions, HasLimits, IsStore, Shows, StandsFor, base_of};
ghost use Rattle.gl_node.specs.State.{Base, State, commit_count, opened, outcomes};

use crate::config::{Config, Input};
use crate::fault::OpenFault;
use crate::mark::Claim;
use crate::reading::{read_index, read_journal};
use crate::resuming::take_up;
use crate::work::Work;
use gl_fields::{Entry, Outcome};
use gl_gatelog::{GateLog, Log};
use gl_gelf::Chunks;
use gl_outside::Disk;
use std::alloc::{AllocError, Global};

/// The sizes of a store.
#[derive(Clone, Copy, Debug, PartialEq, Eq)]
pub struct Options {
    /// At which size of an area a log goes on in the next one, in bytes: 4,096 to 2^30. A log that
    /// has a batch keeps the size that it recorded.
    pub segment: u64,
    /// How many bytes of batches the journal takes: 4,096 to 2^40.
    pub journal_limit: u64,
    /// How many bytes of batches the index log takes: 4,096 to 2^42.
    pub index_limit: u64,
}

/// A journal, its outcomes as far as they are committed, and the claims between the two.
#[derive(Drop)]
pub struct Node {
    pub(crate) alloc: Global,
    pub(crate) journal: GateLog,
    pub(crate) index: GateLog,
    pub(crate) config: Config,
    /// A chunk table for each input of the configuration, in their order.
    pub(crate) tables: Vec<Chunks>,
    pub(crate) entries: Vec<Entry>,
    pub(crate) outcomes: Vec<Outcome>,
    pub(crate) held: Vec<Claim>,
    pub(crate) waiting: Vec<Work>,
    /// The least position that was never claimed.
    pub(crate) next: u64,
    /// The disk's count at the fault that stopped the node.
    pub(crate) stopped: Option<u64>,
}

impl Node {
    /// Opens a store: reads the journal and then the index log, each to its end, and takes both up there; a log
    /// that has no batch is begun. Nothing is written before both were read.
    ///
    /// `Damaged` comes exactly where a batch of a log is unlawful, with the place of the first such batch, the journal
    /// looked at first; such a store is left as it is. Beside it opening refuses for a fault of the disk and for want of memory
    /// alone, and after an error nothing is lost that the disk held.
    pub fn open<D: Disk>(alloc: Global, disk: &mut D, options: Options) -> Result<Node, OpenFault>
        requires { AreOptions options }
        // Whatever the disk tells, the node keeps what stood at some opening with the limits that were asked for, and nothing more.
        ensures kept { IfOk result (λ node. IsRunning node × ((base : Base) × HasLimits options base × Keeps node (opened base))) }
        // It is what the disk shows.
        ensures opened { Tells (D.state disk.old) → (journal : List Entry) (found : List Outcome) (shown : Shows (D.state disk.old).reads journal found)
            → IfOk result (λ node. Keeps node (opened (base_of options (D.state disk.old).reads journal found shown))) }
        ensures shown { Tells (D.state disk.old) → OnOk result ((journal : List Entry) × (found : List Outcome) × Shows (D.state disk.old).reads journal found) }
        ensures ready { Tells (D.state disk.old) → IfOk result (λ node. NodeReady node (D.state disk.new)) }
        // Where nothing stands behind the ends of its logs, the node stands on the disk.
        ensures stands { Tells (D.state disk.old) → (journal : List Entry) (found : List Outcome) → IsStore (D.state disk.old) journal found → IfOk result (λ node. NodeOn node (D.state disk.new)) }
        ensures damaged { Tells (D.state disk.old) → (log : Log) (area at : ℕ) → IsErrOf result (OpenFault.Damaged log area at) → IsDamaged (D.state disk.old).reads log area at }
        // A damaged store isn't opened, and is left as it is.
        ensures refused { Tells (D.state disk.old) → (log : Log) (area at : ℕ) → IsDamaged (D.state disk.old).reads log area at
            → MatchResult result (λ _. ⊥) (λ e. (e ≡ OpenFault.Damaged log area at) ⊎ (e ≡ OpenFault.DiskFault) ⊎ (e ≡ OpenFault.OutOfMemory)) }
        ensures left { Tells (D.state disk.old) → (log : Log) (area at : ℕ) → IsDamaged (D.state disk.old).reads log area at → IsUnchanged (D.state disk.old) (D.state disk.new) }
        // A crash at any moment leaves what it might leave before, or a store that shows the same.
        ensures any_moment { Tells (D.state disk.old) → (journal : List Entry) (found : List Outcome) (store : IsStore (D.state disk.old) journal found)
            → LeavesOnly (D.state disk.old) (D.state disk.new) (LeftSince (opened (base_of options (D.state disk.old).reads journal found store.shows)) [] (D.state disk.old)) }
        // However it ends: nothing is changed, or each image that a crash may leave then stands for what was shown.
        ensures at_exit { Tells (D.state disk.old) → (journal : List Entry) (found : List Outcome) (store : IsStore (D.state disk.old) journal found)
            → IsUnchanged (D.state disk.old) (D.state disk.new)
            ⊎ ((c : Image) → (D.state disk.new).may_leave c → StandsFor c (opened (base_of options (D.state disk.old).reads journal found store.shows))) }
        ensures faults { HasCause OpenFault.DiskFault (D.faults disk.old) (D.faults disk.new) result }
        ensures tells { (D.state disk.new).tells ≡ (D.state disk.old).tells }
    {
        let config = Config::initial(alloc)?;
        let tables = new_tables(alloc, config.inputs.as_slice())?;
        let (journal, entries) = read_journal(
            alloc,
            disk,
            &config,
            options.segment,
            options.journal_limit,
        )?;
        let (index, outcomes) = read_index(
            alloc,
            disk,
            entries.len(),
            options.segment,
            options.index_limit,
        )?;
        let (journal, index) = take_up(disk, journal, index)?;
        let next = outcomes.len() as u64;
        Ok(Node {
            alloc,
            journal,
            index,
            config,
            tables,
            entries,
            outcomes,
            held: Vec::new(alloc),
            waiting: Vec::new(alloc),
            next,
            stopped: None,
        })
    }

    /// The outcome of a committed position, and `None` exactly elsewhere.
    pub fn outcome(&self, position: u64) -> Option<&Outcome>
        ensures { (s : State) → Keeps self.now s → option_copied result ≡ slice_get (outcomes s) position }
    {
        self.outcomes.get(position as usize)
    }

    /// How many entries the journal has.
    pub fn journalled(&self) -> u64
        ensures { (s : State) → Keeps self.now s → result ≡ length s.journal }
    {
        self.entries.len() as u64
    }

    /// The version of the configuration: how many commands the journal has.
    pub fn version(&self) -> u64
        ensures { (s : State) → Keeps self.now s → result ≡ version_after s.journal }
    {
        self.config.version
    }

    /// How many positions are committed: all below this one.
    pub fn committed(&self) -> u64
        ensures { (s : State) → Keeps self.now s → (result ≡ commit_count s) × (result ≡ length (outcomes s)) }
    {
        self.outcomes.len() as u64
    }
}

// A chunk table for each input.
fn new_tables(alloc: Global, inputs: &[Input]) -> Result<Vec<Chunks>, AllocError>
    ensures { IfOk result (λ tables. AreTables tables.items inputs.now []) }
{
    let mut tables = Vec::with_capacity(alloc, inputs.len())?;
    for _ in inputs {
        tables.push(Chunks::new(alloc))?;
    }
    Ok(tables)
}

/// What a node keeps, each image shows that a crash may leave of a disk on which it stands.
pub fn law_images_show_the_state<D: Disk>(node: &Node, disk: &D)
    ensures { (s : State) → Keeps node.now s → NodeOn node.now (D.state disk.now) → (c : Image) → (D.state disk.now).may_leave c → StandsFor c s }
{}
