// What arrives: datagrams, which may be chunks of a message, and payloads.
ghost use Rattle.std.specs.Prelude.{◌≡◌, ◌⊎◌, ◌<◌, ◌≤◌, ℕ, List, length, true, Some, IfOk, OnErr, Err};
ghost use Rattle.gl_outside.specs.Disk.{Tells, LeavesOnly};
ghost use Rattle.gl_node.specs.Arrivals.{arrival_of, arrival_events, datagram_answer, datagram_events, datagram_of, is_tabled, takes_chunks};
ghost use Rattle.gl_node.specs.Arriving.{IsTaken, taken_of};
ghost use Rattle.gl_node.specs.Calls.{HasNodeCause};
ghost use Rattle.gl_node.specs.Configuration.{config_after, kind_of};
ghost use Rattle.gl_node.specs.Moments.{LeftBy};
ghost use Rattle.gl_node.specs.Node.{IsRunning, IsStoppedAt, Keeps, NodeOn, NodeReady, stopped_of, store_of};
ghost use Rattle.gl_node.specs.State.{State, Received, happened, state_after};

use crate::answer::Arrival;
use crate::entering::message_of;
use crate::fault::NodeFault;
use crate::node::Node;
use gl_base::Items;
use gl_fields::{Entry, InputKind, MAX_PAYLOAD};
use gl_gelf::Chunked;
use gl_outside::Disk;
use std::alloc::AllocError;

// What became of a datagram before its payload is looked at.
enum Taken {
    // It is a payload itself.
    Payload,
    // It was the last chunk of this message.
    Message(Items<u8>),
    // It gives no payload.
    Answered(Arrival),
}

impl Node {
    /// Journals what came as one datagram: it is an entry, and on the disk, once this answers
    /// `Journalled`. The moment is in milliseconds since 1970, at most 253,402,300,799,999; the peer
    /// has 1 to 255 bytes.
    ///
    /// A datagram of an input of kind gelf that begins with the bytes 1e 0f is a chunk (GELF by UDP): the
    /// one that makes its message whole journals the message, with its own peer and moment.
    ///
    /// The refusals come in this order: `UnknownInput`, `Empty`, those of a chunk, `FrameTooLong`,
    /// `JournalFull`. A refusal, and want of memory, leave the journal as it was. A message that was made
    /// whole counts as completed whatever its payload is answered.
    pub fn datagram<D: Disk>(
        &mut self,
        disk: &mut D,
        moment: u64,
        input: &str,
        peer: &str,
        bytes: &[u8],
    ) -> Result<Arrival, NodeFault>
        requires moment { moment ≤ 253402300799999 }
        requires some_peer { 0 < length peer.now }
        requires short_peer { length peer.now ≤ 255 }
        requires keeps { (s : State) × Keeps self.old s }
        requires ready { Tells (D.state disk.old) → IsRunning self.old → NodeReady self.old (D.state disk.old) }
        // Whatever the disk tells: by each state that the node keeps.
        ensures answer { IfOk result (λ arrival. (s : State) → Keeps self.old s → (arrival ≡ datagram_answer s moment input.now peer.now bytes.now)
            × Keeps self.new (state_after s (datagram_events s moment input.now peer.now bytes.now))) }
        // At most the datagram was put into its chunk table.
        ensures refused { OnErr result ((s : State) → Keeps self.old s → Keeps self.new s
            ⊎ ((is_tabled s input.now bytes.now ≡ true) × Keeps self.new (happened s (Received (datagram_of moment input.now bytes.now))))) }
        // Once it answers, the entry is in each image that a crash may leave.
        ensures ready { Tells (D.state disk.old) → IsRunning self.new → NodeReady self.new (D.state disk.new) }
        ensures stands { Tells (D.state disk.old) → IsRunning self.new → NodeOn self.old (D.state disk.old) → NodeOn self.new (D.state disk.new) }
        // A crash at any moment leaves the state as it was, or with the entry.
        ensures any_moment { Tells (D.state disk.old) → NodeOn self.old (D.state disk.old) → (s : State) → Keeps self.old s
            → LeavesOnly (D.state disk.old) (D.state disk.new) (LeftBy s (datagram_events s moment input.now peer.now bytes.now) (D.state disk.old)) }
        ensures stopped { (faults : ℕ) → IsStoppedAt self.old faults → (result ≡ Err (NodeFault.Stopped faults)) × (self.new ≡ self.old) × (disk.new ≡ disk.old) }
        ensures faults { HasNodeCause self.old self.new (D.faults disk.old) (D.faults disk.new) result }
        ensures tells { (D.state disk.new).tells ≡ (D.state disk.old).tells }
    {
        if let Some(faults) = self.stopped {
            return Err(NodeFault::Stopped { faults });
        }
        match self.take_chunk(moment, input, bytes)? {
            Taken::Payload => self.payload(disk, moment, input, peer, bytes),
            Taken::Message(message) => {
                self.payload(disk, moment, input, peer, message.as_slice())
            }
            Taken::Answered(arrival) => Ok(arrival),
        }
    }

    // Puts a datagram into the chunk table of its input, where that is of kind gelf and the datagram isn't empty.
    fn take_chunk(&mut self, moment: u64, input: &str, bytes: &[u8]) -> Result<Taken, AllocError>
        requires moment { moment ≤ 253402300799999 }
        requires keeps { (s : State) × Keeps self.old s }
        ensures taken { IfOk result (λ taken. (s : State) → Keeps self.old s → (peer : List ℕ) → IsTaken s self.new moment input.now peer bytes.now taken) }
        ensures refused { OnErr result ((s : State) → Keeps self.old s → Keeps self.new s) }
        ensures same { (store_of self.new ≡ store_of self.old) × (stopped_of self.new ≡ stopped_of self.old) }
    {
        if bytes.is_empty() {
            return Ok(Taken::Payload);
        }
        let Some(place) = self.config.place_of(input) else {
            return Ok(Taken::Payload);
        };
        if !takes_chunks(self.config.inputs.as_slice()[place].kind) {
            return Ok(Taken::Payload);
        }
        let chunked = self.tables[place].datagram(moment, bytes)?;
        Ok(taken_of(chunked))
    }

    /// Journals one payload, as a frame of a connection gives it: it is an entry, and on the disk, once
    /// this answers `Journalled`. The moment is in milliseconds since 1970, at most 253,402,300,799,999;
    /// the peer has 1 to 255 bytes.
    ///
    /// The refusals come in this order: `UnknownInput`, `Empty`, `FrameTooLong`, `JournalFull`. A
    /// refusal, and want of memory, change nothing.
    pub fn payload<D: Disk>(
        &mut self,
        disk: &mut D,
        moment: u64,
        input: &str,
        peer: &str,
        bytes: &[u8],
    ) -> Result<Arrival, NodeFault>
        requires moment { moment ≤ 253402300799999 }
        requires some_peer { 0 < length peer.now }
        requires short_peer { length peer.now ≤ 255 }
        requires keeps { (s : State) × Keeps self.old s }
        requires ready { Tells (D.state disk.old) → IsRunning self.old → NodeReady self.old (D.state disk.old) }
        // Whatever the disk tells: by each state that the node keeps.
        ensures answer { IfOk result (λ arrival. (s : State) → Keeps self.old s → (arrival ≡ arrival_of s moment input.now peer.now bytes.now)
            × Keeps self.new (state_after s (arrival_events s moment input.now peer.now bytes.now))) }
        ensures refused { OnErr result ((s : State) → Keeps self.old s → Keeps self.new s) }
        // Once it answers, the entry is in each image that a crash may leave.
        ensures ready { Tells (D.state disk.old) → IsRunning self.new → NodeReady self.new (D.state disk.new) }
        ensures stands { Tells (D.state disk.old) → IsRunning self.new → NodeOn self.old (D.state disk.old) → NodeOn self.new (D.state disk.new) }
        // A crash at any moment leaves the state as it was, or with the entry.
        ensures any_moment { Tells (D.state disk.old) → NodeOn self.old (D.state disk.old) → (s : State) → Keeps self.old s
            → LeavesOnly (D.state disk.old) (D.state disk.new) (LeftBy s (arrival_events s moment input.now peer.now bytes.now) (D.state disk.old)) }
        ensures stopped { (faults : ℕ) → IsStoppedAt self.old faults → (result ≡ Err (NodeFault.Stopped faults)) × (self.new ≡ self.old) × (disk.new ≡ disk.old) }
        ensures faults { HasNodeCause self.old self.new (D.faults disk.old) (D.faults disk.new) result }
        ensures tells { (D.state disk.new).tells ≡ (D.state disk.old).tells }
    {
        if let Some(faults) = self.stopped {
            return Err(NodeFault::Stopped { faults });
        }
        if !self.config.knows(input) {
            return Ok(Arrival::UnknownInput);
        }
        if bytes.is_empty() {
            return Ok(Arrival::Empty);
        }
        if bytes.len() > MAX_PAYLOAD {
            return Ok(Arrival::FrameTooLong);
        }
        let version = self.config.version;
        let message = message_of(self.alloc, version, moment, input, peer, bytes)?;
        self.enter(disk, Entry::Message(message))
    }

    /// What decodes the payloads of the input with this name; `None` where no input has it.
    pub fn input_kind(&self, input: &str) -> Option<InputKind>
        ensures { (s : State) → Keeps self.now s → result ≡ kind_of (config_after s.journal) input.now }
    {
        self.config.kind_of(input)
    }
}

// Whether the messages of an input of this kind may come in chunks.
fn takes_chunks(kind: InputKind) -> bool
    ensures { result ≡ takes_chunks (Some kind) }
{
    match kind {
        InputKind::Gelf => true,
        InputKind::Raw | InputKind::Syslog => false,
    }
}

// What a chunk table answered.
fn taken_of(chunked: Chunked) -> Taken
    ensures { result ≡ taken_of chunked }
{
    match chunked {
        Chunked::Plain => Taken::Payload,
        Chunked::Whole(message) => Taken::Message(message),
        Chunked::Held => Taken::Answered(Arrival::Held),
        Chunked::Repeat => Taken::Answered(Arrival::Repeat),
        Chunked::BadChunk => Taken::Answered(Arrival::BadChunk),
        Chunked::CountMismatch { kept, given } => {
            Taken::Answered(Arrival::CountMismatch { kept, given })
        }
        Chunked::ChunkTableFull => Taken::Answered(Arrival::ChunkTableFull),
        Chunked::TooLong => Taken::Answered(Arrival::FrameTooLong),
    }
}
