// The chunks of one message, by number.
ghost use Rattle.std.specs.Prelude.{◌≡◌, ◌≤◌, ◌<◌, ◌+◌, ◌++◌, length, replicate, slice_set, is_some, Some, None, IfOk, OnOk};
ghost use Rattle.std.specs.List.{list_all, flat_map};
ghost use Rattle.gl_chunks.specs.Chunks.{data_of, message, opened_set, with_part};

use gl_base::Items;
use std::alloc::{AllocError, Global};
use std::marker::Model;

/// The data of each number, where its chunk has come.
#[derive(Debug, Drop)]
pub struct Parts {
    slots: Vec<Option<Items<u8>>>,
}

impl Model for Parts {
    ghost use Rattle.std.specs.Prelude.{◌≤◌, List, ℕ, Option, length};
    ghost use Rattle.std.specs.Coded.{coded_list, coded_option, coded_ℕ};

    ghost Value = { List (Option (List ℕ)) };

    ghost coded = { coded_list (coded_option (coded_list coded_ℕ)) };

    ghost view = { λ p. p.slots.items };

    ghost invariant = { λ p. length p.slots.items ≤ 255 };
}

impl Parts {
    /// Places for this many chunks.
    pub fn new(alloc: Global, count: u8) -> Result<Parts, AllocError>
        ensures { IfOk result (λ parts. parts ≡ replicate count None) }
    {
        Ok(Parts {
            slots: empty_slots(alloc, count)?,
        })
    }

    pub fn as_slice(&self) -> &[Option<Items<u8>>]
        ensures { result.now ≡ self.now }
    {
        self.slots.as_slice()
    }

    /// How many chunks the message has.
    pub fn count(&self) -> u8
        ensures { result ≡ length self.now }
    {
        self.slots.len() as u8
    }

    pub fn put(&mut self, number: u8, part: Items<u8>)
        requires { number < length self.old }
        ensures { self.new ≡ slice_set self.old number (Some part) }
    {
        self.slots[number as usize] = Some(part);
    }
}

/// The chunks of one message that have come.
#[derive(Debug, Drop)]
pub struct ChunkSet {
    /// When the first one came.
    pub opened: u64,
    /// How many bytes of data they have.
    pub len: usize,
    pub parts: Parts,
}

impl ChunkSet {
    pub fn new(alloc: Global, opened: u64, count: u8) -> Result<ChunkSet, AllocError>
        ensures { IfOk result (λ set. set ≡ opened_set opened count) }
    {
        Ok(ChunkSet {
            opened,
            len: 0,
            parts: Parts::new(alloc, count)?,
        })
    }

    pub fn put(&mut self, number: u8, part: Items<u8>)
        requires number { number < length self.old.parts }
        requires len { self.old.len + length part ≤ 1048576 }
        ensures { self.new ≡ with_part self.old number part }
    {
        self.len += part.len();
        self.parts.put(number, part);
    }
}

fn empty_slots(alloc: Global, count: u8) -> Result<Vec<Option<Items<u8>>>, AllocError>
    ensures { IfOk result (λ slots. slots.items ≡ replicate count None) }
{
    let mut slots = Vec::with_capacity(alloc, count as usize)?;
    let mut i = 0;
    while i < count {
        slots.push(None)?;
        i += 1;
    }
    Ok(slots)
}

/// Whether every number has its chunk.
fn have_come(parts: &[Option<Items<u8>>]) -> bool
    ensures { result ≡ list_all is_some parts.now }
{
    let mut rest = parts;
    while let [part, behind @ ..] = rest {
        if part.is_none() {
            return false;
        }
        rest = behind;
    }
    true
}

fn push_data(out: &mut Vec<u8>, parts: &[Option<Items<u8>>]) -> Result<(), AllocError>
    ensures { OnOk result (out.new.items ≡ out.old.items ++ flat_map data_of parts.now) }
{
    let mut rest = parts;
    while let [part, behind @ ..] = rest {
        if let Some(bytes) = part {
            out.extend_from_slice(bytes.as_slice())?;
        }
        rest = behind;
    }
    Ok(())
}

/// The message, where this chunk is the last one.
#[tactic(auto, unfolding(crate::specs::Chunks::message))]
pub fn message_with(
    alloc: Global,
    parts: &[Option<Items<u8>>],
    number: u8,
    part: &[u8],
) -> Result<Option<Items<u8>>, AllocError>
    requires { number < length parts.now }
    ensures { IfOk result (λ found. found ≡ message (slice_set parts.now number (Some part.now))) }
{
    let (front, rest) = parts.split_at(number as usize);
    let (_, back) = rest.split_at(1);
    if !have_come(front) {
        return Ok(None);
    }
    if !have_come(back) {
        return Ok(None);
    }
    let mut bytes = Vec::new(alloc);
    push_data(&mut bytes, front)?;
    bytes.extend_from_slice(part)?;
    push_data(&mut bytes, back)?;
    Ok(Some(Items::from_vec(bytes)))
}
