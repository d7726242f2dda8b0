ghost use Rattle.std.specs.Prelude.{◌≡◌, ◌==◌, Some, false, OnOk, IfOk, not};
ghost use Rattle.gl_streams.specs.Ids.{with_id};
ghost use Rattle.gl_eval.specs.Actions.{put, taken_away, given_name, left, then_left};
ghost use Rattle.gl_eval.specs.Changes.{changed, is_memory};

use crate::staged::Staged;
use gl_base::{Items, Text};
use gl_fields::{FieldMap, FieldRefusal, Value as Held};
use std::alloc::{AllocError, Global};

/// The id of the default stream.
const DEFAULT_STREAM: u64 = 1;

/// What an action asks for. It borrows nothing of the message.
#[derive(Drop)]
pub enum Change {
    Set(Text, Held),
    Remove(Text),
    Rename(Text, Text),
    /// Into the stream of this id, and then out of the default stream, where that is asked.
    Route(u64, bool),
    /// Out of the stream of this id.
    Leave(u64),
    Discard,
    /// What is asked can't be done.
    Nothing,
}

/// Of what a map refuses only want of memory is an error.
fn only_memory(refusal: FieldRefusal) -> Result<(), AllocError>
    ensures { OnOk result (is_memory refusal ≡ false) }
{
    match refusal {
        FieldRefusal::OutOfMemory => Err(AllocError),
        _ => Ok(()),
    }
}

/// Sets a field, unless the map refuses it.
fn put(fields: &mut FieldMap, name: &str, value: Held) -> Result<(), AllocError>
    ensures { OnOk result (fields.new ≡ put name.now (Some value) fields.old) }
{
    match fields.set(name, value) {
        Ok(()) => Ok(()),
        Err(refusal) => only_memory(refusal),
    }
}

/// Takes a field away, unless the map refuses it.
fn take_away(fields: &mut FieldMap, name: &str)
    ensures { fields.new ≡ taken_away name.now fields.old }
{
    match fields.remove(name) {
        Ok(_) => (),
        Err(_) => (),
    }
}

/// Gives a field another name, unless the map refuses it.
fn give_name(fields: &mut FieldMap, from: &str, to: &str) -> Result<(), AllocError>
    ensures { OnOk result (fields.new ≡ given_name from.now to.now fields.old) }
{
    match fields.rename(from, to) {
        Ok(_) => Ok(()),
        Err(why) => only_memory(why),
    }
}

/// The ids with this one among them.
fn with_id(alloc: Global, ids: &[u64], id: u64) -> Result<Vec<u64>, AllocError>
    ensures { IfOk result (λ all. all.items ≡ with_id ids.now id) }
{
    let mut all: Vec<u64> = ids
        .iter()
        .copied()
        .filter(|other| *other < id)
        .collect(alloc)?;
    all.push(id)?;
    for other in ids {
        if *other > id {
            all.push(*other)?;
        }
    }
    Ok(all)
}

/// The ids without this one, or that of the default stream where none is left.
fn left(alloc: Global, ids: &[u64], id: u64) -> Result<Vec<u64>, AllocError>
    ensures { IfOk result (λ others. others.items ≡ left id ids.now) }
{
    let mut others: Vec<u64> = ids
        .iter()
        .copied()
        .filter(|other| *other != id)
        .collect(alloc)?;
    if others.is_empty() {
        others.push(DEFAULT_STREAM)?;
    }
    Ok(others)
}

/// The ids with this one among them, and then without the default stream's, where that is asked.
fn routed(alloc: Global, ids: &[u64], id: u64, away: bool) -> Result<Vec<u64>, AllocError>
    ensures { IfOk result (λ all. all.items ≡ then_left away (with_id ids.now id)) }
{
    let all = with_id(alloc, ids, id)?;
    if away {
        return left(alloc, &all, DEFAULT_STREAM);
    }
    Ok(all)
}

/// Makes a change of a message. After want of memory the message is as it was.
pub fn apply(alloc: Global, change: Change, state: &mut Staged) -> Result<(), AllocError>
    ensures { OnOk result (state.new ≡ changed change state.old) }
{
    match change {
        Change::Set(name, value) => put(&mut state.fields, name.as_str(), value),
        Change::Remove(name) => {
            take_away(&mut state.fields, name.as_str());
            Ok(())
        }
        Change::Rename(from, to) => give_name(&mut state.fields, from.as_str(), to.as_str()),
        Change::Route(id, away) => {
            let streams = routed(alloc, state.streams.as_slice(), id, away)?;
            state.streams = Items::from_vec(streams);
            Ok(())
        }
        Change::Leave(id) => {
            let streams = left(alloc, state.streams.as_slice(), id)?;
            state.streams = Items::from_vec(streams);
            Ok(())
        }
        Change::Discard => {
            state.dropped = true;
            Ok(())
        }
        Change::Nothing => Ok(()),
    }
}
