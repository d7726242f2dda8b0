// What actions ask for.
ghost use Rattle.std.specs.Prelude.{◌≡◌, Some, None, IfOk, MatchOption};
ghost use Rattle.gl_functions.specs.Contents.{to_hold};
ghost use Rattle.gl_functions.specs.Worlds.{known_of, stream_named};
ghost use Rattle.gl_functions.specs.Calls.{value_at, text_at, truth_at};
ghost use Rattle.gl_eval.specs.declared.staged.Staged.{Staged};
ghost use Rattle.gl_eval.specs.Actions.{put, given_name, routed, removed, done_with};
ghost use Rattle.gl_eval.specs.Changes.{changed};

use crate::arguments::value_at;
use crate::change::Change;
use gl_base::Text;
use gl_check::Function;
use gl_functions::{Value, World, one_misses, text_at, truth_at};
use std::alloc::{AllocError, Global};

/// What a field is to hold of an argument; nothing where the argument is missing.
fn held_at(
    alloc: Global,
    values: &[Value<'_>],
    at: usize,
) -> Result<Option<gl_fields::Value>, AllocError>
    ensures { IfOk result (λ held. held ≡ to_hold (value_at at values.now)) }
{
    match value_at(values, at) {
        Some(value) => value.to_hold(alloc),
        None => Ok(None),
    }
}

fn setting(alloc: Global, values: &[Value<'_>]) -> Result<Change, AllocError>
    ensures { IfOk result (λ c. (m : Staged) → changed c m ≡ record m { fields = put (text_at 0 values.now) (to_hold (value_at 1 values.now)) m.fields }) }
{
    let name = Text::from_str(alloc, text_at(values, 0))?;
    match held_at(alloc, values, 1)? {
        Some(value) => Ok(Change::Set(name, value)),
        None => Ok(Change::Nothing),
    }
}

fn renaming(alloc: Global, values: &[Value<'_>]) -> Result<Change, AllocError>
    ensures { IfOk result (λ c. (m : Staged) → changed c m ≡ record m { fields = given_name (text_at 0 values.now) (text_at 1 values.now) m.fields }) }
{
    let from = Text::from_str(alloc, text_at(values, 0))?;
    let to = Text::from_str(alloc, text_at(values, 1))?;
    Ok(Change::Rename(from, to))
}

fn routing(world: &World<'_>, values: &[Value<'_>]) -> Change
    ensures { (m : Staged) → changed result m ≡ record m { streams = routed (stream_named (known_of world.now) (text_at 0 values.now) (text_at 1 values.now)) (truth_at 2 values.now) m.streams } }
{
    match world.stream_named(text_at(values, 0), text_at(values, 1)) {
        Some(stream) => {
            if stream.paused {
                return Change::Nothing;
            }
            Change::Route(stream.id, truth_at(values, 2))
        }
        None => Change::Nothing,
    }
}

fn leaving(world: &World<'_>, values: &[Value<'_>]) -> Change
    ensures { (m : Staged) → changed result m ≡ record m { streams = removed (stream_named (known_of world.now) (text_at 0 values.now) (text_at 1 values.now)) m.streams } }
{
    match world.stream_named(text_at(values, 0), text_at(values, 1)) {
        Some(stream) => Change::Leave(stream.id),
        None => Change::Nothing,
    }
}

/// What an action asks for with these values of its parameters; nothing where one is missing, or where a function stands for it.
pub fn asked(
    alloc: Global,
    world: &World<'_>,
    function: Function,
    values: &[Value<'_>],
) -> Result<Change, AllocError>
    ensures { IfOk result (λ c. (m : Staged) → changed c m ≡ done_with (known_of world.now) function values.now m) }
{
    if one_misses(function.parameters(), values) {
        return Ok(Change::Nothing);
    }
    match function {
        Function::SetField => setting(alloc, values),
        Function::RemoveField => Ok(Change::Remove(Text::from_str(alloc, text_at(values, 0))?)),
        Function::RenameField => renaming(alloc, values),
        Function::RouteToStream => Ok(routing(world, values)),
        Function::RemoveFromStream => Ok(leaving(world, values)),
        Function::DropMessage => Ok(Change::Discard),
        _ => Ok(Change::Nothing),
    }
}
