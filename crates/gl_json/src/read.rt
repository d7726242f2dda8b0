// The members of an object.
ghost use Rattle.std.specs.Prelude.{◌≡◌, ◌-◌, List, Ok, length, map, IfOk};
ghost use Rattle.std.specs.List.{All};
ghost use Rattle.gl_json.specs.Grammar.{Pair, IsObjectText};
ghost use Rattle.gl_json.specs.JsonReading.{elements_at, member_at, value_at, whole_at, ended};
ghost use Rattle.gl_json.specs.Places.{refusal_of, Answers, Halts, object_of};
ghost use Rattle.gl_json.specs.Flattening.{IsFormedPair};
ghost use Rattle.gl_json.specs.Views.{pair_view};

use crate::bytes::{self, Stop};
use crate::refusal::{Halt, JsonRefusal};
use crate::value::{self, Member};
use gl_base::bytes::{behind_first, next_is};
use std::alloc::Global;

// Room for as many members is taken at once, which is enough for most objects.
const USUAL_MEMBERS: usize = 16;

/// How deep values nest inside the outer object.
pub const LEVELS: u32 = 63;

/// The members of the object that a text is, in their order. Only the list of the members takes
/// memory. The text may have white space around the object; objects and arrays nest to 64 levels, the
/// outer object among them.
pub fn read_object(alloc: Global, text: &[u8]) -> Result<Vec<Member<'_>>, JsonRefusal>
    // What is read is an object with these members.
    ensures found { IfOk result (λ v. IsObjectText text.now (map pair_view v.items)) }
    // What each member has is of the grammar too.
    ensures formed { IfOk result (λ v. All (λ m. IsFormedPair 63 (pair_view m)) v.items) }
    // An object is read, with its members.
    ensures only { (ms : List Pair) → IsObjectText text.now ms → Answers (λ v. map pair_view v.items) result (Ok ms) }
    // Which refusal it is, and which place.
    ensures place { Answers (λ v. map pair_view v.items) result (object_of text.now) }
{
    object_of(alloc, text)
}

#[tactic(auto, unfolding(crate::specs::Places::object_of))]
fn object_of(alloc: Global, text: &[u8]) -> Result<Vec<Member<'_>>, JsonRefusal>
    ensures { Answers (λ v. map pair_view v.items) result (object_of text.now) }
{
    match whole_at(alloc, text) {
        Ok(members) => Ok(members),
        Err(Halt::At(stop)) => Err(refusal_of(text, stop)),
        Err(Halt::OutOfMemory) => Err(JsonRefusal::OutOfMemory),
    }
}

/// The refusal of a text that isn't read from there on.
pub fn refusal_of(text: &[u8], stop: Stop) -> JsonRefusal
    ensures { result ≡ refusal_of text.now stop }
{
    match stop {
        Stop::At { left } => JsonRefusal::NotJson {
            at: text.len().saturating_sub(left) as u64,
        },
        Stop::Deep => JsonRefusal::TooDeep,
    }
}

#[tactic(auto, unfolding(crate::specs::JsonReading::whole_at))]
fn whole_at(alloc: Global, text: &[u8]) -> Result<Vec<Member<'_>>, Halt>
    ensures { Halts (λ v. map pair_view v.items) result (whole_at text.now) }
{
    let (_, rest) = bytes::sign_at(bytes::trimmed(text), b'{')?;
    let (members, rest) = members_at(alloc, rest, LEVELS)?;
    let rest = bytes::trimmed(rest);
    if !rest.is_empty() {
        return Err(Halt::At(Stop::At { left: rest.len() }));
    }
    Ok(members)
}

/// The members behind an opening brace, and what stands behind the closing one.
pub fn members_at(
    alloc: Global,
    bytes: &[u8],
    levels: u32,
) -> Result<(Vec<Member<'_>>, &[u8]), Halt>
    ensures { Halts (λ x. (map pair_view x.0.items, x.1.now)) result (elements_at (member_at (value_at levels)) 125 bytes.now) }
{
    let mut rest = bytes::trimmed(bytes);
    if next_is(rest, b'}') {
        return Ok((Vec::new(alloc), behind_first(rest)));
    }
    let mut members = Vec::with_capacity(alloc, USUAL_MEMBERS)?;
    loop {
        let (member, behind) = value::member_at(rest, levels)?;
        members.push(member)?;
        let (more, behind) = value::parted_at(behind, b'}')?;
        if !more {
            return Ok((members, behind));
        }
        rest = bytes::trimmed(behind);
    }
}
