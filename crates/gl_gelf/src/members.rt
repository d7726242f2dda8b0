// The members of a message under the names that they say.
ghost use Rattle.std.specs.Prelude.{◌≡◌, map, IfOk, IfSome, option_map};
ghost use Rattle.std.specs.List.{All, list_any};
ghost use Rattle.std.specs.Str.{bytes_eq};
ghost use Rattle.std.specs.String.{string_bytes};
ghost use Rattle.std.specs.Cow.{cow_str_bytes};
ghost use Rattle.gl_json.specs.Escapes.{said};
ghost use Rattle.gl_json.specs.Flattening.{IsInside, IsFormed, IsFormedPair};
ghost use Rattle.gl_json.specs.Views.{value_view, pair_view};
ghost use Rattle.gl_gelf.specs.Members.{with_said_name, value_named, are_last};
ghost use Rattle.gl_gelf.specs.Parts.{named_view};

use gl_json::{JsonRefusal, Member, Raw, as_written, unescape};
use std::alloc::{AllocError, Global};
use std::borrow::CowStr;
use std::collections::BTreeMap;

// Up to so many members each name is compared with those behind it.
const FEW_MEMBERS: usize = 32;

/// A member under the name that it says, which is borrowed where it says what is written.
#[derive(Drop)]
pub struct Named<'a> {
    pub name: CowStr<'a, Global>,
    pub value: Raw<'a>,
}

/// What a string says.
pub fn said(alloc: Global, raw: &[u8]) -> Result<String, AllocError>
    requires { IsInside raw.now }
    ensures { IfOk result (λ s. string_bytes s ≡ said raw.now) }
{
    match as_written(raw) {
        Some(text) => String::from_str(alloc, text),
        None => unescaped(alloc, raw),
    }
}

fn said_name(alloc: Global, raw: &[u8]) -> Result<CowStr<'_, Global>, AllocError>
    requires { IsInside raw.now }
    ensures { IfOk result (λ name. cow_str_bytes name ≡ said raw.now) }
{
    match as_written(raw) {
        Some(text) => Ok(CowStr::Borrowed(text)),
        None => Ok(CowStr::Owned(unescaped(alloc, raw)?)),
    }
}

fn unescaped(alloc: Global, raw: &[u8]) -> Result<String, AllocError>
    requires { IsInside raw.now }
    ensures { IfOk result (λ s. string_bytes s ≡ said raw.now) }
{
    match unescape(alloc, raw) {
        Ok(text) => Ok(text),
        Err(JsonRefusal::OutOfMemory) => Err(AllocError),
        Err(JsonRefusal::NotJson { .. }) => unreachable!(),
        Err(JsonRefusal::TooDeep) => unreachable!(),
    }
}

/// The members under the names that they say.
pub fn with_said_names<'a>(
    alloc: Global,
    members: &[Member<'a>],
) -> Result<Vec<Named<'a>>, AllocError>
    requires { All (λ m. IsFormedPair 63 (pair_view m)) members.now }
    ensures named { IfOk result (λ v. map named_view v.items ≡ map with_said_name (map pair_view members.now)) }
    ensures formed { IfOk result (λ v. All (λ n. IsFormed 63 (value_view n.value)) v.items) }
{
    let mut all = Vec::with_capacity(alloc, members.len())?;
    for member in members {
        all.push(Named {
            name: said_name(alloc, member.name)?,
            value: member.value,
        })?;
    }
    Ok(all)
}

/// What the last member of this name holds.
#[tactic(auto, unfolding(crate::specs::Members::last_value))]
pub fn value_named<'a>(members: &[Named<'a>], name: &str) -> Option<Raw<'a>>
    requires { All (λ n. IsFormed 63 (value_view n.value)) members.now }
    ensures value { option_map value_view result ≡ value_named name.now (map named_view members.now) }
    ensures formed { IfSome result (λ v. IsFormed 63 (value_view v)) }
{
    let mut found = None;
    let mut rest = members;
    while let [member, behind @ ..] = rest {
        if member.name.as_str() == name {
            found = Some(member.value);
        }
        rest = behind;
    }
    found
}

/// Of each member, whether no later one has its name.
pub fn are_last(alloc: Global, members: &[Named]) -> Result<Vec<bool>, AllocError>
    ensures { IfOk result (λ v. v.items ≡ are_last (map named_view members.now)) }
{
    if members.len() <= FEW_MEMBERS {
        few_are_last(alloc, members)
    } else {
        many_are_last(alloc, members)
    }
}

fn is_any_named(members: &[Named], name: &str) -> bool
    ensures { result ≡ list_any (λ n. bytes_eq (cow_str_bytes n.name) name.now) members.now }
{
    members.iter().any(|member| member.name.as_str() == name)
}

fn few_are_last(alloc: Global, members: &[Named]) -> Result<Vec<bool>, AllocError>
    ensures { IfOk result (λ v. v.items ≡ are_last (map named_view members.now)) }
{
    let mut last = Vec::with_capacity(alloc, members.len())?;
    let mut rest = members;
    while let [member, behind @ ..] = rest {
        last.push(!is_any_named(behind, member.name.as_str()))?;
        rest = behind;
    }
    Ok(last)
}

fn many_are_last(alloc: Global, members: &[Named]) -> Result<Vec<bool>, AllocError>
    ensures { IfOk result (λ v. v.items ≡ are_last (map named_view members.now)) }
{
    let mut seen: BTreeMap<&str, ()> = BTreeMap::new(alloc);
    let mut last = Vec::with_capacity(alloc, members.len())?;
    let mut i = members.len();
    while i > 0 {
        i -= 1;
        let name = members[i].name.as_str();
        last.push(!seen.contains_key(name))?;
        seen.insert(name, ())?;
    }
    last.reverse();
    Ok(last)
}
