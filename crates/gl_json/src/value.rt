// Values, and what stands between brackets.
ghost use Rattle.std.specs.Prelude.{◌≡◌};
ghost use Rattle.gl_json.specs.JsonReading.{Gives, rest_of, parted_at, elements_at, item_at, member_at, objects_at, arrays_at, value_at, text_at};
ghost use Rattle.gl_json.specs.Views.{value_view, pair_view};

use crate::bytes::{self, Stop};
use crate::{chars, number};
use gl_base::bytes::{behind_first, next_is};

/// A value as it stands in the text.
#[derive(Clone, Copy, Debug)]
pub enum Raw<'a> {
    /// What stands between the quotes.
    Text(&'a [u8]),
    /// The literal.
    Number(&'a [u8]),
    True,
    False,
    Null,
    /// With its braces.
    Object(&'a [u8]),
    /// With its brackets.
    Array(&'a [u8]),
}

/// A member of an object.
#[derive(Clone, Copy, Debug)]
pub struct Member<'a> {
    /// What stands between the quotes.
    pub name: &'a [u8],
    pub value: Raw<'a>,
}

/// Whether a comma stands here, and else the closing sign.
#[tactic(auto, unfolding(crate::specs::JsonReading::parted_at))]
pub fn parted_at(bytes: &[u8], closing: u8) -> Result<(bool, &[u8]), Stop>
    ensures { Gives (λ x. (x.0, x.1.now)) result (parted_at closing bytes.now) }
{
    match bytes {
        [] => Err(Stop::At { left: 0 }),
        [byte, rest @ ..] => {
            if *byte == b',' {
                return Ok((true, rest));
            }
            if *byte == closing {
                return Ok((false, rest));
            }
            Err(Stop::At { left: bytes.len() })
        }
    }
}

#[tactic(auto, unfolding(crate::specs::JsonReading::text_at))]
fn text_at(bytes: &[u8]) -> Result<(Raw<'_>, &[u8]), Stop>
    ensures { Gives (λ x. (value_view x.0, x.1.now)) result (text_at bytes.now) }
{
    let (text, rest) = chars::string_at(bytes)?;
    Ok((Raw::Text(text), rest))
}

/// A value in which objects and arrays may nest so deep.
#[cycle(reader)]
#[tactic(auto, unfolding(crate::specs::JsonReading::value_of))]
pub fn value_at(bytes: &[u8], levels: u32) -> Result<(Raw<'_>, &[u8]), Stop>
    ensures { Gives (λ x. (value_view x.0, x.1.now)) result (value_at levels bytes.now) }
{
    match bytes {
        [] => Err(Stop::At { left: 0 }),
        [b'"', rest @ ..] => text_at(rest),
        [b'{', rest @ ..] => {
            let rest = object_at(rest, levels)?;
            Ok((Raw::Object(bytes::before(rest, bytes)), rest))
        }
        [b'[', rest @ ..] => {
            let rest = array_at(rest, levels)?;
            Ok((Raw::Array(bytes::before(rest, bytes)), rest))
        }
        [b't', rest @ ..] => Ok((Raw::True, bytes::word_at(b"rue", rest)?)),
        [b'f', rest @ ..] => Ok((Raw::False, bytes::word_at(b"alse", rest)?)),
        [b'n', rest @ ..] => Ok((Raw::Null, bytes::word_at(b"ull", rest)?)),
        _ => {
            let rest = number::number_at(bytes)?;
            Ok((Raw::Number(bytes::before(rest, bytes)), rest))
        }
    }
}

/// What stands behind an object, behind its opening brace.
#[cycle(reader)]
fn object_at(bytes: &[u8], levels: u32) -> Result<&[u8], Stop>
    ensures { Gives (λ x. x.now) result (objects_at levels bytes.now) }
{
    if levels == 0 {
        return Err(Stop::Deep);
    }
    members_end(bytes, levels - 1)
}

/// What stands behind an array, behind its opening bracket.
#[cycle(reader)]
fn array_at(bytes: &[u8], levels: u32) -> Result<&[u8], Stop>
    ensures { Gives (λ x. x.now) result (arrays_at levels bytes.now) }
{
    if levels == 0 {
        return Err(Stop::Deep);
    }
    items_end(bytes, levels - 1)
}

#[cycle(reader)]
fn members_end(bytes: &[u8], levels: u32) -> Result<&[u8], Stop>
    ensures { Gives (λ x. x.now) result (rest_of (elements_at (member_at (value_at levels)) 125 bytes.now)) }
{
    let mut rest = bytes::trimmed(bytes);
    if next_is(rest, b'}') {
        return Ok(behind_first(rest));
    }
    loop {
        let (_, behind) = member_at(rest, levels)?;
        let (more, behind) = parted_at(behind, b'}')?;
        if !more {
            return Ok(behind);
        }
        rest = bytes::trimmed(behind);
    }
}

#[cycle(reader)]
fn items_end(bytes: &[u8], levels: u32) -> Result<&[u8], Stop>
    ensures { Gives (λ x. x.now) result (rest_of (elements_at (item_at (value_at levels)) 93 bytes.now)) }
{
    let mut rest = bytes::trimmed(bytes);
    if next_is(rest, b']') {
        return Ok(behind_first(rest));
    }
    loop {
        let (_, behind) = item_at(rest, levels)?;
        let (more, behind) = parted_at(behind, b']')?;
        if !more {
            return Ok(behind);
        }
        rest = bytes::trimmed(behind);
    }
}

/// A member, and what stands behind it and the white space that follows.
#[cycle(reader)]
#[tactic(auto, unfolding(crate::specs::JsonReading::member_at))]
pub fn member_at(bytes: &[u8], levels: u32) -> Result<(Member<'_>, &[u8]), Stop>
    ensures { Gives (λ x. (pair_view x.0, x.1.now)) result (member_at (value_at levels) bytes.now) }
{
    let (_, rest) = bytes::sign_at(bytes, b'"')?;
    let (name, rest) = chars::string_at(rest)?;
    let (_, rest) = bytes::sign_at(bytes::trimmed(rest), b':')?;
    let (value, rest) = value_at(bytes::trimmed(rest), levels)?;
    Ok((Member { name, value }, bytes::trimmed(rest)))
}

#[cycle(reader)]
#[tactic(auto, unfolding(crate::specs::JsonReading::item_at))]
fn item_at(bytes: &[u8], levels: u32) -> Result<(Raw<'_>, &[u8]), Stop>
    ensures { Gives (λ x. (value_view x.0, x.1.now)) result (item_at (value_at levels) bytes.now) }
{
    let (value, rest) = value_at(bytes, levels)?;
    Ok((value, bytes::trimmed(rest)))
}
