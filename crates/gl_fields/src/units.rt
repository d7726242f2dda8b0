// The units of which the bytes of entries and outcomes are made.
ghost use Rattle.std.specs.Prelude.{◌≡◌, ◌-◌, ◌^◌};
ghost use Rattle.std.specs.Int.{w16, w32, w64};
ghost use Rattle.std.specs.Str.{is_utf8};
ghost use Rattle.gl_fields.specs.declared.units.Unread.TheVariants.{OutOfMemory};
ghost use Rattle.gl_fields.specs.Units.{Gives, byte_at, number_at, text_at, are_any, short_text_at, long_text_at};

use gl_base::Text;
use std::alloc::{AllocError, AllocFailed, Global};
use std::str;

/// Why a part of the bytes isn't read.
#[derive(Clone, Copy, Debug, PartialEq, Eq)]
pub enum Unread {
    /// How many bytes stand from the first unit on that isn't taken.
    At { left: usize },
    OutOfMemory,
}

impl From<AllocError> for Unread {
    ghost from_gives = { λ _ e. e ≡ OutOfMemory };

    fn from(_: AllocError) -> Self {
        Unread::OutOfMemory
    }
}

impl<T: Drop> From<AllocFailed<T>> for Unread {
    ghost from_gives = { λ _ e. e ≡ OutOfMemory };

    fn from(_: AllocFailed<T>) -> Self {
        Unread::OutOfMemory
    }
}

/// A byte in this range.
#[tactic(auto, unfolding(crate::specs::Units::byte_at))]
pub fn byte_at(bytes: &[u8], least: u8, most: u8) -> Result<(u8, &[u8]), Unread>
    ensures { Gives (λ x. (x.0, x.1.now)) result (byte_at least most bytes.now) }
{
    match bytes {
        [] => Err(Unread::At { left: 0 }),
        [byte, rest @ ..] => {
            if *byte < least || most < *byte {
                return Err(Unread::At { left: bytes.len() });
            }
            Ok((*byte, rest))
        }
    }
}

/// A number of two bytes in this range.
#[tactic(auto, unfolding(crate::specs::Units::number_at))]
pub fn u16_at(bytes: &[u8], least: u16, most: u16) -> Result<(u16, &[u8]), Unread>
    ensures { Gives (λ x. (x.0, x.1.now)) result (number_at w16 least most bytes.now) }
{
    let left = bytes.len();
    if left < 2 {
        return Err(Unread::At { left });
    }
    let (front, rest) = bytes.split_at(2);
    let number = u16::from_be_bytes([front[0], front[1]]);
    if number < least || most < number {
        return Err(Unread::At { left });
    }
    Ok((number, rest))
}

/// A number of four bytes in this range.
#[tactic(auto, unfolding(crate::specs::Units::number_at))]
pub fn u32_at(bytes: &[u8], least: u32, most: u32) -> Result<(u32, &[u8]), Unread>
    ensures { Gives (λ x. (x.0, x.1.now)) result (number_at w32 least most bytes.now) }
{
    let left = bytes.len();
    if left < 4 {
        return Err(Unread::At { left });
    }
    let (front, rest) = bytes.split_at(4);
    let number = u32::from_be_bytes([front[0], front[1], front[2], front[3]]);
    if number < least || most < number {
        return Err(Unread::At { left });
    }
    Ok((number, rest))
}

/// A number of eight bytes, at most this one.
#[tactic(auto, unfolding(crate::specs::Units::number_at))]
pub fn u64_at(bytes: &[u8], most: u64) -> Result<(u64, &[u8]), Unread>
    ensures { Gives (λ x. (x.0, x.1.now)) result (number_at w64 0 most bytes.now) }
{
    let left = bytes.len();
    if left < 8 {
        return Err(Unread::At { left });
    }
    let (front, rest) = bytes.split_at(8);
    let number = u64::from_be_bytes([
        front[0], front[1], front[2], front[3], front[4], front[5], front[6], front[7],
    ]);
    if most < number {
        return Err(Unread::At { left });
    }
    Ok((number, rest))
}

/// So many bytes.
#[tactic(auto, unfolding(crate::specs::Units::text_at))]
pub fn bytes_at(bytes: &[u8], len: usize) -> Result<(&[u8], &[u8]), Unread>
    ensures { Gives (λ x. (x.0.now, x.1.now)) result (text_at are_any len bytes.now) }
{
    if bytes.len() < len {
        return Err(Unread::At { left: bytes.len() });
    }
    Ok(bytes.split_at(len))
}

/// So many bytes of UTF-8.
#[tactic(auto, unfolding(crate::specs::Units::text_at))]
pub fn text_at(bytes: &[u8], len: usize) -> Result<(&str, &[u8]), Unread>
    ensures { Gives (λ x. (x.0.now, x.1.now)) result (text_at is_utf8 len bytes.now) }
{
    let left = bytes.len();
    if left < len {
        return Err(Unread::At { left });
    }
    let (text, rest) = bytes.split_at(len);
    match str::from_utf8(text) {
        Ok(text) => Ok((text, rest)),
        Err(_) => Err(Unread::At { left }),
    }
}

/// UTF-8 of at least one byte behind its length in one byte.
#[tactic(auto, unfolding(crate::specs::Units::short_text_at))]
pub fn short_text_at(alloc: Global, bytes: &[u8], most: u8) -> Result<(Text, &[u8]), Unread>
    ensures { Gives (λ x. (x.0, x.1.now)) result (short_text_at most bytes.now) }
{
    let (len, rest) = byte_at(bytes, 1, most)?;
    let (text, rest) = text_at(rest, len as usize)?;
    Ok((Text::from_str(alloc, text)?, rest))
}

/// Bytes behind their length in four bytes.
#[tactic(auto, unfolding(crate::specs::Units::long_text_at))]
pub fn long_bytes_at(bytes: &[u8], least: u32, most: u32) -> Result<(&[u8], &[u8]), Unread>
    ensures { Gives (λ x. (x.0.now, x.1.now)) result (long_text_at are_any least most bytes.now) }
{
    let (len, rest) = u32_at(bytes, least, most)?;
    bytes_at(rest, len as usize)
}

/// UTF-8 behind its length in four bytes.
#[tactic(auto, unfolding(crate::specs::Units::long_text_at))]
pub fn long_text_at(bytes: &[u8]) -> Result<(&str, &[u8]), Unread>
    ensures { Gives (λ x. (x.0.now, x.1.now)) result (long_text_at is_utf8 0 (2 ^ 32 - 1) bytes.now) }
{
    let (len, rest) = u32_at(bytes, 0, u32::MAX)?;
    text_at(rest, len as usize)
}
