// What a crash makes of the areas of a disk in memory, call by call.
ghost use Rattle.std.specs.Prelude.{◌≡◌, ◌≤◌, ℕ, List, [], ◌∷◌, ◌++◌, length, take, drop, IfOk, OnOk};
ghost use Rattle.gl_outside.specs.AfterCrash.{left_by, of_cut, of_written};
ghost use Rattle.gl_outside.specs.Areas.{bytes_in};
ghost use Rattle.gl_outside.specs.Calls.{event_of, on_top, used};
ghost use Rattle.gl_outside.specs.Events.{Event, content, put, written_over};

use crate::areas::{Area, bytes_of, cut_area, write_area};
use crate::record::Call;
use std::alloc::{AllocError, Global};

/// What became of the writes and cuts that no `sync` of their area followed, in a crash.
///
/// A write or cut that failed counts as one of them, since it may have been done in part.
#[derive(Clone, Copy)]
pub enum Unsynced {
    /// None was done: an area is as its last `sync` left it.
    Absent,
    /// Of a write the first half of its bytes is there, rounded down, unless it begins past the end
    /// of what is left; of the bytes that a cut takes away the first half is still there.
    Half,
    /// Each was done, unless it begins past the end of what is left.
    Whole,
    /// Each byte that was written or cut is 00, and an area has the greatest length that it had.
    Zeros,
    /// Each byte that was written or cut is ff, and an area has the greatest length that it had.
    Ones,
}

/// What a crash leaves of the bytes of a write.
pub fn written_part(alloc: Global, unsynced: Unsynced, bytes: &[u8]) -> Result<Vec<u8>, AllocError>
    ensures { IfOk result (λ part. part.items ≡ of_written unsynced bytes.now) }
{
    match unsynced {
        Unsynced::Absent => Ok(Vec::new(alloc)),
        Unsynced::Half => Vec::from_slice(alloc, &bytes[..bytes.len() / 2]),
        Unsynced::Whole => Vec::from_slice(alloc, bytes),
        Unsynced::Zeros => vec![in alloc; 0; bytes.len()],
        Unsynced::Ones => vec![in alloc; 255; bytes.len()],
    }
}

/// What a crash leaves of the bytes that a cut takes away.
pub fn cut_part(alloc: Global, unsynced: Unsynced, bytes: &[u8]) -> Result<Vec<u8>, AllocError>
    ensures { IfOk result (λ part. part.items ≡ of_cut unsynced bytes.now) }
{
    match unsynced {
        Unsynced::Absent => Vec::from_slice(alloc, bytes),
        Unsynced::Half => Vec::from_slice(alloc, &bytes[..bytes.len() / 2]),
        Unsynced::Whole => Ok(Vec::new(alloc)),
        Unsynced::Zeros => vec![in alloc; 0; bytes.len()],
        Unsynced::Ones => vec![in alloc; 255; bytes.len()],
    }
}

// Writes over the bytes of an area from a place on, where it lies within them.
fn write_within(
    alloc: Global,
    areas: &mut Vec<Area>,
    number: u32,
    at: u64,
    new: &[u8],
) -> Result<(), AllocError>
    ensures { OnOk result ((b : ℕ) → bytes_in areas.new.items b ≡ put number (written_over at new.now (bytes_in areas.old.items number)) (bytes_in areas.old.items) b) }
{
    if at > bytes_of(areas, number).len() as u64 {
        return Ok(());
    }
    write_area(alloc, areas, number, at as usize, new)
}

// Puts other bytes in place of those from a place on.
fn replace_end(
    alloc: Global,
    areas: &mut Vec<Area>,
    number: u32,
    at: usize,
    new: &[u8],
) -> Result<(), AllocError>
    ensures { OnOk result ((b : ℕ) → bytes_in areas.new.items b ≡ put number (take at (bytes_in areas.old.items number) ++ new.now) (bytes_in areas.old.items) b) }
{
    cut_area(areas, number, at);
    let end = bytes_of(areas, number).len();
    write_area(alloc, areas, number, end, new)
}

/// What the areas read as after one call more.
pub fn done(
    alloc: Global,
    areas: &mut Vec<Area>,
    call: Call,
    bytes: &[u8],
) -> Result<(), AllocError>
    ensures { OnOk result ((earlier : List Event) → ((b : ℕ) → bytes_in areas.old.items b ≡ content earlier b) → (b : ℕ) → bytes_in areas.new.items b ≡ content (event_of call bytes.now ∷ earlier) b) }
{
    match call {
        Call::Write {
            area,
            at,
            done: true,
            ..
        } => write_within(alloc, areas, area, at, bytes),
        Call::Cut {
            area,
            length,
            done: true,
        } => {
            cut_area(areas, area, length as usize);
            Ok(())
        }
        Call::Look
        | Call::Write { done: false, .. }
        | Call::Cut { done: false, .. }
        | Call::Sync { .. } => Ok(()),
    }
}

/// What a crash leaves after one call more, where `reads` is what the areas read as before it.
pub fn left(
    alloc: Global,
    unsynced: Unsynced,
    reads: &[Area],
    areas: &mut Vec<Area>,
    call: Call,
    bytes: &[u8],
) -> Result<(), AllocError>
    ensures { OnOk result ((earlier : List Event) → ((b : ℕ) → bytes_in reads.now b ≡ content earlier b) → ((b : ℕ) → bytes_in areas.old.items b ≡ left_by unsynced earlier b) → (b : ℕ) → bytes_in areas.new.items b ≡ left_by unsynced (event_of call bytes.now ∷ earlier) b) }
{
    match call {
        Call::Look => Ok(()),
        Call::Write { area, at, .. } => {
            let part = written_part(alloc, unsynced, bytes)?;
            write_within(alloc, areas, area, at, &part)
        }
        Call::Cut { area, length, .. } => {
            let old = bytes_of(areas, area);
            let at = old.len().min(length as usize);
            let part = cut_part(alloc, unsynced, &old[at..])?;
            replace_end(alloc, areas, area, at, &part)
        }
        Call::Sync { area } => replace_end(alloc, areas, area, 0, bytes_of(reads, area)),
    }
}

/// What a crash leaves of each area after these calls, whose writes have these bytes.
pub fn replay(
    alloc: Global,
    unsynced: Unsynced,
    calls: &[Call],
    bytes: &[u8],
) -> Result<Vec<Area>, AllocError>
    requires { used calls.now ≤ length bytes.now }
    ensures { IfOk result (λ areas. (b : ℕ) → bytes_in areas.items b ≡ left_by unsynced (on_top calls.now bytes.now []) b) }
{
    let mut reads = Vec::new(alloc);
    let mut areas = Vec::new(alloc);
    let mut later = bytes;
    for call in calls {
        let (own, rest) = later.split_at(bytes_len(*call));
        left(alloc, unsynced, &reads, &mut areas, *call, own)?;
        done(alloc, &mut reads, *call, own)?;
        later = rest;
    }
    Ok(areas)
}

// How many bytes a call has.
fn bytes_len(call: Call) -> usize
    ensures { result ≡ used (call ∷ []) }
{
    match call {
        Call::Write { len, .. } => len,
        Call::Look | Call::Cut { .. } | Call::Sync { .. } => 0,
    }
}
