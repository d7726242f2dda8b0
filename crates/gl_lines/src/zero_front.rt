// What a reader of frames that zero bytes end keeps of the frame that it reads.
ghost use Rattle.std.specs.Prelude.{◌≡◌, ◌≤◌, ◌<◌, ◌++◌, [], List, ℕ, Some, length, IfOk, true, false};
ghost use Rattle.std.specs.List.{prefix_len};
ghost use Rattle.gl_lines.specs.declared.zero_front.Stage.TheVariants as stages;
ghost use Rattle.gl_lines.specs.Reader.{IsAnswer};
ghost use Rattle.gl_lines.specs.ZeroReader.{Leaves, Takes, IsDropped};
ghost use Rattle.gl_lines.specs.ZeroFronts.{is_zero, is_not_zero, skip_len, zero_view, IsOpen, HasRoom};

use gl_base::Fed;
use std::alloc::{AllocError, Global};

/// The most bytes that a frame may have.
const MAX_FRAME: usize = 1_048_576;

#[derive(Clone, Copy, Debug, PartialEq, Eq)]
pub enum Stage {
    Open,
    Ended,
    Closed,
}

/// What came of the frame that hasn't ended, or the frame that ended last.
#[derive(Debug, Drop)]
pub struct ZeroFront {
    pub bytes: Vec<u8>,
    pub stage: Stage,
}

/// Nothing has come yet.
pub fn new(alloc: Global) -> Result<ZeroFront, AllocError>
    ensures room { IfOk result HasRoom }
    ensures rest { IfOk result (λ f. (zero_view f).rest ≡ Some []) }
    ensures lent { IfOk result (λ f. (zero_view f).frame ≡ []) }
{
    Ok(ZeroFront {
        bytes: Vec::with_capacity(alloc, MAX_FRAME)?,
        stage: Stage::Open,
    })
}

/// Begins the next frame.
pub fn begin(front: &mut ZeroFront)
    requires { HasRoom front.old }
    ensures room { HasRoom front.new }
    ensures rest { (zero_view front.new).rest ≡ Some [] }
    ensures lent { (zero_view front.new).frame ≡ [] }
    ensures open { IsOpen front.new.stage }
{
    front.bytes.clear();
    front.stage = Stage::Open;
}

fn skipped(front: &ZeroFront, piece: &[u8]) -> usize
    ensures len { result ≡ skip_len front.now.bytes.items piece.now }
    ensures within { result ≤ length piece.now }
{
    if front.bytes.is_empty() {
        return zeros_len(piece);
    }
    0
}

fn put(front: &mut ZeroFront, part: &[u8]) -> bool
    requires { HasRoom front.old }
    ensures room { HasRoom front.new }
    ensures kept { result ≡ true → front.new.bytes.items ≡ front.old.bytes.items ++ part.now }
    ensures few { result ≡ true → length (front.old.bytes.items ++ part.now) ≤ 1048576 }
    ensures many { result ≡ false → 1048576 < length (front.old.bytes.items ++ part.now) }
    ensures closed { result ≡ false → front.new.stage ≡ stages.Closed }
{
    if part.len() > MAX_FRAME || front.bytes.len() > MAX_FRAME - part.len() {
        front.stage = Stage::Closed;
        return false;
    }
    match front.bytes.extend_from_slice(part) {
        Ok(()) => true,
        Err(_) => unreachable!(),
    }
}

/// Takes bytes of a piece until a frame ends.
pub fn feed(front: &mut ZeroFront, piece: &[u8]) -> (usize, Fed)
    requires room { HasRoom front.old }
    requires open { IsOpen front.old.stage }
    ensures within { result.0 ≤ length piece.now }
    ensures room { HasRoom front.new }
    ensures frames { (given : List ℕ) → Leaves (zero_view front.old).rest given → Takes (zero_view front.new) given piece.now result.0 result.1 }
    ensures answer { IsAnswer result.1 (zero_view front.old).rest (zero_view front.new).rest (zero_view front.new).frame result.0 (length piece.now) }
{
    let (_, rest) = piece.split_at(skipped(front, piece));
    let (part, tail) = rest.split_at(part_len(rest));
    if !put(front, part) {
        return (piece.len(), Fed::TooLong);
    }
    if tail.is_empty() {
        front.stage = Stage::Open;
        return (piece.len(), Fed::Nothing);
    }
    front.stage = Stage::Ended;
    (piece.len() - tail.len() + 1, Fed::Whole)
}

/// Ends the connection: the rest is dropped.
pub fn end(front: &mut ZeroFront) -> Fed
    requires { HasRoom front.old }
    ensures room { HasRoom front.new }
    ensures last { IsDropped (zero_view front.old).rest result (zero_view front.new) }
{
    if let Stage::Closed = front.stage {
        return Fed::Closed;
    }
    begin(front);
    Fed::Nothing
}

/// How many zero bytes stand at the front.
fn zeros_len(bytes: &[u8]) -> usize
    ensures len { result ≡ prefix_len is_zero bytes.now }
    ensures within { result ≤ length bytes.now }
{
    for (i, byte) in bytes.iter().enumerate() {
        if *byte != 0 {
            return i;
        }
    }
    bytes.len()
}

/// How many bytes stand before the first zero byte.
fn part_len(bytes: &[u8]) -> usize
    ensures len { result ≡ prefix_len is_not_zero bytes.now }
    ensures within { result ≤ length bytes.now }
{
    for (i, byte) in bytes.iter().enumerate() {
        if *byte == 0 {
            return i;
        }
    }
    bytes.len()
}
