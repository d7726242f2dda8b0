// What a reader keeps of the frame that it reads, byte by byte.
ghost use Rattle.std.specs.Prelude.{◌≡◌, ◌+◌, ◌≤◌, ◌<◌, ◌++◌, ◌∷◌, [], ℕ, List, true, false, length, take, IfOk, Some, None, MatchOption};
ghost use Rattle.std.specs.Vec.{vec_capacity};
ghost use Rattle.gl_lines.specs.LineFraming.{most, is_counted, has_no_end, without_cr, last_frame};
ghost use Rattle.gl_lines.specs.Reader.{IsAnswer, IsLast};
ghost use Rattle.gl_lines.specs.Fronts.{ends_count, goes_on, IsFront, IsTaking, IsBegun, IsCountedFront, rest_of, lent_of, Moves, Becomes};

use gl_base::Fed;
use std::alloc::{AllocError, Global};

/// In bytes, without an LF or a MSG-LEN.
const MAX_FRAME: usize = 1_048_576;

/// A frame with a MSG-LEN before it.
const ROOM: usize = MAX_FRAME + 9;

const MAX_DIGITS: usize = 7;

/// How far a frame has come.
#[derive(Clone, Copy, Debug, PartialEq, Eq)]
pub enum State {
    /// Nothing, or digits of a MSG-LEN that say so much.
    Begun { count: usize },
    Line,
    /// So many bytes are its MSG-LEN and its space, and this is what it says.
    Counted { head: usize, count: usize },
    /// The frame is whole, and stands in these bytes.
    Whole { from: usize, to: usize },
    Closed,
}

#[derive(Debug, Drop)]
pub struct Front {
    pub bytes: Vec<u8>,
    pub state: State,
}

/// Nothing has come yet.
pub fn new(alloc: Global, counts: bool) -> Result<Front, AllocError>
    ensures front { IfOk result (IsFront counts) }
    ensures rest { IfOk result (λ f. rest_of f ≡ Some []) }
    ensures lent { IfOk result (λ f. lent_of f ≡ []) }
{
    let bytes = Vec::with_capacity(alloc, ROOM)?;
    let mut front = Front {
        bytes,
        state: State::Closed,
    };
    begin(&mut front, counts);
    Ok(front)
}

/// Begins the next frame.
pub fn begin(front: &mut Front, counts: bool)
    requires { most + 9 ≤ vec_capacity front.old.bytes }
    ensures front { IsFront counts front.new }
    ensures rest { rest_of front.new ≡ Some [] }
    ensures lent { lent_of front.new ≡ [] }
    ensures taking { IsTaking front.new.state }
{
    front.bytes.clear();
    if counts {
        front.state = State::Begun { count: 0 };
    } else {
        front.state = State::Line;
    }
}

/// How many bytes a line has without a CR at its end.
fn line_len(line: &[u8]) -> usize
    ensures within { result ≤ length line.now }
    ensures frame { take result line.now ≡ without_cr line.now }
{
    match line {
        [.., b'\r'] => line.len() - 1,
        _ => line.len(),
    }
}

fn end_line(front: &mut Front, counts: bool) -> Fed
    requires room { most + 9 ≤ vec_capacity front.old.bytes }
    requires never { is_counted counts (front.old.bytes.items ++ 10 ∷ []) ≡ false }
    requires one { has_no_end front.old.bytes.items ≡ true }
    requires few { length front.old.bytes.items ≤ most }
    ensures front { IsFront counts front.new }
    ensures taking { result ≡ Fed.Nothing → IsTaking front.new.state }
    ensures becomes { Becomes counts (front.old.bytes.items ++ 10 ∷ []) result (rest_of front.new) (lent_of front.new) }
{
    let to = line_len(front.bytes.as_slice());
    if to == 0 {
        begin(front, counts);
        return Fed::Nothing;
    }
    front.state = State::Whole { from: 0, to };
    Fed::Whole
}

fn step_line(front: &mut Front, counts: bool, b: u8) -> Fed
    requires room { most + 9 ≤ vec_capacity front.old.bytes }
    requires never { (more : List ℕ) → is_counted counts (front.old.bytes.items ++ b ∷ more) ≡ false }
    requires one { has_no_end front.old.bytes.items ≡ true }
    requires few { length front.old.bytes.items ≤ most }
    ensures front { IsFront counts front.new }
    ensures taking { result ≡ Fed.Nothing → IsTaking front.new.state }
    ensures becomes { Becomes counts (front.old.bytes.items ++ b ∷ []) result (rest_of front.new) (lent_of front.new) }
{
    if b == b'\n' {
        return end_line(front, counts);
    }
    if front.bytes.len() == MAX_FRAME {
        front.state = State::Closed;
        return Fed::TooLong;
    }
    front.bytes.push_reserved(b);
    front.state = State::Line;
    Fed::Nothing
}

/// Whether this byte ends a MSG-LEN of so many digits.
fn ends_count(len: usize, b: u8) -> bool
    ensures { result ≡ ends_count len b }
{
    len > 0 && b == b' '
}

/// Whether this byte is a digit of a MSG-LEN behind so many others.
fn goes_on(len: usize, b: u8) -> bool
    ensures { result ≡ goes_on len b }
{
    len < MAX_DIGITS && b.is_ascii_digit() && !(len == 0 && b == b'0')
}

fn step_begun(front: &mut Front, counts: bool, count: usize, b: u8) -> Fed
    requires room { most + 9 ≤ vec_capacity front.old.bytes }
    requires begun { IsBegun counts front.old.bytes.items count }
    ensures front { IsFront counts front.new }
    ensures taking { result ≡ Fed.Nothing → IsTaking front.new.state }
    ensures becomes { Becomes counts (front.old.bytes.items ++ b ∷ []) result (rest_of front.new) (lent_of front.new) }
{
    let len = front.bytes.len();
    if ends_count(len, b) {
        front.bytes.push_reserved(b);
        front.state = State::Counted {
            head: len + 1,
            count,
        };
        return Fed::Nothing;
    }
    if goes_on(len, b) {
        let count = count * 10 + (b - b'0') as usize;
        front.bytes.push_reserved(b);
        front.state = State::Begun { count };
        return Fed::Nothing;
    }
    step_line(front, counts, b)
}

fn step_counted(front: &mut Front, counts: bool, head: usize, count: usize, b: u8) -> Fed
    requires room { most + 9 ≤ vec_capacity front.old.bytes }
    requires counted { IsCountedFront counts front.old.bytes.items head count }
    ensures front { IsFront counts front.new }
    ensures taking { result ≡ Fed.Nothing → IsTaking front.new.state }
    ensures becomes { Becomes counts (front.old.bytes.items ++ b ∷ []) result (rest_of front.new) (lent_of front.new) }
{
    if front.bytes.len() == head + MAX_FRAME {
        front.state = State::Closed;
        return Fed::TooLong;
    }
    front.bytes.push_reserved(b);
    let to = front.bytes.len();
    if to - head == count {
        front.state = State::Whole { from: head, to };
        return Fed::Whole;
    }
    front.state = State::Counted { head, count };
    Fed::Nothing
}

/// Takes a byte into a frame that isn't whole.
pub fn step(front: &mut Front, counts: bool, b: u8) -> Fed
    requires front { IsFront counts front.old }
    requires taking { IsTaking front.old.state }
    ensures front { IsFront counts front.new }
    ensures taking { result ≡ Fed.Nothing → IsTaking front.new.state }
    ensures becomes { Becomes counts (front.old.bytes.items ++ b ∷ []) result (rest_of front.new) (lent_of front.new) }
{
    match front.state {
        State::Begun { count } => step_begun(front, counts, count, b),
        State::Line => step_line(front, counts, b),
        State::Counted { head, count } => step_counted(front, counts, head, count, b),
        State::Whole { .. } => unreachable!(),
        State::Closed => unreachable!(),
    }
}

/// Takes bytes of a piece until a frame ends.
pub fn feed(front: &mut Front, counts: bool, piece: &[u8]) -> (usize, Fed)
    requires front { IsFront counts front.old }
    requires taking { IsTaking front.old.state }
    ensures within { result.0 ≤ length piece.now }
    ensures front { IsFront counts front.new }
    ensures frames { Moves counts (rest_of front.old) (rest_of front.new) (take result.0 piece.now) result.1 (lent_of front.new) }
    ensures answer { IsAnswer result.1 (rest_of front.old) (rest_of front.new) (lent_of front.new) result.0 (length piece.now) }
{
    for (i, b) in piece.iter().enumerate() {
        match step(front, counts, *b) {
            Fed::Nothing => {}
            Fed::Whole => return (i + 1, Fed::Whole),
            Fed::TooLong => return (piece.len(), Fed::TooLong),
            Fed::Closed => unreachable!(),
        }
    }
    (piece.len(), Fed::Nothing)
}

/// Ends the connection, whose last frame is the rest of a line.
pub fn end(front: &mut Front, counts: bool) -> Fed
    requires { IsFront counts front.old }
    ensures front { IsFront counts front.new }
    ensures last { MatchOption (rest_of front.old)
        ((result ≡ Fed.Closed) × (rest_of front.new ≡ None) × (lent_of front.new ≡ []))
        (λ rest. (rest_of front.new ≡ Some []) × IsLast (last_frame counts rest) result (lent_of front.new)) }
{
    match front.state {
        State::Closed => Fed::Closed,
        State::Begun { .. } => end_rest(front, counts),
        State::Line => end_rest(front, counts),
        State::Counted { .. } | State::Whole { .. } => {
            begin(front, counts);
            Fed::Nothing
        }
    }
}

fn end_rest(front: &mut Front, counts: bool) -> Fed
    requires front { IsFront counts front.old }
    requires line { rest_of front.old ≡ Some front.old.bytes.items }
    requires rest { last_frame counts front.old.bytes.items ≡ front.old.bytes.items }
    ensures front { IsFront counts front.new }
    ensures last { (rest_of front.new ≡ Some []) × IsLast (last_frame counts front.old.bytes.items) result (lent_of front.new) }
{
    let to = front.bytes.len();
    if to == 0 {
        begin(front, counts);
        return Fed::Nothing;
    }
    front.state = State::Whole { from: 0, to };
    Fed::Whole
}
