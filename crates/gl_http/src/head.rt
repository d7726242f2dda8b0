// Reading the head of a request.
ghost use Rattle.std.specs.Prelude.{◌≡◌, ◌≢◌, ◌-◌, ◌≤◌, ◌<◌, ◌⊎◌, ℕ, List, IfOk, Ok, Some, All, length, map, take, slice_get};
ghost use Rattle.httparse.specs.Grammar.{RequestHead, HasNoRequest, MayBecomeRequest};
ghost use Rattle.httparse.specs.Spans.{IsHeaderWithin, IsRequestWithin, IsRequestOf, IsRequestAt, header_bytes};
ghost use Rattle.gl_http.specs.Answers as answers;
ghost use Rattle.gl_http.specs.Front.{front, BeginsWith, HasNoHead, MayBecomeHead};
ghost use Rattle.gl_http.specs.declared.refusal.Refusal.TheVariants as refusal;
ghost use Rattle.gl_http.specs.declared.head.HeadAnswer.TheVariants as answer;

use crate::fields::{first_value, stated_length, token_of};
use crate::{Refusal, Route};
use gl_base::Text;
use httparse::Status;
use httparse::spans::{EMPTY_HEADER_SPAN, HeaderSpan, RequestSpans, parse_request};
use std::alloc::{AllocError, Global};
use std::str;

/// The bytes that a head has at most.
pub const MAX_HEAD: usize = 16_384;

/// The bytes that a body has at most.
pub const MAX_BODY: u64 = 1_048_576;

/// What a request's head says.
#[derive(Debug, Drop)]
pub struct Head {
    pub route: Route,
    /// The bearer token (RFC 6750, section 2.1) of the first Authorization: 1 to 128 characters from space to `~`.
    pub token: Option<Text>,
    /// The body's bytes, at most 1,048,576.
    pub length: u64,
    /// The bytes of the head itself.
    pub bytes: usize,
}

/// How the front of what a client sent stands.
#[derive(Debug, Drop)]
pub enum HeadAnswer {
    /// The head isn't whole yet.
    More,
    Head(Head),
    Refused(Refusal),
}

fn body_length(post: bool, stated: Option<u64>) -> Result<u64, Refusal>
    ensures value { result ≡ answers.body_length post stated }
    ensures few { IfOk result (λ n. n ≤ 1048576) }
{
    match stated {
        None => {
            if post {
                return Err(Refusal::LengthRequired);
            }
            Ok(0)
        }
        Some(length) => {
            if length > MAX_BODY {
                return Err(Refusal::BodyTooLong);
            }
            Ok(length)
        }
    }
}

// The answer to a head whose path has this route.
fn for_route(
    alloc: Global,
    route: Route,
    method: &[u8],
    stated: Option<u64>,
    buf: &[u8],
    headers: &[HeaderSpan],
    bytes: usize,
) -> Result<HeadAnswer, AllocError>
    requires { All (IsHeaderWithin (length buf.now)) headers.now }
    ensures done { IfOk result (λ a. a ≢ answer.More) }
    ensures within { IfOk result (λ a. answers.IfHead a (λ h. (h.bytes ≡ bytes) × (h.length ≤ 1048576))) }
    ensures answer { IfOk result (λ a. a ≡ answers.with_route method.now (map (header_bytes buf.now) headers.now) bytes stated (Some route)) }
{
    if !route.is_method(method) {
        return Ok(HeadAnswer::Refused(Refusal::MethodNotAllowed));
    }
    if first_value(buf, headers, b"Transfer-Encoding").is_some() {
        return Ok(HeadAnswer::Refused(Refusal::TransferCoding));
    }
    match body_length(route.takes_post(), stated) {
        Err(refusal) => Ok(HeadAnswer::Refused(refusal)),
        Ok(length) => {
            let token = token_of(alloc, buf, headers)?;
            Ok(HeadAnswer::Head(Head {
                route,
                token,
                length,
                bytes,
            }))
        }
    }
}

// The answer to a head of these parts.
fn answer_to(
    alloc: Global,
    method: &[u8],
    target: &str,
    buf: &[u8],
    headers: &[HeaderSpan],
    bytes: usize,
) -> Result<HeadAnswer, AllocError>
    requires { All (IsHeaderWithin (length buf.now)) headers.now }
    ensures done { IfOk result (λ a. a ≢ answer.More) }
    ensures within { IfOk result (λ a. answers.IfHead a (λ h. (h.bytes ≡ bytes) × (h.length ≤ 1048576))) }
    ensures answer { IfOk result (λ a. a ≡ answers.answer_to method.now target.now (map (header_bytes buf.now) headers.now) bytes) }
{
    match stated_length(buf, headers) {
        None => Ok(HeadAnswer::Refused(Refusal::BadHead)),
        Some(stated) => match Route::of_target(alloc, target)? {
            None => Ok(HeadAnswer::Refused(Refusal::NotFound)),
            Some(route) => for_route(alloc, route, method, stated, buf, headers, bytes),
        },
    }
}

// The answer to the head that these places give.
fn answer_at(
    alloc: Global,
    buf: &[u8],
    headers: &[HeaderSpan],
    spans: RequestSpans,
) -> Result<HeadAnswer, AllocError>
    requires within { IsRequestWithin buf.now headers.now spans }
    requires of { IsRequestOf buf.now headers.now spans }
    requires few { length headers.now ≤ 64 }
    ensures answer { (h : RequestHead) → IsRequestAt buf.now headers.now spans h → IfOk result (λ a. a ≡ answers.answer_of h) }
    ensures within { IfOk result (λ a. answers.IfHead a (λ h. (h.bytes ≤ length buf.now) × (h.length ≤ 1048576))) }
    ensures begins { (h : RequestHead) × BeginsWith buf.now h × IfOk result (λ a. a ≡ answers.answer_of h) }
    ensures done { IfOk result (λ a. a ≢ answer.More) }
{
    let method = spans.method.of(buf);
    match str::from_utf8(spans.path.of(buf)) {
        Ok(target) => answer_to(
            alloc,
            method,
            target,
            buf,
            &headers[..spans.headers],
            spans.len,
        ),
        Err(_) => unreachable!(),
    }
}

// The front in which a head must lie.
#[tactic(auto, unfolding(crate::specs::Front::front))]
fn front(bytes: &[u8]) -> &[u8]
    ensures value { result.now ≡ front bytes.now }
    ensures within { length result.now ≤ length bytes.now }
{
    if bytes.len() <= MAX_HEAD {
        return bytes;
    }
    bytes.split_at(MAX_HEAD).0
}

// The answer where no head is read.
fn headless(len: usize, unread: HeadAnswer) -> HeadAnswer
    ensures short { len ≤ 16384 → result ≡ unread }
    ensures long { 16384 < len → result ≡ answer.Refused refusal.HeadTooLong }
{
    if len > MAX_HEAD {
        return HeadAnswer::Refused(Refusal::HeadTooLong);
    }
    unread
}

/// Reads the head at the front of all that a client sent so far (RFC 9112, sections 2 to 6).
/// A head that is whole within the first 16,384 bytes and has at most 64 fields is answered, whatever follows it.
/// A head ends with a line feed, so a reader that goes on byte by byte asks behind line feeds alone. `Err` is want of memory.
pub fn read_head(alloc: Global, bytes: &[u8]) -> Result<HeadAnswer, AllocError>
    ensures whole { (h : RequestHead) → BeginsWith (front bytes.now) h → IfOk result (λ a. a ≡ answers.answer_of h) }
    ensures shown { IfOk result (λ a. ((h : RequestHead) × BeginsWith (front bytes.now) h) ⊎ HasNoHead (front bytes.now)) }
    ensures too_long { 16384 < length bytes.now → HasNoHead (front bytes.now) → IfOk result (λ a. a ≡ answer.Refused refusal.HeadTooLong) }
    ensures bad { length bytes.now ≤ 16384 → HasNoHead (front bytes.now) → IfOk result (λ a. (a ≡ answer.More) ⊎ (a ≡ answer.Refused refusal.BadHead)) }
    ensures more { IfOk result (λ a. a ≡ answer.More → (length bytes.now ≤ 16384) × HasNoRequest (front bytes.now) × MayBecomeRequest (front bytes.now)) }
    ensures within { IfOk result (λ a. answers.IfHead a (λ h. (h.bytes ≤ length bytes.now) × (h.length ≤ 1048576))) }
    ensures asks { length bytes.now ≤ 16384 → HasNoRequest (front bytes.now) → MayBecomeHead (front bytes.now) → IfOk result (λ a. a ≡ answer.More) }
    ensures ends { IfOk result (λ a. answers.IfHead a (λ h. slice_get bytes.now (h.bytes - 1) ≡ Some 10)) }
{
    let front = front(bytes);
    let mut headers = [EMPTY_HEADER_SPAN; 64];
    match parse_request(front, &mut headers) {
        Ok(Status::Complete(spans)) => answer_at(alloc, front, &headers, spans),
        Ok(Status::Partial) => Ok(headless(bytes.len(), HeadAnswer::More)),
        Err(_) => Ok(headless(bytes.len(), HeadAnswer::Refused(Refusal::BadHead))),
    }
}
