// Why a request is refused.
ghost use Rattle.std.specs.Prelude.{◌≡◌, IfOk};
ghost use Rattle.gl_http.specs.Answers.{status_of, name_of};
ghost use Rattle.gl_http.specs.Refusals.{reply_to};

use crate::reply::Reply;
use gl_base::Items;
use std::alloc::{AllocError, Global};

/// Why a request is refused by its head alone, in the order in which the causes decide; and last, by a body that is cut short.
#[derive(Clone, Copy, Debug)]
pub enum Refusal {
    /// More than 16,384 bytes came, and no prefix of the first 16,384 is a head of at most 64 fields.
    HeadTooLong,
    /// What came begins with no head of at most 64 fields, or its Content-Length isn't 1 to 18 digits, or two differ.
    BadHead,
    /// No route has this path.
    NotFound,
    /// The route has another method.
    MethodNotAllowed,
    /// There is a Transfer-Encoding.
    TransferCoding,
    /// A POST states no Content-Length.
    LengthRequired,
    /// The body has more than 1,048,576 bytes.
    BodyTooLong,
    /// The client ended before the body that the head tells of was whole. `read_head` never answers it.
    Truncated,
}

impl Refusal {
    /// The status of its reply (RFC 9110, section 15.5, and RFC 6585, section 5).
    pub fn status(self) -> u16
        ensures { result ≡ status_of self }
    {
        match self {
            Refusal::HeadTooLong => 431,
            Refusal::BadHead => 400,
            Refusal::NotFound => 404,
            Refusal::MethodNotAllowed => 405,
            Refusal::TransferCoding => 501,
            Refusal::LengthRequired => 411,
            Refusal::BodyTooLong => 413,
            Refusal::Truncated => 400,
        }
    }

    /// Its name in the reply's body.
    pub fn name(self) -> &'static str
        ensures { result.now ≡ name_of self }
    {
        match self {
            Refusal::HeadTooLong => "HeadTooLong",
            Refusal::BadHead => "BadHead",
            Refusal::NotFound => "NotFound",
            Refusal::MethodNotAllowed => "MethodNotAllowed",
            Refusal::TransferCoding => "TransferCoding",
            Refusal::LengthRequired => "LengthRequired",
            Refusal::BodyTooLong => "BodyTooLong",
            Refusal::Truncated => "Truncated",
        }
    }
    /// The reply to it: its status, and the body `{"error":NAME}`.
    pub fn reply(self, alloc: Global) -> Result<Reply, AllocError>
        ensures { IfOk result (λ reply. reply ≡ reply_to self) }
    {
        let name = self.name();
        let body = format!(in alloc; "{{\"error\":\"{name}\"}}")?;
        Ok(Reply {
            status: self.status(),
            body: Items::from_vec(body.into_bytes()),
        })
    }
}
