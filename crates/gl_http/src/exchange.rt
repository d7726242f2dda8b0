// What a client asked for that has ended.
ghost use Rattle.std.specs.Prelude.{◌≡◌, ◌↔◌, ◌+◌, ◌≤◌, ℕ, List, Some, IfOk, length};
ghost use Rattle.httparse.specs.Grammar.{RequestHead};
ghost use Rattle.gl_http.specs.Exchanges.{exchange_in};
ghost use Rattle.gl_http.specs.Front.{BeginsWith};
ghost use Rattle.gl_http.specs.Heads.{head_in};
ghost use Rattle.gl_http.specs.declared.head.Head.{Head};
ghost use Rattle.gl_http.specs.declared.exchange.Exchange.TheVariants.{Asked};

use crate::head::{Head, HeadAnswer, read_head};
use crate::refusal::Refusal;
use std::alloc::{AllocError, Global};

/// What all that a client sent asks for.
#[derive(Debug, Drop)]
pub enum Exchange {
    /// A request: the body's bytes stand behind the head's.
    Asked(Head),
    /// By its head, or `Truncated` where the body that the head tells of isn't whole.
    Refused(Refusal),
}

/// What a client asked for by all that it sent, which sends no more (RFC 9112, sections 2 to 6). A head that isn't whole is `BadHead`,
/// and a body that isn't is `Truncated`. What stands behind the body plays no part. `Err` is want of memory.
pub fn read_exchange(alloc: Global, bytes: &[u8]) -> Result<Exchange, AllocError>
    ensures asks { IfOk result (λ exchange. exchange ≡ exchange_in bytes.now) }
    ensures within { (head : Head) → IfOk result (λ exchange. exchange ≡ Asked head → head.bytes + head.length ≤ length bytes.now) }
{
    match read_head(alloc, bytes)? {
        HeadAnswer::More => Ok(Exchange::Refused(Refusal::BadHead)),
        HeadAnswer::Refused(refusal) => Ok(Exchange::Refused(refusal)),
        HeadAnswer::Head(head) => {
            if ((bytes.len() - head.bytes) as u64) < head.length {
                Ok(Exchange::Refused(Refusal::Truncated))
            } else {
                Ok(Exchange::Asked(head))
            }
        }
    }
}

/// Law: what is computed is the head of the grammar that some bytes begin with, if one of at most 64 fields is there.
pub fn law_head_in()
    ensures { (bytes : List ℕ) (h : RequestHead) → (head_in bytes ≡ Some h) ↔ BeginsWith bytes h }
{}
