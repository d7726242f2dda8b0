// Replies that tell an error by its name, and replies of a number or of nothing.
ghost use Rattle.std.specs.Prelude.{◌≡◌, IfOk};
ghost use Rattle.gl_bodies.specs.Replies as replies;

use crate::object::{begin, finish, put_number, put_text};
use gl_base::Items;
use gl_http::Reply;
use std::alloc::{AllocError, Global};

/// An error without values.
pub fn error_reply(alloc: Global, status: u16, name: &str) -> Result<Reply, AllocError>
    ensures { IfOk result (λ r. r ≡ replies.error_reply status name.now) }
{
    let mut body = begin(alloc)?;
    put_text(&mut body, "error", name)?;
    finish(body, status)
}

/// An error at a place: a byte of a text, or the number of a node of a rule.
pub fn place_reply(alloc: Global, status: u16, name: &str, at: u64) -> Result<Reply, AllocError>
    ensures { IfOk result (λ r. r ≡ replies.place_reply status name.now at) }
{
    let mut body = begin(alloc)?;
    put_number(&mut body, "at", at)?;
    put_text(&mut body, "error", name)?;
    finish(body, status)
}

/// An error that a name tells.
pub fn name_reply(alloc: Global, status: u16, error: &str, name: &str) -> Result<Reply, AllocError>
    ensures { IfOk result (λ r. r ≡ replies.name_reply status error.now name.now) }
{
    let mut body = begin(alloc)?;
    put_text(&mut body, "error", error)?;
    put_text(&mut body, "name", name)?;
    finish(body, status)
}

/// An error with a number, whose key comes behind `error`.
pub fn count_reply(
    alloc: Global,
    status: u16,
    name: &str,
    key: &str,
    count: u64,
) -> Result<Reply, AllocError>
    ensures { IfOk result (λ r. r ≡ replies.count_reply status name.now key.now count) }
{
    let mut body = begin(alloc)?;
    put_text(&mut body, "error", name)?;
    put_number(&mut body, key, count)?;
    finish(body, status)
}

/// 401: no user has the request's token, or it has none.
pub fn unknown_token_reply(alloc: Global) -> Result<Reply, AllocError>
    ensures { IfOk result (λ r. r ≡ replies.unknown_token_reply) }
{
    error_reply(alloc, 401, "UnknownToken")
}

/// 403: the user is no administrator.
pub fn admin_only_reply(alloc: Global) -> Result<Reply, AllocError>
    ensures { IfOk result (λ r. r ≡ replies.admin_only_reply) }
{
    error_reply(alloc, 403, "AdminOnly")
}

/// 403: a stream that is asked for isn't permitted, or isn't there.
pub fn not_permitted_reply(alloc: Global) -> Result<Reply, AllocError>
    ensures { IfOk result (λ r. r ≡ replies.not_permitted_reply) }
{
    error_reply(alloc, 403, "StreamNotPermitted")
}

/// 400: a message has no bytes.
pub fn empty_body_reply(alloc: Global) -> Result<Reply, AllocError>
    ensures { IfOk result (λ r. r ≡ replies.empty_body_reply) }
{
    error_reply(alloc, 400, "EmptyBody")
}

/// 400: a body isn't a version and a command.
pub fn bad_body_reply(alloc: Global) -> Result<Reply, AllocError>
    ensures { IfOk result (λ r. r ≡ replies.bad_body_reply) }
{
    error_reply(alloc, 400, "BadBody")
}

/// 400: the parameter of this name isn't of its form.
pub fn bad_parameter_reply(alloc: Global, name: &str) -> Result<Reply, AllocError>
    ensures { IfOk result (λ r. r ≡ replies.bad_parameter_reply name.now) }
{
    name_reply(alloc, 400, "BadParameter", name)
}

/// 400: a query is refused at this byte.
pub fn bad_query_reply(alloc: Global, at: u64) -> Result<Reply, AllocError>
    ensures { IfOk result (λ r. r ≡ replies.bad_query_reply at) }
{
    place_reply(alloc, 400, "BadQuery", at)
}

/// 404: nothing has the name.
pub fn unknown_name_reply(alloc: Global) -> Result<Reply, AllocError>
    ensures { IfOk result (λ r. r ≡ replies.unknown_name_reply) }
{
    error_reply(alloc, 404, "UnknownName")
}

/// 202: a message was journalled. It takes no memory.
pub fn journalled_reply(alloc: Global) -> Reply
    ensures { result ≡ replies.journalled_reply }
{
    Reply {
        status: 202,
        body: Items::new(alloc),
    }
}

/// 200: a command was accepted, and made this version.
pub fn version_reply(alloc: Global, version: u64) -> Result<Reply, AllocError>
    ensures { IfOk result (λ r. r ≡ replies.version_reply version) }
{
    let mut body = begin(alloc)?;
    put_number(&mut body, "version", version)?;
    finish(body, 200)
}

/// 507: the journal has `bytes` bytes and would pass `limit`.
pub fn journal_full_reply(alloc: Global, bytes: u64, limit: u64) -> Result<Reply, AllocError>
    ensures { IfOk result (λ r. r ≡ replies.journal_full_reply bytes limit) }
{
    let mut body = begin(alloc)?;
    put_number(&mut body, "bytes", bytes)?;
    put_text(&mut body, "error", "JournalFull")?;
    put_number(&mut body, "limit", limit)?;
    finish(body, 507)
}

/// 503: a fault of the disk stopped the server, when the disk's count of faults came to `faults`.
pub fn stopped_reply(alloc: Global, faults: u64) -> Result<Reply, AllocError>
    ensures { IfOk result (λ r. r ≡ replies.stopped_reply faults) }
{
    count_reply(alloc, 503, "Stopped", "faults", faults)
}
