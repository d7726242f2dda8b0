// A body that is an object, member by member.
ghost use Rattle.std.specs.Prelude.{◌≡◌, List, [], IfOk};
ghost use Rattle.serde_json.specs.Data.{Data};
ghost use Rattle.gl_bodies.specs.Json.{Member, count_at, text_at};
ghost use Rattle.gl_bodies.specs.Replies.{reply};
ghost use Rattle.gl_bodies.specs.Writing.{AddsMember, Has};

use gl_base::Items;
use gl_http::Reply;
use json::Writer;
use std::alloc::{AllocError, Global};

/// The room that a short body has at first, in bytes.
const SHORT: usize = 64;

/// An object without members.
pub fn begin(alloc: Global) -> Result<Writer, AllocError>
    ensures { IfOk result (λ body. Has body []) }
{
    let mut body = Writer::new(Vec::with_capacity(alloc, SHORT)?);
    body.begin_object()?;
    Ok(body)
}

/// Puts a text behind the members that are there. Keys come in the order of their bytes.
pub fn put_text(body: &mut Writer, key: &str, text: &str) -> Result<(), AllocError>
    ensures { AddsMember result body.old body.new (text_at key.now text.now) }
{
    body.key(key)?;
    body.string(text)?;
    Ok(())
}

/// The same with a number.
pub fn put_number(body: &mut Writer, key: &str, number: u64) -> Result<(), AllocError>
    ensures { AddsMember result body.old body.new (count_at key.now number) }
{
    body.key(key)?;
    body.u64(number)?;
    Ok(())
}

/// The reply of these members.
pub fn finish(body: Writer, status: u16) -> Result<Reply, AllocError>
    ensures { (members : List Member) → Has body members → IfOk result (λ r. r ≡ reply status members) }
{
    let mut body = body;
    body.end_object()?;
    Ok(Reply {
        status,
        body: Items::from_vec(body.into_inner()),
    })
}
