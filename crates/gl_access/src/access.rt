// What a user may see and do.
ghost use Rattle.std.specs.Prelude.{◌≡◌, if◌then◌else◌, None, Some, IfOk, option_copied};
ghost use Rattle.std.specs.Result.{result_err};
ghost use Rattle.std.specs.Str.{bytes_eq};
ghost use Rattle.gl_streams.specs.Ids.{has_id};
ghost use Rattle.gl_settings.specs.Settings.{has_stream};
ghost use Rattle.gl_access.specs.Permission.{caller_in, ids_seen, judged, judged_user, may_see, permitted_of, user_in};

use crate::token::token_hash;
use gl_base::Items;
use gl_settings::{Parts, User};
use std::alloc::{AllocError, Global};

/// Why somebody may not do what he asks for, in the order in which the causes decide.
#[derive(Clone, Copy)]
pub enum Denial {
    /// No user has this token.
    UnknownToken,
    /// The user is no administrator.
    AdminOnly,
    /// The stream isn't there, or the user isn't permitted it: both are told alike.
    StreamNotPermitted,
}

/// What somebody asks for.
#[derive(Clone, Copy)]
pub enum Doing {
    /// To change the configuration, or to read more of it than the streams that he is permitted.
    Administer,
    /// To see the messages of the stream with this id.
    Search(u64),
}

/// The user of this configuration whose token this is. It takes no memory.
pub fn user_of<'a>(config: &'a Parts, token: &str) -> Option<&'a User>
    ensures { option_copied result ≡ user_in config.now token.now }
{
    let hash = token_hash(token);
    config.users().iter().find(|user| has_hash(user, &hash))
}

fn has_hash(user: &User, hash: &[u8; 64]) -> bool
    ensures { result ≡ bytes_eq user.now.token_sha256 hash.now }
{
    user.token_sha256.as_str().as_bytes() == hash.as_slice()
}

/// The user of a request with this token, which may carry none. It takes no memory.
pub fn caller_of<'a>(config: &'a Parts, token: Option<&str>) -> Option<&'a User>
    ensures { option_copied result ≡ caller_in config.now (option_copied token.entry) }
{
    user_of(config, token?)
}

/// Whether a user may see the messages of the stream with this id: it is there, and he is an administrator or has it in his
/// list. It takes no memory.
pub fn permitted(config: &Parts, user: &User, stream: u64) -> bool
    ensures { result ≡ may_see config.now user.now stream }
{
    has_stream(config, stream) && (user.admin || has_id(user.streams.as_slice(), stream))
}

fn has_stream(config: &Parts, id: u64) -> bool
    ensures { result ≡ has_stream config.now id }
{
    config.streams().iter().any(|stream| stream.id == id)
}

fn has_id(ids: &[u64], id: u64) -> bool
    ensures { result ≡ has_id id ids.now }
{
    ids.iter().any(|other| *other == id)
}

/// The ids of the streams that a user may see, in rising order, each once.
pub fn permitted_ids(alloc: Global, config: &Parts, user: &User) -> Result<Items<u64>, AllocError>
    ensures { IfOk result (λ ids. ids ≡ ids_seen config.now user.now) }
{
    let mut ids = Items::new(alloc);
    for stream in config.streams() {
        if permitted(config, user, stream.id) {
            ids.push(stream.id)?;
        }
    }
    Ok(ids)
}

/// The ids of the streams that a request with this token may see, in rising order; `None` where it has no user's token.
pub fn permitted_of(
    alloc: Global,
    config: &Parts,
    token: Option<&str>,
) -> Result<Option<Items<u64>>, AllocError>
    ensures { IfOk result (λ ids. ids ≡ permitted_of config.now (option_copied token.entry)) }
{
    match caller_of(config, token) {
        Some(user) => Ok(Some(permitted_ids(alloc, config, user)?)),
        None => Ok(None),
    }
}

/// Whether the user of this token may do this: `UnknownToken`, then `AdminOnly` or `StreamNotPermitted`. It takes no memory.
pub fn may(config: &Parts, token: &str, doing: Doing) -> Result<(), Denial>
    ensures { result_err result ≡ judged config.now (Some token.now) doing }
{
    match user_of(config, token) {
        Some(user) => may_user(config, user, doing),
        None => Err(Denial::UnknownToken),
    }
}

fn may_user(config: &Parts, user: &User, doing: Doing) -> Result<(), Denial>
    ensures { result_err result ≡ judged_user config.now doing (Some user.now) }
{
    match doing {
        Doing::Administer => allowed(user.admin, Denial::AdminOnly),
        Doing::Search(stream) => allowed(
            permitted(config, user, stream),
            Denial::StreamNotPermitted,
        ),
    }
}

fn allowed(holds: bool, denial: Denial) -> Result<(), Denial>
    ensures { result_err result ≡ (if holds then None else Some denial) }
{
    if holds { Ok(()) } else { Err(denial) }
}
