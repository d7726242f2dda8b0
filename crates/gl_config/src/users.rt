// The commands on users.
ghost use Rattle.std.specs.Prelude.{◌≡◌, ◌-◌, ◌<◌, ◌^◌, None, IfOk, IfErr, OnOk};
ghost use Rattle.gl_settings.specs.Limits.{Refuses};
ghost use Rattle.gl_config.specs.Next.{with_user, behind};
ghost use Rattle.gl_config.specs.Applying.{new_user_refusal, user_refusal, Makes};

use crate::known::{has_streams, is_anothers};
use gl_base::{Items, Text};
use gl_settings::{
    ConfigRefusal, Parts, Text as BadText, User, has_name, is_hash, is_short_name, placed,
};
use std::alloc::{AllocError, Global};

/// A user as a command gives it.
#[derive(Clone, Copy)]
pub struct Given<'a> {
    pub name: &'a Text,
    pub hash: &'a Text,
    pub admin: bool,
    pub streams: &'a Items<u64>,
}

fn refuse_new(parts: &Parts, given: &Given<'_>) -> Result<(), ConfigRefusal>
    ensures ok { OnOk result (new_user_refusal parts.now given.now.name.now given.now.hash.now given.now.streams.now ≡ None) }
    ensures err { IfErr result (Refuses (new_user_refusal parts.now given.now.name.now given.now.hash.now given.now.streams.now)) }
{
    if !is_short_name(given.name.as_str()) {
        return Err(ConfigRefusal::BadName);
    }
    if has_name(given.name.as_str(), parts.users())
        || is_anothers(parts, given.name.as_str(), given.hash.as_str())
    {
        return Err(ConfigRefusal::NameTaken);
    }
    if !has_streams(parts, given.streams.as_slice()) {
        return Err(ConfigRefusal::UnknownName);
    }
    if !is_hash(given.hash.as_str()) {
        return Err(ConfigRefusal::BadText(BadText::Hash));
    }
    Ok(())
}

fn refuse_changed(parts: &Parts, given: &Given<'_>) -> Result<(), ConfigRefusal>
    ensures ok { OnOk result (user_refusal parts.now given.now.name.now given.now.hash.now given.now.streams.now ≡ None) }
    ensures err { IfErr result (Refuses (user_refusal parts.now given.now.name.now given.now.hash.now given.now.streams.now)) }
{
    if !is_short_name(given.name.as_str()) {
        return Err(ConfigRefusal::BadName);
    }
    if is_anothers(parts, given.name.as_str(), given.hash.as_str()) {
        return Err(ConfigRefusal::NameTaken);
    }
    if !has_name(given.name.as_str(), parts.users())
        || !has_streams(parts, given.streams.as_slice())
    {
        return Err(ConfigRefusal::UnknownName);
    }
    if !is_hash(given.hash.as_str()) {
        return Err(ConfigRefusal::BadText(BadText::Hash));
    }
    Ok(())
}

fn with_user(parts: &Parts, alloc: Global, given: &Given<'_>) -> Result<Parts, AllocError>
    requires { parts.now.version < 2 ^ 64 - 1 }
    ensures { IfOk result (λ next. next ≡ behind parts.now (with_user parts.now given.now.name.now given.now.hash.now given.now.admin given.now.streams.now)) }
{
    let user = User {
        name: given.name.copy()?,
        token_sha256: given.hash.copy()?,
        admin: given.admin,
        streams: given.streams.copy()?,
    };
    let users = placed(alloc, user, parts.users())?;
    parts.next()?.with_users(alloc, users)
}

/// A user more.
pub fn create_user(parts: &Parts, alloc: Global, given: &Given<'_>) -> Result<Parts, ConfigRefusal>
    requires { parts.now.version < 2 ^ 64 - 1 }
    ensures ok { IfOk result (Makes (new_user_refusal parts.now given.now.name.now given.now.hash.now given.now.streams.now) (behind parts.now (with_user parts.now given.now.name.now given.now.hash.now given.now.admin given.now.streams.now))) }
    ensures err { IfErr result (Refuses (new_user_refusal parts.now given.now.name.now given.now.hash.now given.now.streams.now)) }
{
    refuse_new(parts, given)?;
    Ok(with_user(parts, alloc, given)?)
}

/// Another hash, and other rights, for a user who is there.
pub fn set_user(parts: &Parts, alloc: Global, given: &Given<'_>) -> Result<Parts, ConfigRefusal>
    requires { parts.now.version < 2 ^ 64 - 1 }
    ensures ok { IfOk result (Makes (user_refusal parts.now given.now.name.now given.now.hash.now given.now.streams.now) (behind parts.now (with_user parts.now given.now.name.now given.now.hash.now given.now.admin given.now.streams.now))) }
    ensures err { IfErr result (Refuses (user_refusal parts.now given.now.name.now given.now.hash.now given.now.streams.now)) }
{
    refuse_changed(parts, given)?;
    Ok(with_user(parts, alloc, given)?)
}
