use crate::Named;
use gl_base::{Items, Text};
use std::alloc::{AllocError, Global};

/// Who may ask. An administrator is permitted every stream, another user those of the list.
#[derive(Drop)]
pub struct User {
    pub name: Text,
    /// The SHA-256 of the user's token, as 64 lower-case hexadecimal digits.
    pub token_sha256: Text,
    pub admin: bool,
    pub streams: Items<u64>,
}

impl Named for User {
    ghost name_of = { λ u. u.name };

    fn name(&self) -> &str {
        self.name.as_str()
    }

    fn copied(&self, _alloc: Global) -> Result<User, AllocError> {
        Ok(User {
            name: self.name.copy()?,
            token_sha256: self.token_sha256.copy()?,
            admin: self.admin,
            streams: self.streams.copy()?,
        })
    }

    fn is_same(&self, other: &User) -> bool {
        self.admin == other.admin
            && self.name.same(&other.name)
            && self.token_sha256.same(&other.token_sha256)
            && self.streams.as_slice() == other.streams.as_slice()
    }
}
