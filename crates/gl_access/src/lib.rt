//! Who may see and do what: users by their tokens, and the streams that they are permitted.
//!
//! The server keeps no token, only its SHA-256, `token_hash`. `user_of`, `caller_of`, `permitted`, `permitted_ids`,
//! `permitted_of` and `may` answer exactly what `specs/Permission` defines of a configuration and a token: an administrator
//! sees each stream that is there, another user those of his list that are there, and nobody else any.
//! `law_permitted` says the same of each id, and `law_one_user` that a token is one user's.
#![tactic(auto)]

mod access;
mod laws;
mod token;

pub use access::{Denial, Doing, caller_of, may, permitted, permitted_ids, permitted_of, user_of};
pub use laws::{law_one_user, law_permitted};
pub use token::token_hash;
