// What is kept of a token.
ghost use Rattle.std.specs.Prelude.{◌≡◌};
ghost use Rattle.gl_access.specs.Permission.{token_hash};

use sha2::{Digest, Sha256};

/// What is kept of a token: its SHA-256 (FIPS 180-4) as 64 lower-case hexadecimal digits. It takes no memory.
#[tactic(auto, unfolding(crate::specs::Permission::token_hash))]
pub fn token_hash(token: &str) -> [u8; 64]
    ensures { result ≡ token_hash token.now }
{
    let mut digits = [0; 64];
    let digest = Sha256::digest(token.as_bytes());
    match hex::encode_to_slice(digest, &mut digits) {
        Ok(()) => digits,
        Err(_) => unreachable!(),
    }
}
