// The keys of SCRAM-SHA-256.
ghost use Rattle.std.specs.Prelude.{◌≡◌, ◌<◌, ◌↔◌, IfOk, IsTrue};
ghost use Rattle.da_schemes.specs.Keys.{keys_of, server_key, stored_key};

use crate::digest::same_bytes;
use crate::hmac::{hi, hmac_sha256};
use crate::octets::Octets;
use sha2::{Digest, Sha256};
use std::alloc::{AllocError, Global};

/// The keys of a password for SCRAM-SHA-256 (RFC 5802, section 3): a server needs no more to check a proof.
#[derive(Drop)]
pub struct ScramKeys {
    pub rounds: u32,
    pub salt: Octets,
    /// StoredKey.
    pub stored: [u8; 32],
    /// ServerKey.
    pub server: [u8; 32],
}

/// StoredKey of a salted password.
pub(crate) fn stored_key(salted: &[u8]) -> [u8; 32]
    ensures { result ≡ stored_key salted.now }
{
    Sha256::digest(&hmac_sha256(salted, b"Client Key"))
}

/// ServerKey of a salted password.
pub(crate) fn server_key(salted: &[u8]) -> [u8; 32]
    ensures { result ≡ server_key salted.now }
{
    hmac_sha256(salted, b"Server Key")
}

/// The keys of a password under a salt.
pub(crate) fn keys_of(
    alloc: Global,
    password: &[u8],
    salt: &[u8],
    rounds: u32,
) -> Result<ScramKeys, AllocError>
    requires { 0 < rounds }
    ensures { IfOk result (λ keys. keys ≡ keys_of password.now salt.now rounds) }
{
    let kept = Octets::new(Vec::from_slice(alloc, salt)?);
    let salted = hi(password, salt, rounds);
    Ok(ScramKeys {
        rounds,
        salt: kept,
        stored: stored_key(&salted),
        server: server_key(&salted),
    })
}

impl ScramKeys {
    /// Equal keys.
    pub(crate) fn copy(&self, alloc: Global) -> Result<ScramKeys, AllocError>
        ensures { IfOk result (λ keys. keys ≡ self.now) }
    {
        Ok(ScramKeys {
            rounds: self.rounds,
            salt: self.salt.copy(alloc)?,
            stored: self.stored,
            server: self.server,
        })
    }

    /// Whether two sets of keys are equal.
    pub(crate) fn is_same(&self, other: &ScramKeys) -> bool
        ensures { IsTrue result ↔ (self.now ≡ other.now) }
    {
        self.rounds == other.rounds
            && same_bytes(self.salt.bytes(), other.salt.bytes())
            && same_bytes(&self.stored, &other.stored)
            && same_bytes(&self.server, &other.server)
    }
}
