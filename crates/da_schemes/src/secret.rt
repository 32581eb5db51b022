// What is stored of a password.
ghost use Rattle.std.specs.Prelude.{◌≡◌, ◌↔◌, IfOk, IsTrue};

use crate::digest::same_bytes;
use crate::keys::ScramKeys;
use crate::octets::Octets;
use std::alloc::{AllocError, Global};

/// What is stored of a password.
#[derive(Drop)]
pub(crate) enum Secret {
    Plaintext(Octets),
    /// The digest of the password and the salt, and the salt.
    Digest(Octets, Octets),
    Keys(ScramKeys),
}

impl Secret {
    /// An equal secret.
    pub(crate) fn copy(&self, alloc: Global) -> Result<Secret, AllocError>
        ensures { IfOk result (λ secret. secret ≡ self.now) }
    {
        match self {
            Secret::Plaintext(password) => Ok(Secret::Plaintext(password.copy(alloc)?)),
            Secret::Digest(digest, salt) => {
                let digest = digest.copy(alloc)?;
                Ok(Secret::Digest(digest, salt.copy(alloc)?))
            }
            Secret::Keys(keys) => Ok(Secret::Keys(keys.copy(alloc)?)),
        }
    }

    /// Whether two secrets are equal.
    pub(crate) fn is_same(&self, other: &Secret) -> bool
        ensures { IsTrue result ↔ (self.now ≡ other.now) }
    {
        match self {
            Secret::Plaintext(password) => match other {
                Secret::Plaintext(theirs) => same_bytes(password.bytes(), theirs.bytes()),
                _ => false,
            },
            Secret::Digest(digest, salt) => match other {
                Secret::Digest(theirs, their_salt) => {
                    same_bytes(digest.bytes(), theirs.bytes())
                        && same_bytes(salt.bytes(), their_salt.bytes())
                }
                _ => false,
            },
            Secret::Keys(keys) => match other {
                Secret::Keys(theirs) => keys.is_same(theirs),
                _ => false,
            },
        }
    }
}
