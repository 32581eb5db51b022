// Stored passwords.
ghost use Rattle.std.specs.Prelude.{◌≡◌, ◌↔◌, ◌||◌, None, IfOk, IsSome, IsTrue, MatchOption};
ghost use Rattle.std.specs.Option.{option_copied};
ghost use Rattle.da_schemes.specs.Scheme.{is_plaintext_scheme, is_scram_scheme};
ghost use Rattle.da_schemes.specs.Keys.{HaveSalt};
ghost use Rattle.da_schemes.specs.Stored.{scram_keys};
ghost use Rattle.da_schemes.specs.Stored.{IsRead, IsReadFrom, stored_under, matches, plaintext_of};

use crate::digest::{is_digest, same_bytes};
use crate::fault::SchemeFault;
use crate::hmac::hi;
use crate::keys::{ScramKeys, keys_of, stored_key};
use crate::making::ROUNDS;
use crate::read::read_secret;
use crate::scheme::{Label, Scheme, braced};
use crate::secret::Secret;
use std::alloc::{AllocError, Global};
use std::marker::Model;

/// A stored password: a scheme, and what is stored under it.
#[derive(Drop)]
pub struct Stored {
    scheme: Scheme,
    secret: Secret,
}

impl Model for Stored {
    ghost use Rattle.da_schemes.specs.Stored.{StoredPassword, IsFitting};

    ghost Value = { StoredPassword };

    ghost view = { λ s. record { scheme = s.scheme; secret = s.secret } };

    ghost invariant = { λ s. IsFitting s.scheme s.secret };
}

impl Stored {
    /// The scheme.
    pub fn scheme(&self) -> Scheme
        ensures { result ≡ self.now.scheme }
    {
        self.scheme
    }

    // The stored password that a text spells under a label.
    fn labelled(alloc: Global, label: Label, text: &[u8]) -> Result<Stored, SchemeFault>
        ensures { IsRead (stored_under label text.now) result }
    {
        let secret = read_secret(alloc, label, text)?;
        Ok(Stored {
            scheme: label.scheme,
            secret,
        })
    }

    /// The stored password that a text spells: `{NAME}text`, `{NAME.enc}text`, or a text of the default scheme.
    /// `UnknownScheme` exactly where the name in braces is no scheme or encoding, else `BadText` exactly where the text
    /// is off its scheme's form.
    #[tactic(auto, unfolding(crate::specs::Stored::stored_password))]
    pub fn read(alloc: Global, default: Scheme, text: &[u8]) -> Result<Stored, SchemeFault>
        ensures { IsReadFrom default text.now result }
    {
        match braced(text) {
            None => Stored::labelled(
                alloc,
                Label {
                    scheme: default,
                    encoding: None,
                },
                text,
            ),
            Some((name, rest)) => match Label::read(name) {
                None => Err(SchemeFault::UnknownScheme),
                Some(label) => Stored::labelled(alloc, label, rest),
            },
        }
    }

    /// Whether the plaintext matches.
    #[tactic(auto, unfolding(crate::specs::Stored::matches))]
    pub fn matches(&self, plain: &[u8]) -> bool
        ensures { result ≡ matches self.now plain.now }
    {
        match &self.secret {
            Secret::Plaintext(password) => same_bytes(password.bytes(), plain),
            Secret::Digest(digest, salt) => is_digest(
                self.scheme,
                digest.bytes(),
                plain,
                salt.bytes(),
            ),
            Secret::Keys(keys) => {
                let salted = hi(plain, keys.salt.bytes(), keys.rounds);
                same_bytes(&keys.stored, &stored_key(&salted))
            }
        }
    }

    /// The password itself. `None` exactly where the scheme is neither PLAIN, CLEAR nor CLEARTEXT.
    pub fn plain(&self) -> Option<&[u8]>
        ensures value { option_copied result ≡ plaintext_of self.now }
        ensures scheme { IsSome result ↔ IsTrue (is_plaintext_scheme self.now.scheme) }
    {
        match &self.secret {
            Secret::Plaintext(password) => Some(password.bytes()),
            Secret::Digest(_, _) | Secret::Keys(_) => None,
        }
    }

    /// Whether two stored passwords are equal.
    pub fn is_same(&self, other: &Stored) -> bool
        ensures { IsTrue result ↔ (self.now ≡ other.now) }
    {
        self.scheme == other.scheme && self.secret.is_same(&other.secret)
    }

    /// An equal stored password.
    pub fn copy(&self, alloc: Global) -> Result<Stored, AllocError>
        ensures { IfOk result (λ stored. stored ≡ self.now) }
    {
        let secret = self.secret.copy(alloc)?;
        Ok(Stored {
            scheme: self.scheme,
            secret,
        })
    }
}

/// The keys of a stored password for SCRAM-SHA-256: those of a plaintext password under this salt and 4,096 rounds, or
/// those stored. `None` exactly where the scheme is neither a plaintext scheme nor SCRAM-SHA-256.
pub fn scram_keys(
    alloc: Global,
    stored: &Stored,
    salt: &[u8; 16],
) -> Result<Option<ScramKeys>, AllocError>
    ensures keys { IfOk result (λ keys. keys ≡ scram_keys salt.now stored.now) }
    ensures scheme { IfOk result (λ keys. IsSome keys ↔ IsTrue (is_plaintext_scheme stored.now.scheme || is_scram_scheme stored.now.scheme)) }
{
    match &stored.secret {
        Secret::Plaintext(password) => Ok(Some(keys_of(alloc, password.bytes(), salt, ROUNDS)?)),
        Secret::Digest(_, _) => Ok(None),
        Secret::Keys(keys) => Ok(Some(keys.copy(alloc)?)),
    }
}

/// The salt and the rounds of the keys that `scram_keys` gives, told without a round being done. `None` exactly where it
/// gives none.
pub fn scram_salt<'a>(stored: &'a Stored, salt: &'a [u8; 16]) -> Option<(&'a [u8], u32)>
    ensures { MatchOption result (scram_keys salt.now stored.now ≡ None) (λ p. HaveSalt (scram_keys salt.now stored.now) p.0.now p.1) }
{
    match &stored.secret {
        Secret::Plaintext(_) => Some((salt, ROUNDS)),
        Secret::Digest(_, _) => None,
        Secret::Keys(keys) => Some((keys.salt.bytes(), keys.rounds)),
    }
}
