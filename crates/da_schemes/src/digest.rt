// Digests of a message in two pieces, and the comparison of secrets. Nothing here takes memory.
ghost use Rattle.std.specs.Prelude.{◌≡◌, ◌++◌, bytes_eq};
ghost use Rattle.md5.specs.Md5.{md5};
ghost use Rattle.sha1.specs.Sha1.{sha1};
ghost use Rattle.sha2.specs.Sha256.{sha256};
ghost use Rattle.sha2.specs.Sha512.{sha512};
ghost use Rattle.da_schemes.specs.Stored.{digest_by};

use crate::scheme::Scheme;
use md5::{Digest as _, Md5};
use sha1::Sha1;
use sha2::{Digest, Sha256, Sha512};

/// The MD5 digest of one piece after the other (RFC 1321).
pub(crate) fn md5_of(message: &[u8], salt: &[u8]) -> [u8; 16]
    ensures { result ≡ md5 (message.now ++ salt.now) }
{
    let mut hasher = Md5::new();
    hasher.update(message);
    hasher.update(salt);
    hasher.finalize()
}

/// The SHA-1 digest of one piece after the other (FIPS 180-4).
pub(crate) fn sha1_of(message: &[u8], salt: &[u8]) -> [u8; 20]
    ensures { result ≡ sha1 (message.now ++ salt.now) }
{
    let mut hasher = Sha1::new();
    hasher.update(message);
    hasher.update(salt);
    hasher.finalize()
}

/// The SHA-256 digest of one piece after the other (FIPS 180-4).
pub(crate) fn sha256_of(message: &[u8], salt: &[u8]) -> [u8; 32]
    ensures { result ≡ sha256 (message.now ++ salt.now) }
{
    let mut hasher = Sha256::new();
    hasher.update(message);
    hasher.update(salt);
    hasher.finalize()
}

/// The SHA-512 digest of one piece after the other (FIPS 180-4).
pub(crate) fn sha512_of(message: &[u8], salt: &[u8]) -> [u8; 64]
    ensures { result ≡ sha512 (message.now ++ salt.now) }
{
    let mut hasher = Sha512::new();
    hasher.update(message);
    hasher.update(salt);
    hasher.finalize()
}

/// Whether two secrets are equal. It goes over all bytes, so that its time doesn't tell where they differ.
pub fn same_bytes(one: &[u8], other: &[u8]) -> bool
    ensures { result ≡ bytes_eq one.now other.now }
{
    if one.len() != other.len() {
        return false;
    }
    let mut same = true;
    for i in 0..one.len() {
        same &= one[i] == other[i];
    }
    same
}

/// Whether this is the digest of the password and the salt under the scheme.
pub(crate) fn is_digest(scheme: Scheme, digest: &[u8], plain: &[u8], salt: &[u8]) -> bool
    ensures { result ≡ bytes_eq digest.now (digest_by scheme (plain.now ++ salt.now)) }
{
    match scheme {
        Scheme::PlainMd5 | Scheme::LdapMd5 | Scheme::Smd5 => same_bytes(
            digest,
            &md5_of(plain, salt),
        ),
        Scheme::Sha | Scheme::Ssha => same_bytes(digest, &sha1_of(plain, salt)),
        Scheme::Sha256 | Scheme::Ssha256 => same_bytes(digest, &sha256_of(plain, salt)),
        Scheme::Sha512 | Scheme::Ssha512 => same_bytes(digest, &sha512_of(plain, salt)),
        Scheme::Plain | Scheme::Clear | Scheme::Cleartext | Scheme::ScramSha256 => same_bytes(
            digest,
            &[],
        ),
    }
}
