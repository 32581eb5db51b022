// The text of a password stored anew.
ghost use Rattle.std.specs.Prelude.{◌≡◌, ◌++◌, IfOk, string_bytes};
ghost use Rattle.da_schemes.specs.Scheme.{kind_of};
ghost use Rattle.da_schemes.specs.Stored.{digest_by};
ghost use Rattle.da_schemes.specs.Made.{keys_text, digest_text, text_made, made};

use crate::digest::{md5_of, sha1_of, sha256_of, sha512_of};
use crate::keys::{ScramKeys, keys_of};
use crate::scheme::{Kind, Scheme};
use da_tabline::{push_base64, to_base64};
use std::alloc::{AllocError, Global};

/// The rounds of new keys.
pub(crate) const ROUNDS: u32 = 4096;

// One list after the other.
fn joined(alloc: Global, front: &[u8], back: &[u8]) -> Result<Vec<u8>, AllocError>
    ensures { IfOk result (λ v. v.items ≡ front.now ++ back.now) }
{
    let mut bytes = Vec::from_slice(alloc, front)?;
    bytes.extend_from_slice(back)?;
    Ok(bytes)
}

// The digest of the password and the salt under the scheme, and the salt.
fn salted_digest(
    alloc: Global,
    scheme: Scheme,
    plain: &[u8],
    salt: &[u8],
) -> Result<Vec<u8>, AllocError>
    ensures { IfOk result (λ v. v.items ≡ digest_by scheme (plain.now ++ salt.now) ++ salt.now) }
{
    match scheme {
        Scheme::PlainMd5 | Scheme::LdapMd5 | Scheme::Smd5 => joined(
            alloc,
            &md5_of(plain, salt),
            salt,
        ),
        Scheme::Sha | Scheme::Ssha => joined(alloc, &sha1_of(plain, salt), salt),
        Scheme::Sha256 | Scheme::Ssha256 => joined(alloc, &sha256_of(plain, salt), salt),
        Scheme::Sha512 | Scheme::Ssha512 => joined(alloc, &sha512_of(plain, salt), salt),
        Scheme::Plain | Scheme::Clear | Scheme::Cleartext | Scheme::ScramSha256 => joined(
            alloc,
            &[],
            salt,
        ),
    }
}

// The bytes as the scheme writes them.
fn written(alloc: Global, scheme: Scheme, bytes: &[u8]) -> Result<Vec<u8>, AllocError>
    ensures { IfOk result (λ v. v.items ≡ digest_text scheme bytes.now) }
{
    match scheme {
        Scheme::PlainMd5 => Ok(hex::encode(alloc, bytes)?.into_bytes()),
        _ => to_base64(alloc, bytes),
    }
}

// The text of keys of 4,096 rounds.
fn written_keys(alloc: Global, keys: &ScramKeys) -> Result<Vec<u8>, AllocError>
    ensures { IfOk result (λ v. v.items ≡ keys_text keys.now) }
{
    let mut text = Vec::from_slice(alloc, b"4096,")?;
    push_base64(&mut text, alloc, keys.salt.bytes())?;
    text.extend_from_slice(b",")?;
    push_base64(&mut text, alloc, &keys.stored)?;
    text.extend_from_slice(b",")?;
    push_base64(&mut text, alloc, &keys.server)?;
    Ok(text)
}

// What stands after the braces.
fn text_of(
    alloc: Global,
    scheme: Scheme,
    plain: &[u8],
    salt: &[u8; 16],
) -> Result<Vec<u8>, AllocError>
    ensures { IfOk result (λ v. v.items ≡ text_made (kind_of scheme) scheme plain.now salt.now) }
{
    match scheme.kind() {
        Kind::Verbatim => Vec::from_slice(alloc, plain),
        Kind::Hashed => written(alloc, scheme, &salted_digest(alloc, scheme, plain, &[])?),
        Kind::Salted => written(
            alloc,
            scheme,
            &salted_digest(alloc, scheme, plain, &salt[..8])?,
        ),
        Kind::Scram => written_keys(alloc, &keys_of(alloc, plain, salt, ROUNDS)?),
    }
}

/// The text that stores a password under a scheme: its name in upper case in braces, and the text without encoding, with
/// lower-case hexadecimal digits. Salted digests take the first 8 bytes of the salt, SCRAM-SHA-256 all of it and 4,096
/// rounds.
pub fn make(
    alloc: Global,
    scheme: Scheme,
    plain: &[u8],
    salt: &[u8; 16],
) -> Result<Vec<u8>, AllocError>
    ensures { IfOk result (λ v. v.items ≡ made scheme plain.now salt.now) }
{
    let mut text = Vec::from_slice(alloc, b"{")?;
    text.extend_from_slice(scheme.name())?;
    text.extend_from_slice(b"}")?;
    text.extend_from_slice(&text_of(alloc, scheme, plain, salt)?)?;
    Ok(text)
}
