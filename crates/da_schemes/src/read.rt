// Reading the text of a stored password.
ghost use Rattle.std.specs.Prelude.{◌∷◌, [], IfOk};
ghost use Rattle.da_schemes.specs.Keys.{IsRoundCount, rounds_spelled, bytes_spelled, keys_in_pieces, keys_spelled};
ghost use Rattle.da_schemes.specs.Stored.{IsRead, decoded_by, bytes_written, own_encoding, secret_of_bytes, secret_written, secret_fits, IsFitting};

use crate::fault::SchemeFault;
use crate::keys::ScramKeys;
use crate::octets::Octets;
use crate::scheme::{Encoding, Kind, Label};
use crate::secret::Secret;
use da_tabline::{decimal_number, four_pieces, from_base64};
use hex::FromHexError;
use std::alloc::Global;

const MAX_ROUNDS: u64 = 100_000;

// The bytes that a text stands for.
fn decode(alloc: Global, encoding: Encoding, text: &[u8]) -> Result<Octets, SchemeFault>
    ensures { IsRead (decoded_by encoding text.now) result }
{
    match encoding {
        Encoding::Base64 => match from_base64(alloc, text)? {
            Some(bytes) => Ok(Octets::new(bytes)),
            None => Err(SchemeFault::BadText),
        },
        Encoding::Hex => match hex::decode(alloc, text) {
            Ok(bytes) => Ok(Octets::new(bytes)),
            Err(FromHexError::OutOfMemory) => Err(SchemeFault::NoMemory),
            Err(_) => Err(SchemeFault::BadText),
        },
    }
}

// The bytes that a text stores under a label.
fn written(alloc: Global, label: Label, text: &[u8]) -> Result<Octets, SchemeFault>
    ensures { IsRead (bytes_written label.encoding (own_encoding label.scheme) text.now) result }
{
    match label.encoding {
        Some(encoding) => decode(alloc, encoding, text),
        None => match label.scheme.own_encoding() {
            Some(encoding) => decode(alloc, encoding, text),
            None => Ok(Octets::new(Vec::from_slice(alloc, text)?)),
        },
    }
}

// What these bytes store, where a digest has `size` bytes.
fn secret_of(alloc: Global, kind: Kind, size: usize, bytes: Octets) -> Result<Secret, SchemeFault>
    ensures read { IsRead (secret_of_bytes kind size bytes) result }
    ensures fits { IfOk result (λ secret. secret_fits kind size secret) }
{
    let length = bytes.bytes().len();
    match kind {
        Kind::Verbatim => Ok(Secret::Plaintext(bytes)),
        Kind::Hashed if length == size => Ok(Secret::Digest(bytes, Octets::new(Vec::new(alloc)))),
        Kind::Salted if size <= length => {
            let (digest, salt) = bytes.split(alloc, size)?;
            Ok(Secret::Digest(digest, salt))
        }
        _ => Err(SchemeFault::BadText),
    }
}

fn read_rounds(text: &[u8]) -> Result<u32, SchemeFault>
    ensures read { IsRead (rounds_spelled text.now) result }
    ensures fits { IfOk result (λ rounds. IsRoundCount rounds) }
{
    match decimal_number(text, MAX_ROUNDS) {
        Some(rounds) if rounds >= 1 => Ok(rounds as u32),
        _ => Err(SchemeFault::BadText),
    }
}

fn read_salt(alloc: Global, text: &[u8]) -> Result<Octets, SchemeFault>
    ensures { IsRead (bytes_spelled 1 64 text.now) result }
{
    let salt = decode(alloc, Encoding::Base64, text)?;
    match salt.bytes().len() {
        1..=64 => Ok(salt),
        _ => Err(SchemeFault::BadText),
    }
}

fn read_key(alloc: Global, text: &[u8]) -> Result<[u8; 32], SchemeFault>
    ensures { IsRead (bytes_spelled 32 32 text.now) result }
{
    let key = decode(alloc, Encoding::Base64, text)?;
    match key.bytes().as_array::<32>() {
        Some(key) => Ok(*key),
        None => Err(SchemeFault::BadText),
    }
}

// The keys that four parts spell.
fn keys_of_parts(
    alloc: Global,
    rounds: &[u8],
    salt: &[u8],
    stored: &[u8],
    server: &[u8],
) -> Result<ScramKeys, SchemeFault>
    ensures read { IsRead (keys_in_pieces (rounds.now ∷ salt.now ∷ stored.now ∷ server.now ∷ [])) result }
    ensures fits { IfOk result (λ keys. IsRoundCount keys.rounds) }
{
    let rounds = read_rounds(rounds)?;
    let salt = read_salt(alloc, salt)?;
    let stored = read_key(alloc, stored)?;
    let server = read_key(alloc, server)?;
    Ok(ScramKeys {
        rounds,
        salt,
        stored,
        server,
    })
}

// The keys that a text spells.
fn read_keys(alloc: Global, text: &[u8]) -> Result<ScramKeys, SchemeFault>
    ensures read { IsRead (keys_spelled text.now) result }
    ensures fits { IfOk result (λ keys. IsRoundCount keys.rounds) }
{
    let Some(parts) = four_pieces(text, b',') else {
        return Err(SchemeFault::BadText);
    };
    match parts.more {
        None => keys_of_parts(alloc, parts.first, parts.second, parts.third, parts.fourth),
        Some(_) => Err(SchemeFault::BadText),
    }
}

/// What a text stores under a label.
pub(crate) fn read_secret(alloc: Global, label: Label, text: &[u8]) -> Result<Secret, SchemeFault>
    ensures read { IsRead (secret_written label text.now) result }
    ensures fits { IfOk result (λ secret. IsFitting label.scheme secret) }
{
    match label.scheme.kind() {
        Kind::Scram => match label.encoding {
            Some(_) => Err(SchemeFault::BadText),
            None => Ok(Secret::Keys(read_keys(alloc, text)?)),
        },
        kind => {
            let bytes = written(alloc, label, text)?;
            secret_of(alloc, kind, label.scheme.digest_size(), bytes)
        }
    }
}
