// The server's messages, and its look at a proof.

ghost use Rattle.std.specs.Prelude.{◌≡◌, IfOk};
ghost use Rattle.da_scram.specs.Scram.{is_right_proof, proof_says, request_salt, server_final, server_first, signed_text};

use da_fields::{Said, Text};
use da_schemes::{ScramKeys, hmac_sha256, same_bytes, xor_into};
use da_tabline::push_base64;
use sha2::{Digest, Sha256};
use std::alloc::{AllocError, Global};

/// The salt of a plaintext password in a request with these random bytes: the first 16 bytes of their SHA-256 digest.
pub fn request_salt(random: &[u8; 16]) -> [u8; 16]
    ensures { result ≡ request_salt random.now }
{
    let digest = Sha256::digest(random);
    let mut salt = [0; 16];
    salt.copy_from_slice(&digest[..16]);
    salt
}

/// The server's first message (RFC 5802, section 5.1): the nonces of both, the salt and the rounds.
pub(crate) fn server_first(
    alloc: Global,
    nonce: &[u8],
    server_nonce: &[u8],
    salt: &[u8],
    rounds: u32,
) -> Result<Vec<u8>, AllocError>
    ensures { IfOk result (λ text. text.items ≡ server_first nonce.now server_nonce.now salt.now rounds) }
{
    let mut text = Vec::from_slice(alloc, b"r=")?;
    text.extend_from_slice(nonce)?;
    text.extend_from_slice(server_nonce)?;
    text.extend_from_slice(b",s=")?;
    push_base64(&mut text, alloc, salt)?;
    text.extend_from_slice(b",i=")?;
    text.extend_from_slice(rounds.to_string(alloc)?.as_bytes())?;
    Ok(text)
}

/// What both sides sign (RFC 5802, section 3, AuthMessage).
pub(crate) fn signed_text(
    alloc: Global,
    bare: &[u8],
    server_message: &[u8],
    without_proof: &[u8],
) -> Result<Vec<u8>, AllocError>
    ensures { IfOk result (λ text. text.items ≡ signed_text bare.now server_message.now without_proof.now) }
{
    let mut text = Vec::from_slice(alloc, bare)?;
    text.extend_from_slice(b",")?;
    text.extend_from_slice(server_message)?;
    text.extend_from_slice(b",")?;
    text.extend_from_slice(without_proof)?;
    Ok(text)
}

/// What a proof of what was signed gives: where it is right, the server's last message.
pub(crate) fn said_to_proof(
    alloc: Global,
    keys: &ScramKeys,
    signed: &[u8],
    proof: &[u8; 32],
) -> Result<Said, AllocError>
    ensures { IfOk result (λ said. said ≡ proof_says keys.now signed.now proof.now) }
{
    if !is_right_proof(keys, signed, proof) {
        return Ok(Said::Proof {
            right: false,
            last: None,
        });
    }
    Ok(Said::Proof {
        right: true,
        last: Some(Text::new(server_final(alloc, keys, signed)?)),
    })
}

// Whether the proof is the client's key XOR the client's signature.
fn is_right_proof(keys: &ScramKeys, signed: &[u8], proof: &[u8; 32]) -> bool
    ensures { result ≡ is_right_proof keys.now signed.now proof.now }
{
    let mut client_key = *proof;
    xor_into(&mut client_key, &hmac_sha256(&keys.stored, signed));
    same_bytes(&Sha256::digest(&client_key), &keys.stored)
}

// The server's last message, its own signature.
fn server_final(alloc: Global, keys: &ScramKeys, signed: &[u8]) -> Result<Vec<u8>, AllocError>
    ensures { IfOk result (λ text. text.items ≡ server_final keys.now signed.now) }
{
    let mut text = Vec::from_slice(alloc, b"v=")?;
    push_base64(&mut text, alloc, &hmac_sha256(&keys.server, signed))?;
    Ok(text)
}
