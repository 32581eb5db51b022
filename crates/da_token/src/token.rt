// Tokens and what they say.

ghost use Rattle.std.specs.Prelude.{◌≡◌, None, IfOk, MatchOption, option_and_then, codes};
ghost use Rattle.serde_json.specs.Find.{as_str, get};
ghost use Rattle.serde_json.specs.View.{view};
ghost use Rattle.da_token.specs.Token.{signing_input};
ghost use Rattle.da_token.specs.Reading.{token_read, token_with, header_read, claims_read, signature_read, right_signature, key_id_in, claims_in, subject_in, is_hs256};

use crate::json::{copied, decoded, json_in, seconds_of, seconds_or_zero, text_or_empty};
use da_fields::Text;
use da_tabline::split_at_byte;
use serde_json::Value;
use std::alloc::{AllocError, Global};

/// What a token claims (RFC 7519, section 4.1).
#[derive(Drop)]
pub struct Claims {
    /// The user whom the token is for (`sub`), not empty.
    pub subject: Text,
    /// The second after 1970-01-01 from which on the token isn't taken any more (`exp`).
    pub expires: u64,
    /// The second after 1970-01-01 before which it isn't taken yet (`nbf`), or 0 where there is none.
    pub not_before: u64,
    /// Who issued it (`iss`), or empty where that isn't said.
    pub issuer: Text,
}

/// A token (RFC 7515), whose signature wasn't looked at.
#[derive(Drop)]
pub struct Token {
    /// What is signed: the header and the claims as they are written, with a dot between them (JWS Signing Input).
    pub signed: Text,
    pub signature: [u8; 32],
    /// The id of the key that the header names (`kid`), or empty where it names none.
    pub key_id: Text,
    pub claims: Claims,
}

// The parts of a token as they are written.
#[derive(Clone, Copy, Drop)]
struct Parts<'a> {
    header: &'a [u8],
    claims: &'a [u8],
    signature: &'a [u8],
}

// The three parts between the dots. `None` exactly where there are fewer or more.
fn parts_of(text: &[u8]) -> Option<Parts>
    ensures { MatchOption result (token_read text.now ≡ None)
        (λ p. token_read text.now ≡ token_with (signing_input p.header.now p.claims.now)
        (header_read p.header.now) (claims_read p.claims.now) (signature_read p.signature.now)) }
{
    let Some((header, after_header)) = split_at_byte(text, b'.') else {
        return None;
    };
    let Some((claims, signature)) = split_at_byte(after_header, b'.') else {
        return None;
    };
    match split_at_byte(signature, b'.') {
        Some(_) => None,
        None => Some(Parts {
            header,
            claims,
            signature,
        }),
    }
}

/// The token that a text is. `None` exactly where it is none.
pub(crate) fn read_token(alloc: Global, text: &[u8]) -> Result<Option<Token>, AllocError>
    ensures { IfOk result (λ token. token ≡ token_read text.now) }
{
    match parts_of(text) {
        Some(parts) => read_parts(alloc, parts.header, parts.claims, parts.signature),
        None => Ok(None),
    }
}

fn read_parts(
    alloc: Global,
    header: &[u8],
    claims: &[u8],
    signature: &[u8],
) -> Result<Option<Token>, AllocError>
    ensures { IfOk result (λ token. token ≡ token_with (signing_input header.now claims.now)
        (header_read header.now) (claims_read claims.now) (signature_read signature.now)) }
{
    let Some(signature) = read_signature(alloc, signature)? else {
        return Ok(None);
    };
    let Some(key_id) = read_header(alloc, header)? else {
        return Ok(None);
    };
    let signed = signing_input(alloc, header, claims)?;
    let Some(claims) = read_claims(alloc, claims)? else {
        return Ok(None);
    };
    Ok(Some(Token {
        signed,
        signature,
        key_id,
        claims,
    }))
}

// The 32 bytes of a signature.
fn read_signature(alloc: Global, part: &[u8]) -> Result<Option<[u8; 32]>, AllocError>
    ensures { IfOk result (λ signature. signature ≡ signature_read part.now) }
{
    match decoded(alloc, part)? {
        Some(bytes) => Ok(signature_of(&bytes)),
        None => Ok(None),
    }
}

fn signature_of(bytes: &[u8]) -> Option<[u8; 32]>
    ensures { result ≡ right_signature bytes.now }
{
    match bytes.as_array::<32>() {
        Some(signature) => Some(*signature),
        None => None,
    }
}

// What is signed.
fn signing_input(alloc: Global, header: &[u8], claims: &[u8]) -> Result<Text, AllocError>
    ensures { IfOk result (λ text. text ≡ signing_input header.now claims.now) }
{
    let mut text = Vec::from_slice(alloc, header)?;
    text.extend_from_slice(b".")?;
    text.extend_from_slice(claims)?;
    Ok(Text::new(text))
}

// The id of the key that a header names (RFC 7515, section 4.1).
fn read_header(alloc: Global, part: &[u8]) -> Result<Option<Text>, AllocError>
    ensures { IfOk result (λ key_id. key_id ≡ header_read part.now) }
{
    match json_in(alloc, part)? {
        Some(header) => key_id_in(alloc, &header),
        None => Ok(None),
    }
}

fn key_id_in(alloc: Global, header: &Value) -> Result<Option<Text>, AllocError>
    ensures { IfOk result (λ key_id. key_id ≡ key_id_in (view header.now)) }
{
    if !is_hs256(header) || header.get("crit").is_some() {
        return Ok(None);
    }
    text_or_empty(alloc, header.get("kid"))
}

// Whether the algorithm is HMAC-SHA-256 (RFC 7518, section 3.1).
fn is_hs256(header: &Value) -> bool
    ensures { result
        ≡ is_hs256 (option_and_then as_str (get (codes "alg") (view header.now))) }
{
    match header.get("alg").and_then(Value::as_str) {
        Some(algorithm) => algorithm == "HS256",
        None => false,
    }
}

// What a token claims (RFC 7519, section 4.1).
fn read_claims(alloc: Global, part: &[u8]) -> Result<Option<Claims>, AllocError>
    ensures { IfOk result (λ claims. claims ≡ claims_read part.now) }
{
    match json_in(alloc, part)? {
        Some(claims) => claims_in(alloc, &claims),
        None => Ok(None),
    }
}

fn claims_in(alloc: Global, claims: &Value) -> Result<Option<Claims>, AllocError>
    ensures { IfOk result (λ read. read ≡ claims_in (view claims.now)) }
{
    let Some(expires) = claims.get("exp").and_then(seconds_of) else {
        return Ok(None);
    };
    let Some(not_before) = seconds_or_zero(claims.get("nbf")) else {
        return Ok(None);
    };
    let Some(subject) = subject_in(alloc, claims)? else {
        return Ok(None);
    };
    let Some(issuer) = text_or_empty(alloc, claims.get("iss"))? else {
        return Ok(None);
    };
    Ok(Some(Claims {
        subject,
        expires,
        not_before,
        issuer,
    }))
}

// The user whom a token is for, not empty.
fn subject_in(alloc: Global, claims: &Value) -> Result<Option<Text>, AllocError>
    ensures { IfOk result (λ subject. subject ≡ subject_in (view claims.now)) }
{
    match claims.get("sub").and_then(Value::as_str) {
        Some(subject) if !subject.is_empty() => Ok(Some(copied(alloc, subject)?)),
        _ => Ok(None),
    }
}
