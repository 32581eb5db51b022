// Whether a token is right.

ghost use Rattle.std.specs.Prelude.{◌≡◌, ◌↔◌, IsTrue, IfOk};
ghost use Rattle.std.specs.List.{list_any};
ghost use Rattle.da_token.specs.Token.{IsRightText, has_signed, is_in_time, is_issued_by, is_right};
ghost use Rattle.da_token.specs.Reading.{is_right_text};

use crate::key::TokenKey;
use crate::token::{Claims, Token, read_token};
use da_schemes::{hmac_sha256, same_bytes};
use std::alloc::{AllocError, Global};

/// The milliseconds of a second.
const SECOND: u128 = 1000;

/// Whether a text is a token that is right at this moment, in milliseconds after 1970-01-01 (RFC 7519, section 7.2).
///
/// A token is three parts in base64url without padding with dots between them: a header, which is a JSON object whose `alg`
/// is `HS256`, without `crit`, and whose `kid` is a text where it is there; claims, a JSON object with a text `sub` that isn't
/// empty, a whole number of seconds `exp`, one `nbf` and a text `iss` where they are there; and 32 bytes. It is right where a
/// key has the id `kid`, or the empty id where there is none, and the third part is HMAC-SHA-256 under its secret of the
/// first two as they are written (RFC 7515, section 5.2); where the moment is before `exp` and not before `nbf`; and where
/// `iss` is the issuer, if that isn't empty. A text off this form isn't right.
/// The only error is want of memory.
pub fn right(
    alloc: Global,
    token: &[u8],
    keys: &[TokenKey],
    issuer: &[u8],
    moment: u64,
) -> Result<bool, AllocError>
    ensures right { IfOk result
        (λ answer. IsTrue answer ↔ IsRightText keys.now issuer.now moment token.now) }
    ensures value { IfOk result
        (λ answer. answer ≡ is_right_text keys.now issuer.now moment token.now) }
{
    judged(alloc, token, keys, issuer, moment)
}

fn judged(
    alloc: Global,
    token: &[u8],
    keys: &[TokenKey],
    issuer: &[u8],
    moment: u64,
) -> Result<bool, AllocError>
    ensures { IfOk result
        (λ answer. answer ≡ is_right_text keys.now issuer.now moment token.now) }
{
    match read_token(alloc, token)? {
        Some(token) => Ok(is_right(keys, issuer, moment, &token)),
        None => Ok(false),
    }
}

/// Whether some key has signed the token, it is in time, and it is by this issuer.
pub(crate) fn is_right(keys: &[TokenKey], issuer: &[u8], moment: u64, token: &Token) -> bool
    ensures { result ≡ is_right keys.now issuer.now moment token.now }
{
    is_signed(keys, token)
        && is_in_time(moment, &token.claims)
        && is_issued_by(issuer, &token.claims)
}

// Whether some key has signed the token.
fn is_signed(keys: &[TokenKey], token: &Token) -> bool
    ensures { result ≡ list_any (has_signed token.now) keys.now }
{
    for key in keys {
        if has_signed(token, key) {
            return true;
        }
    }
    false
}

// Whether the key has the id that the token names, and its secret gives the signature. The signatures are compared in all of
// their bytes, so that the time doesn't tell how many of them are right.
fn has_signed(token: &Token, key: &TokenKey) -> bool
    ensures { result ≡ has_signed token.now key.now }
{
    if key.id.bytes() != token.key_id.bytes() {
        return false;
    }
    let signature = hmac_sha256(key.secret.bytes(), token.signed.bytes());
    same_bytes(&signature, &token.signature)
}

// Whether the moment is before the end (RFC 7519, section 4.1.4) and not before the beginning (section 4.1.5).
fn is_in_time(moment: u64, claims: &Claims) -> bool
    ensures { result ≡ is_in_time moment claims.now }
{
    let moment = u128::from(moment);
    moment < SECOND * u128::from(claims.expires) && SECOND * u128::from(claims.not_before) <= moment
}

// Whether it is by this issuer (RFC 7519, section 4.1.1), where one is asked for.
fn is_issued_by(issuer: &[u8], claims: &Claims) -> bool
    ensures { result ≡ is_issued_by issuer.now claims.now }
{
    issuer.is_empty() || claims.issuer.bytes() == issuer
}
