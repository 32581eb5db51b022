// The JSON values in a token.

ghost use Rattle.std.specs.Prelude.{◌≡◌, IfOk, option_map, []};
ghost use Rattle.serde_json.specs.Find.{as_str};
ghost use Rattle.serde_json.specs.View.{view};
ghost use Rattle.da_token.specs.Json.{from_base64url, json_of, json_in, text_or, seconds_of, seconds_or};

use base64::DecodeAllocError;
use base64::engine::general_purpose::URL_SAFE_NO_PAD;
use da_fields::Text;
use serde_json::Value;
use std::alloc::{AllocError, Global};

/// The latest second after 1970-01-01 whose milliseconds fit 64 bits.
const LAST_SECOND: u64 = 18_446_744_073_709_551;

/// The bytes that a strict encoding in base64url without padding stands for (RFC 7515, section 2).
pub(crate) fn decoded(alloc: Global, part: &[u8]) -> Result<Option<Vec<u8>>, AllocError>
    ensures { IfOk result (λ bytes. option_map (λ b. b.items) bytes ≡ from_base64url part.now) }
{
    match URL_SAFE_NO_PAD.decode(alloc, part) {
        Ok(bytes) => Ok(Some(bytes)),
        Err(DecodeAllocError::DecodeError(_)) => Ok(None),
        Err(DecodeAllocError::OutOfMemory) => Err(AllocError),
    }
}

/// The value that a JSON text in UTF-8 has.
fn json_of(alloc: Global, text: &[u8]) -> Result<Option<Value>, AllocError>
    ensures { IfOk result (λ value. option_map view value ≡ json_of text.now) }
{
    let Ok(text) = std::str::from_utf8(text) else {
        return Ok(None);
    };
    match Value::from_str(alloc, text) {
        Ok(value) => Ok(Some(value)),
        Err(error) if error.is_memory() => Err(AllocError),
        Err(_) => Ok(None),
    }
}

/// The value that a part of a token has.
pub(crate) fn json_in(alloc: Global, part: &[u8]) -> Result<Option<Value>, AllocError>
    ensures { IfOk result (λ value. option_map view value ≡ json_in part.now) }
{
    match decoded(alloc, part)? {
        Some(text) => json_of(alloc, &text),
        None => Ok(None),
    }
}

/// The bytes of a text.
pub(crate) fn copied(alloc: Global, text: &str) -> Result<Text, AllocError>
    ensures { IfOk result (λ copy. copy ≡ text.now) }
{
    Text::from_slice(alloc, text.as_bytes())
}

/// The text that a value is.
pub(crate) fn text_of(alloc: Global, value: &Value) -> Result<Option<Text>, AllocError>
    ensures { IfOk result (λ text. text ≡ as_str (view value.now)) }
{
    match value.as_str() {
        Some(text) => Ok(Some(copied(alloc, text)?)),
        None => Ok(None),
    }
}

/// The text of a member, or an empty one where it isn't there. `None` exactly where it is there and no text.
pub(crate) fn text_or_empty(
    alloc: Global,
    member: Option<&Value>,
) -> Result<Option<Text>, AllocError>
    ensures { IfOk result
        (λ text. text ≡ text_or [] (option_map (λ v. view v.now) member.entry)) }
{
    match member {
        Some(value) => text_of(alloc, value),
        None => Ok(Some(Text::new(Vec::new(alloc)))),
    }
}

/// The whole number of seconds that a value is (RFC 7519, section 2: NumericDate).
pub(crate) fn seconds_of(value: &Value) -> Option<u64>
    ensures { result ≡ seconds_of (view value.now) }
{
    match value.as_u64() {
        Some(seconds) if seconds <= LAST_SECOND => Some(seconds),
        _ => None,
    }
}

/// The seconds of a member, or 0 where it isn't there. `None` exactly where it is there and no such number.
pub(crate) fn seconds_or_zero(member: Option<&Value>) -> Option<u64>
    ensures { result ≡ seconds_or 0 (option_map (λ v. view v.now) member.entry) }
{
    match member {
        Some(value) => seconds_of(value),
        None => Some(0),
    }
}
