// Base64 with padding.

ghost use Rattle.std.specs.Prelude.{◌≡◌, ◌++◌, IfOk, IfSome, MatchOption, None, OnOk, Some};
ghost use Rattle.base64.specs.GeneralPurpose.{IsBytes};
ghost use Rattle.da_base.specs.Words.{from_base64, to_base64};

use base64::DecodeAllocError;
use base64::engine::general_purpose::STANDARD;
use std::alloc::{AllocError, Global};

/// The bytes in base64 with padding (RFC 4648, section 4).
pub fn to_base64(alloc: Global, bytes: &[u8]) -> Result<Vec<u8>, AllocError>
    ensures { IfOk result (λ text. text.items ≡ to_base64 bytes.now) }
{
    Ok(STANDARD.encode(alloc, bytes)?.into_bytes())
}

/// Appends the bytes in base64 with padding (RFC 4648, section 4).
pub fn push_base64(text: &mut Vec<u8>, alloc: Global, bytes: &[u8]) -> Result<(), AllocError>
    ensures { OnOk result (text.new.items ≡ text.old.items ++ to_base64 bytes.now) }
{
    let encoded = to_base64(alloc, bytes)?;
    text.extend_from_slice(&encoded)
}

/// The bytes that a text in base64 with padding stands for (RFC 4648, section 4). `None` exactly where the text is not
/// what the encoding of some bytes gives.
pub fn from_base64(alloc: Global, text: &[u8]) -> Result<Option<Vec<u8>>, AllocError>
    ensures read { IfOk result (λ read. MatchOption read (from_base64 text.now ≡ None) (λ bytes. from_base64 text.now ≡ Some bytes.items)) }
    ensures exact { IfOk result (λ read. IfSome read (λ bytes. text.now ≡ to_base64 bytes.items)) }
    ensures bytes { IfOk result (λ read. IfSome read (λ bytes. IsBytes bytes.items)) }
{
    match STANDARD.decode(alloc, text) {
        Ok(bytes) => Ok(Some(bytes)),
        Err(DecodeAllocError::DecodeError(_)) => Ok(None),
        Err(DecodeAllocError::OutOfMemory) => Err(AllocError),
    }
}
