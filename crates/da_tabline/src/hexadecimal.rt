// Hexadecimal digits.

ghost use Rattle.std.specs.Prelude.{◌≡◌, IfOk};
ghost use Rattle.da_base.specs.Words.{hex};

use std::alloc::{AllocError, Global};

/// Two lower-case hexadecimal digits for each byte (RFC 4648, section 8, with letters lowered).
pub fn hex_digits(alloc: Global, bytes: &[u8]) -> Result<Vec<u8>, AllocError>
    ensures { IfOk result (λ text. text.items ≡ hex bytes.now) }
{
    Ok(hex::encode(alloc, bytes)?.into_bytes())
}
