// The challenge of CRAM-MD5.

ghost use Rattle.std.specs.Prelude.{◌≡◌, IfOk};
ghost use Rattle.da_cram.specs.Cram.{cram_challenge};

use da_tabline::hex_digits;
use std::alloc::{AllocError, Global};

/// The challenge of a server (RFC 2195, section 2): in angle brackets random bytes in lower-case hexadecimal digits, the
/// moment in milliseconds at which the exchange began, and the name of the server's host.
pub fn challenge(
    alloc: Global,
    random: &[u8; 16],
    start: u64,
    host: &[u8],
) -> Result<Vec<u8>, AllocError>
    ensures { IfOk result (λ text. text.items ≡ cram_challenge random.now start host.now) }
{
    let mut text = Vec::from_slice(alloc, b"<")?;
    text.extend_from_slice(&hex_digits(alloc, random)?)?;
    text.extend_from_slice(b".")?;
    text.extend_from_slice(start.to_string(alloc)?.as_bytes())?;
    text.extend_from_slice(b"@")?;
    text.extend_from_slice(host)?;
    text.extend_from_slice(b">")?;
    Ok(text)
}
