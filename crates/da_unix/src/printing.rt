// Which bytes are told to a person.

ghost use Rattle.std.specs.Prelude.{◌≡◌, IfOk, map, All};
ghost use Rattle.da_unix.specs.Shown.{IsShown, shown_byte};

use std::alloc::{AllocError, Global};

// What stands for a byte that isn't a printing one of ASCII.
const HIDDEN: u8 = b'?';

fn show(byte: u8) -> u8
    ensures { result ≡ shown_byte byte }
{
    if byte >= b' ' && byte <= b'~' {
        byte
    } else {
        HIDDEN
    }
}

/// The text with no byte that a terminal or a log would take for more than a sign.
pub fn shown(alloc: Global, text: &[u8]) -> Result<Vec<u8>, AllocError>
    ensures value { IfOk result (λ shown. shown.items ≡ map shown_byte text.now) }
    ensures shown { IfOk result (λ shown. All IsShown shown.items) }
{
    let mut shown = Vec::with_capacity(alloc, text.len())?;
    for byte in text {
        shown.push(show(*byte))?;
    }
    Ok(shown)
}
