// Sixteen random bytes as they stand in a script.

ghost use Rattle.std.specs.Prelude.{◌≡◌, ◌++◌, OnOk};
ghost use Rattle.std.specs.Char.{is_ascii_uppercase};
ghost use Rattle.std.specs.List.{list_any};
ghost use Rattle.da_script.specs.Random.{AreRandom, digits_of, random_of, random_text, unless_zero};

use std::alloc::{AllocError, Global};

const NO_RANDOM: [u8; 16] = [0; 16];

// The bytes that the text stands for: `-` for sixteen zero bytes, else 32 lower-case hexadecimal digits that aren't all
// `0`. `None` exactly where it is neither.
pub(crate) fn random_of(text: &[u8]) -> Option<[u8; 16]>
    ensures { result ≡ random_of text.now }
{
    if text == b"-".as_slice() {
        Some(NO_RANDOM)
    } else {
        digits_of(text)
    }
}

fn digits_of(text: &[u8]) -> Option<[u8; 16]>
    ensures { result ≡ digits_of text.now }
{
    if has_capitals(text) {
        return None;
    }
    let mut random = NO_RANDOM;
    match hex::decode_to_slice(text, &mut random) {
        Ok(()) => unless_zero(random),
        Err(_) => None,
    }
}

fn has_capitals(text: &[u8]) -> bool
    ensures { result ≡ list_any is_ascii_uppercase text.now }
{
    text.iter().any(|c| c.is_ascii_uppercase())
}

fn unless_zero(random: [u8; 16]) -> Option<[u8; 16]>
    ensures { result ≡ unless_zero random }
{
    if random == NO_RANDOM {
        None
    } else {
        Some(random)
    }
}

// Puts the bytes, as they stand in a script, at the end of a line.
pub(crate) fn push_random(
    line: &mut Vec<u8>,
    alloc: Global,
    random: &[u8; 16],
) -> Result<(), AllocError>
    ensures line { OnOk result (line.new.items ≡ line.old.items ++ random_text random.now) }
    ensures sixteen { AreRandom random.now }
{
    if *random == NO_RANDOM {
        return line.extend_from_slice(b"-");
    }
    let digits = hex::encode(alloc, random.as_slice())?;
    line.extend_from_slice(digits.as_bytes())
}
