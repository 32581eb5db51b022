// The escapes of a field.

ghost use Rattle.std.specs.Prelude.{◌≡◌, ◌++◌, ◌∷◌, ℕ, List, [], map, IfOk, OnOk, MatchOption};
ghost use Rattle.da_base.specs.Words.{Bytes, pieces};
ghost use Rattle.da_tabline.specs.Escapes.{escape, escaped_byte, letter, unescape};

use crate::pieces::fields;
use std::alloc::{AllocError, Global};

// What stands before the letter of a byte that a line can't hold.
const ESCAPE: u8 = 0x01;

/// The text as it stands in a field: 0x01 and a letter for NUL, 0x01, TAB, CR and LF, and each other byte as itself.
pub fn escape(alloc: Global, text: &[u8]) -> Result<Vec<u8>, AllocError>
    ensures { IfOk result (λ v. v.items ≡ escape text.now) }
{
    let mut field = Vec::new(alloc);
    push_escaped(&mut field, text)?;
    Ok(field)
}

// Puts the text, as it stands in a field, at the end of a line.
pub(crate) fn push_escaped(line: &mut Vec<u8>, text: &[u8]) -> Result<(), AllocError>
    ensures { OnOk result (line.new.items ≡ line.old.items ++ escape text.now) }
{
    for byte in text {
        match letter_of(*byte) {
            Some(letter) => line.extend_from_slice(&[ESCAPE, letter])?,
            None => line.push(*byte)?,
        }
    }
    Ok(())
}

fn letter_of(byte: u8) -> Option<u8>
    ensures { MatchOption result (escaped_byte byte ≡ byte ∷ []) (λ letter. escaped_byte byte ≡ 1 ∷ letter ∷ []) }
{
    match byte {
        0x00 => Some(b'0'),
        ESCAPE => Some(b'1'),
        b'\t' => Some(b't'),
        b'\r' => Some(b'r'),
        b'\n' => Some(b'n'),
        _ => None,
    }
}

/// The text that a field stands for: 0x01 and one of the five letters is their byte, 0x01 before another byte is dropped,
/// and so is a 0x01 at the end.
pub fn unescape(alloc: Global, field: &[u8]) -> Result<Vec<u8>, AllocError>
    ensures { IfOk result (λ v. v.items ≡ unescape field.now) }
{
    let mut text = Vec::new(alloc);
    let mut is_escaped = false;
    for byte in field {
        if is_escaped {
            text.push(byte_of_letter(*byte))?;
            is_escaped = false;
        } else if *byte == ESCAPE {
            is_escaped = true;
        } else {
            text.push(*byte)?;
        }
    }
    Ok(text)
}

fn byte_of_letter(c: u8) -> u8
    ensures { result ≡ letter c }
{
    match c {
        b'0' => 0x00,
        b'1' => ESCAPE,
        b't' => b'\t',
        b'r' => b'\r',
        b'n' => b'\n',
        _ => c,
    }
}

/// The texts of the fields of a line: it is cut at TAB, and then each piece is read.
pub fn unescaped_fields(alloc: Global, line: &[u8]) -> Result<Vec<Vec<u8>>, AllocError>
    ensures { IfOk result (λ v. map (λ f. f.items) v.items ≡ map unescape (pieces 9 line.now)) }
{
    let pieces = fields(alloc, line)?;
    let mut texts = Vec::new(alloc);
    for piece in &pieces {
        texts.push(unescape(alloc, piece)?)?;
    }
    Ok(texts)
}

/// What is escaped is read again.
pub fn what_is_escaped_is_read()
    ensures { (text : List ℕ) → unescape (escape text) ≡ text }
{}
