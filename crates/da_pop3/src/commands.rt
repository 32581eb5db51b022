// The texts of a client's lines.

ghost use Rattle.std.specs.Prelude.{◌≡◌, IfOk, bytes_eq, map};
ghost use Rattle.std.specs.List.{list_all};
ghost use Rattle.da_base.specs.Words.{upper};
ghost use Rattle.da_pop3.specs.Commands.{is_argument, is_mechanism_byte, is_mechanism, is_base64_byte, is_base64, is_first_message, first_message};

use std::alloc::{AllocError, Global};

pub(crate) fn capitals(alloc: Global, text: &[u8]) -> Result<Vec<u8>, AllocError>
    ensures { IfOk result (λ v. v.items ≡ map upper text.now) }
{
    text.to_ascii_uppercase(alloc)
}

pub(crate) fn is_argument(text: &[u8]) -> bool
    ensures { result ≡ is_argument text.now }
{
    !text.is_empty() && !text.contains(&0)
}

fn is_mechanism_byte(byte: u8) -> bool
    ensures { result ≡ is_mechanism_byte byte }
{
    byte.is_ascii_alphanumeric() || byte == b'-' || byte == b'_'
}

fn has_only_mechanism_bytes(name: &[u8]) -> bool
    ensures { result ≡ list_all is_mechanism_byte name.now }
{
    for byte in name {
        if !is_mechanism_byte(*byte) {
            return false;
        }
    }
    true
}

pub(crate) fn is_mechanism(name: &[u8]) -> bool
    ensures { result ≡ is_mechanism name.now }
{
    !name.is_empty() && has_only_mechanism_bytes(name)
}

fn is_base64_byte(byte: u8) -> bool
    ensures { result ≡ is_base64_byte byte }
{
    byte.is_ascii_alphanumeric() || byte == b'+' || byte == b'/' || byte == b'='
}

pub(crate) fn is_base64(text: &[u8]) -> bool
    ensures { result ≡ is_base64 text.now }
{
    for byte in text {
        if !is_base64_byte(*byte) {
            return false;
        }
    }
    true
}

pub(crate) fn is_first_message(text: &[u8]) -> bool
    ensures { result ≡ is_first_message text.now }
{
    !text.is_empty() && is_base64(text)
}

// `=` stands for the empty message.
pub(crate) fn first_message(text: &[u8]) -> &[u8]
    ensures { result.now ≡ first_message text.now }
{
    if text == b"=".as_slice() { b"" } else { text }
}
