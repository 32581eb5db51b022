// The response of a client.

ghost use Rattle.std.specs.Prelude.{◌≡◌, [], None, IfOk, bytes_eq, option_copied};
ghost use Rattle.std.specs.List.{list_all};
ghost use Rattle.da_fields.specs.declared.said.Said.TheVariants.{Need};
ghost use Rattle.da_schemes.specs.Stored.{plaintext_of};
ghost use Rattle.da_cram.specs.Cram.{CramSays, cram_says, messages_say, credentials_say, message_says, is_response, right_digits, is_lower_hex};

use da_fields::{Said, Text};
use da_schemes::{Stored, hmac_md5, same_bytes};
use da_tabline::hex_digits;
use std::alloc::{AllocError, Global};

// How many hexadecimal digits a digest has.
const DIGITS: usize = 32;

/// What CRAM-MD5 says to the messages so far (RFC 2195, section 2): the challenge to none; to one that is a user name, a
/// space and a digest, `Need` for that user, or with a stored plaintext password whether the digest is right. `Bad` to a
/// message of another form, to a second one, and wherever the stored password is not of a plaintext scheme.
pub fn says(
    alloc: Global,
    messages: &[Text],
    challenge: &[u8],
    stored: Option<&Stored>,
) -> Result<Said, AllocError>
    ensures says { IfOk result (λ said. CramSays challenge.now messages.now (option_copied stored.entry) said) }
    ensures value { IfOk result (λ said. said ≡ cram_says challenge.now messages.now (option_copied stored.entry)) }
{
    said_to(alloc, messages, challenge, stored)
}

#[tactic(auto, unfolding(crate::specs::Cram::cram_says))]
fn said_to(
    alloc: Global,
    messages: &[Text],
    challenge: &[u8],
    stored: Option<&Stored>,
) -> Result<Said, AllocError>
    ensures { IfOk result (λ said. said ≡ cram_says challenge.now messages.now (option_copied stored.entry)) }
{
    match stored {
        None => said_under(alloc, messages, challenge, None),
        Some(stored) => said_with(alloc, messages, challenge, stored),
    }
}

fn said_with(
    alloc: Global,
    messages: &[Text],
    challenge: &[u8],
    stored: &Stored,
) -> Result<Said, AllocError>
    ensures { IfOk result (λ said. said ≡ credentials_say challenge.now messages.now (plaintext_of stored.now)) }
{
    match stored.plain() {
        None => Ok(Said::Bad),
        Some(plain) => said_under(alloc, messages, challenge, Some(plain)),
    }
}

// What is said where the password is this plaintext, or is not known yet.
fn said_under(
    alloc: Global,
    messages: &[Text],
    challenge: &[u8],
    plain: Option<&[u8]>,
) -> Result<Said, AllocError>
    ensures { IfOk result (λ said. said ≡ messages_say challenge.now messages.now (option_copied plain.entry)) }
{
    match messages {
        [] => Ok(Said::Challenge(Text::from_slice(alloc, challenge)?)),
        [message] => said_to_message(alloc, message.bytes(), challenge, plain),
        _ => Ok(Said::Bad),
    }
}

fn said_to_message(
    alloc: Global,
    message: &[u8],
    challenge: &[u8],
    plain: Option<&[u8]>,
) -> Result<Said, AllocError>
    ensures { IfOk result (λ said. said ≡ message_says challenge.now message.now (option_copied plain.entry)) }
{
    if !is_response(message) {
        return Ok(Said::Bad);
    }
    let digits = message.len() - DIGITS;
    match plain {
        None => need(alloc, &message[..digits - 1]),
        Some(plain) => Ok(Said::Proof {
            right: is_right(alloc, &message[digits..], challenge, plain)?,
            last: None,
        }),
    }
}

fn need(alloc: Global, name: &[u8]) -> Result<Said, AllocError>
    ensures { IfOk result (λ said. said ≡ Need name.now [] None) }
{
    Ok(Said::Need {
        user: Text::from_slice(alloc, name)?,
        authzid: Text::new(Vec::new(alloc)),
        password: None,
    })
}

// Whether these are the digits of the challenge's digest, keyed by the password.
fn is_right(
    alloc: Global,
    digits: &[u8],
    challenge: &[u8],
    plain: &[u8],
) -> Result<bool, AllocError>
    ensures { IfOk result (λ right. right ≡ bytes_eq digits.now (right_digits challenge.now plain.now)) }
{
    let digest = hmac_md5(plain, challenge);
    Ok(same_bytes(digits, &hex_digits(alloc, &digest)?))
}

// Whether the message is a name, a space and 32 lower-case hexadecimal digits.
fn is_response(message: &[u8]) -> bool
    ensures { result ≡ is_response message.now }
{
    if message.len() <= DIGITS + 1 {
        return false;
    }
    let digits = message.len() - DIGITS;
    message[digits - 1] == b' ' && are_digits(&message[digits..])
}

fn are_digits(text: &[u8]) -> bool
    ensures { result ≡ list_all is_lower_hex text.now }
{
    text.iter().all(|byte| is_lower_hex(*byte))
}

fn is_lower_hex(byte: u8) -> bool
    ensures { result ≡ is_lower_hex byte }
{
    matches!(byte, b'0'..=b'9' | b'a'..=b'f')
}
