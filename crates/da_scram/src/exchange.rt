// What SCRAM-SHA-256 says to a client's messages.

ghost use Rattle.std.specs.Prelude.{◌≡◌, ◌∷◌, [], IfOk, option_copied};
ghost use Rattle.da_base.specs.Words.{Bytes};
ghost use Rattle.da_schemes.specs.Stored.{scram_keys};
ghost use Rattle.da_scram.specs.Scram.{ScramSays};
ghost use Rattle.da_scram.specs.Reading.{scram_says, messages_need, keys_say, first_need, first_message};

use crate::final_message::read_final;
use crate::first_message::{cut_first, read_first, read_names};
use crate::server::{said_to_proof, server_first, signed_text};
use da_fields::{Said, Text};
use da_schemes::{Stored, scram_keys, scram_salt};
use std::alloc::{AllocError, Global};

/// What SCRAM-SHA-256 says to the messages so far (RFC 5802, section 3; RFC 7677), where `nonce` is the server's own nonce
/// and `salt` that of a plaintext password. To no message an empty challenge. Without a stored password only the first
/// message is looked at, and its user is needed. With one the first message is answered by the challenge, and the second by
/// whether its proof is right, with the server's last message. `Bad` to a message of another form, to a third one, and
/// wherever the stored password is neither of a plaintext scheme nor SCRAM-SHA-256.
pub fn says(
    alloc: Global,
    messages: &[Text],
    nonce: &[u8],
    salt: &[u8; 16],
    stored: Option<&Stored>,
) -> Result<Said, AllocError>
    ensures says { IfOk result (λ said. ScramSays nonce.now salt.now messages.now (option_copied stored.entry) said) }
    ensures value { IfOk result (λ said. said ≡ scram_says nonce.now salt.now messages.now (option_copied stored.entry)) }
{
    said_to(alloc, messages, nonce, salt, stored)
}

#[tactic(auto, unfolding(crate::specs::Reading::scram_says))]
fn said_to(
    alloc: Global,
    messages: &[Text],
    nonce: &[u8],
    salt: &[u8; 16],
    stored: Option<&Stored>,
) -> Result<Said, AllocError>
    ensures { IfOk result (λ said. said ≡ scram_says nonce.now salt.now messages.now (option_copied stored.entry)) }
{
    match stored {
        None => said_before(alloc, messages),
        Some(stored) => said_with(alloc, messages, nonce, salt, stored),
    }
}

// What is said before the user's password is known.
fn said_before(alloc: Global, messages: &[Text]) -> Result<Said, AllocError>
    ensures { IfOk result (λ said. said ≡ messages_need messages.now) }
{
    match messages.split_first() {
        None => Ok(Said::Challenge(Text::new(Vec::new(alloc)))),
        Some((first, _)) => need(alloc, first.bytes()),
    }
}

// The user whom a first message names.
fn need(alloc: Global, text: &[u8]) -> Result<Said, AllocError>
    ensures { IfOk result (λ said. said ≡ first_need (first_message text.now)) }
{
    let Some(first) = cut_first(text) else {
        return Ok(Said::Bad);
    };
    match read_names(alloc, first.authzid, first.name)? {
        Some(names) => Ok(Said::Need {
            user: names.name,
            authzid: names.authzid,
            password: None,
        }),
        None => Ok(Said::Bad),
    }
}

fn said_with(
    alloc: Global,
    messages: &[Text],
    nonce: &[u8],
    salt: &[u8; 16],
    stored: &Stored,
) -> Result<Said, AllocError>
    ensures { IfOk result (λ said. said ≡ keys_say nonce.now (scram_keys salt.now stored.now) messages.now) }
{
    match messages {
        [] => opened(alloc, salt, stored),
        [first] => challenged(alloc, first.bytes(), nonce, salt, stored),
        [first, last] => ended(alloc, first.bytes(), last.bytes(), nonce, salt, stored),
        _ => Ok(Said::Bad),
    }
}

fn opened(alloc: Global, salt: &[u8; 16], stored: &Stored) -> Result<Said, AllocError>
    ensures { (nonce : Bytes) → IfOk result (λ said. said ≡ keys_say nonce (scram_keys salt.now stored.now) []) }
{
    match scram_salt(stored, salt) {
        Some(_) => Ok(Said::Challenge(Text::new(Vec::new(alloc)))),
        None => Ok(Said::Bad),
    }
}

// What is said to a first message.
fn challenged(
    alloc: Global,
    text: &[u8],
    nonce: &[u8],
    salt: &[u8; 16],
    stored: &Stored,
) -> Result<Said, AllocError>
    ensures { IfOk result (λ said. said ≡ keys_say nonce.now (scram_keys salt.now stored.now) (text.now ∷ [])) }
{
    let Some(first) = read_first(alloc, text)? else {
        return Ok(Said::Bad);
    };
    match scram_salt(stored, salt) {
        Some((salt, rounds)) => {
            let challenge = server_first(alloc, first.nonce, nonce, salt, rounds)?;
            Ok(Said::Challenge(Text::new(challenge)))
        }
        None => Ok(Said::Bad),
    }
}

// What is said to a first message and a last one. The rounds are done only where both are on their form.
fn ended(
    alloc: Global,
    text: &[u8],
    last: &[u8],
    nonce: &[u8],
    salt: &[u8; 16],
    stored: &Stored,
) -> Result<Said, AllocError>
    ensures { IfOk result (λ said. said ≡ keys_say nonce.now (scram_keys salt.now stored.now) (text.now ∷ last.now ∷ [])) }
{
    let Some(first) = read_first(alloc, text)? else {
        return Ok(Said::Bad);
    };
    let Some(last) = read_final(alloc, first.header, first.nonce, nonce, last)? else {
        return Ok(Said::Bad);
    };
    match scram_keys(alloc, stored, salt)? {
        Some(keys) => {
            let challenge = server_first(
                alloc,
                first.nonce,
                nonce,
                keys.salt.bytes(),
                keys.rounds,
            )?;
            let signed = signed_text(alloc, first.bare, &challenge, last.without_proof)?;
            said_to_proof(alloc, &keys, &signed, &last.proof)
        }
        None => Ok(Said::Bad),
    }
}
