// The mechanism PLAIN.

ghost use Rattle.std.specs.Prelude.{◌≡◌, ◌∷◌, [], IfOk, MatchOption};
ghost use Rattle.da_base.specs.Words.{pieces};
ghost use Rattle.da_fields.specs.declared.said.Said.TheVariants.{Bad};
ghost use Rattle.da_plain.specs.Plain.{PlainSays, plain_parts};
ghost use Rattle.da_plain.specs.Plain.{plain_says};

use da_fields::{Said, Text};
use da_tabline::split_at_byte;
use std::alloc::{AllocError, Global};

/// What PLAIN says to the messages so far (RFC 4616, section 2): an empty challenge to none; to one, the user, the
/// authorization identity and the password that it names; `Bad` to a message of another form, and to a second one.
pub fn plain_says(alloc: Global, messages: &[Text]) -> Result<Said, AllocError>
    ensures says { IfOk result (λ said. PlainSays messages.now said) }
    ensures value { IfOk result (λ said. said ≡ plain_says messages.now) }
{
    said_to(alloc, messages)
}

#[tactic(auto, unfolding(crate::specs::Plain::plain_says))]
fn said_to(alloc: Global, messages: &[Text]) -> Result<Said, AllocError>
    ensures { IfOk result (λ said. said ≡ plain_says messages.now) }
{
    match messages {
        [] => Ok(Said::Challenge(Text::new(Vec::new(alloc)))),
        [message] => said_to_message(alloc, message.bytes()),
        _ => Ok(Said::Bad),
    }
}

fn said_to_message(alloc: Global, message: &[u8]) -> Result<Said, AllocError>
    ensures { IfOk result (λ said. said ≡ plain_parts (pieces 0 message.now)) }
{
    match three_parts(message) {
        Some((authzid, name, password)) => said_to_parts(alloc, authzid, name, password),
        None => Ok(Said::Bad),
    }
}

fn said_to_parts(
    alloc: Global,
    authzid: &[u8],
    name: &[u8],
    password: &[u8],
) -> Result<Said, AllocError>
    ensures { IfOk result (λ said. said ≡ plain_parts (authzid.now ∷ name.now ∷ password.now ∷ [])) }
{
    if name.is_empty() || password.is_empty() {
        return Ok(Said::Bad);
    }
    Ok(Said::Need {
        user: Text::from_slice(alloc, name)?,
        authzid: Text::from_slice(alloc, authzid)?,
        password: Some(Text::from_slice(alloc, password)?),
    })
}

// The parts of a message with two NULs between them, and no more.
fn three_parts(message: &[u8]) -> Option<(&[u8], &[u8], &[u8])>
    ensures { MatchOption result (plain_parts (pieces 0 message.now) ≡ Bad) (λ p. pieces 0 message.now ≡ p.0.now ∷ p.1.now ∷ p.2.now ∷ []) }
{
    let Some((authzid, after_authzid)) = split_at_byte(message, 0) else {
        return None;
    };
    let Some((name, password)) = split_at_byte(after_authzid, 0) else {
        return None;
    };
    match split_at_byte(password, 0) {
        None => Some((authzid, name, password)),
        Some(_) => None,
    }
}
