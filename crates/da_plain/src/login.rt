// The mechanism LOGIN.

ghost use Rattle.std.specs.Prelude.{◌≡◌, ◌∷◌, [], IfOk};
ghost use Rattle.da_fields.specs.declared.said.Said.TheVariants.{Challenge};
ghost use Rattle.da_plain.specs.Login.{LoginSays};
ghost use Rattle.da_plain.specs.Login.{both_say, login_says, name_says};

use da_fields::{Said, Text};
use std::alloc::{AllocError, Global};

/// What LOGIN says to the messages so far: it prompts for a user name and then for a password, neither empty. `Bad` to an
/// empty message, and to a third one.
pub fn login_says(alloc: Global, messages: &[Text]) -> Result<Said, AllocError>
    ensures says { IfOk result (λ said. LoginSays messages.now said) }
    ensures value { IfOk result (λ said. said ≡ login_says messages.now) }
{
    said_to(alloc, messages)
}

#[tactic(auto, unfolding(crate::specs::Login::login_says))]
fn said_to(alloc: Global, messages: &[Text]) -> Result<Said, AllocError>
    ensures { IfOk result (λ said. said ≡ login_says messages.now) }
{
    match messages {
        [] => challenge(alloc, b"Username:"),
        [name] => said_to_name(alloc, name.bytes()),
        [name, password] => said_to_both(alloc, name, password),
        _ => Ok(Said::Bad),
    }
}

fn said_to_name(alloc: Global, name: &[u8]) -> Result<Said, AllocError>
    ensures { IfOk result (λ said. said ≡ name_says name.now) }
{
    if name.is_empty() {
        return Ok(Said::Bad);
    }
    challenge(alloc, b"Password:")
}

fn said_to_both(alloc: Global, name: &Text, password: &Text) -> Result<Said, AllocError>
    ensures { IfOk result (λ said. said ≡ both_say name.now password.now) }
{
    if name.bytes().is_empty() || password.bytes().is_empty() {
        return Ok(Said::Bad);
    }
    Ok(Said::Need {
        user: name.copy(alloc)?,
        authzid: Text::new(Vec::new(alloc)),
        password: Some(password.copy(alloc)?),
    })
}

fn challenge(alloc: Global, text: &[u8]) -> Result<Said, AllocError>
    ensures { IfOk result (λ said. said ≡ Challenge text.now) }
{
    Ok(Said::Challenge(Text::from_slice(alloc, text)?))
}
