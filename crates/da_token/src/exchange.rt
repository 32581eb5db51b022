// What OAUTHBEARER says to a client's messages.

ghost use Rattle.std.specs.Prelude.{◌≡◌, None, IfOk, option_copied};
ghost use Rattle.da_fields.specs.declared.said.Said.TheVariants.{Need};
ghost use Rattle.da_token.specs.OauthBearer.{OauthBearerSays, judged_says};
ghost use Rattle.da_token.specs.Reading.{oauth_bearer_says};

use crate::judging::is_right;
use crate::key::TokenKey;
use crate::message::{Bearer, read_bearer};
use da_fields::{Said, Text};
use da_schemes::Stored;
use std::alloc::{AllocError, Global};

/// What a client is told of a wrong token (RFC 7628, section 3.2.2).
const ERROR_STATUS: &[u8] = b"{\"status\":\"invalid_token\"}";

/// What OAUTHBEARER says to the messages so far (RFC 7628, section 3), in a request that started at `start`, in milliseconds
/// after 1970-01-01. To no message an empty challenge. Without a stored password only the first message is looked at, and
/// the subject of its token is needed. With one a token that is right at the start is a right proof, and one that is wrong
/// is answered by a challenge that tells so, and after any second message is a wrong proof. `Bad` to a first message off its
/// form, to a message after a right token, and to a third one. The only error is want of memory.
pub fn says(
    alloc: Global,
    messages: &[Text],
    keys: &[TokenKey],
    issuer: &[u8],
    start: u64,
    stored: Option<&Stored>,
) -> Result<Said, AllocError>
    ensures says { IfOk result (λ said. OauthBearerSays
        keys.now issuer.now start messages.now (option_copied stored.entry) said) }
    ensures value { IfOk result (λ said. said
        ≡ oauth_bearer_says keys.now issuer.now start messages.now (option_copied stored.entry)) }
{
    said_to(alloc, messages, keys, issuer, start, stored)
}

#[tactic(auto, unfolding(crate::specs::Reading::oauth_bearer_says))]
fn said_to(
    alloc: Global,
    messages: &[Text],
    keys: &[TokenKey],
    issuer: &[u8],
    start: u64,
    stored: Option<&Stored>,
) -> Result<Said, AllocError>
    ensures { IfOk result (λ said. said
        ≡ oauth_bearer_says keys.now issuer.now start messages.now (option_copied stored.entry)) }
{
    let Some((first, more)) = messages.split_first() else {
        return Ok(Said::Challenge(Text::new(Vec::new(alloc))));
    };
    match read_bearer(alloc, first.bytes())? {
        None => Ok(Said::Bad),
        Some(bearer) if stored.is_none() => Ok(needed(bearer)),
        Some(bearer) => said_to_token(alloc, is_right(keys, issuer, start, &bearer.token), more),
    }
}

// The user whom a token is for.
fn needed(bearer: Bearer) -> Said
    ensures { result ≡ Need bearer.token.claims.subject bearer.authzid None }
{
    let Bearer { authzid, token } = bearer;
    let claims = token.claims;
    Said::Need {
        user: claims.subject,
        authzid,
        password: None,
    }
}

// What is said to a token that is right or wrong, and to the messages after it.
fn said_to_token(alloc: Global, right: bool, more: &[Text]) -> Result<Said, AllocError>
    ensures { IfOk result (λ said. said ≡ judged_says right more.now) }
{
    match more {
        [] if right => Ok(Said::Proof { right, last: None }),
        [] => Ok(Said::Challenge(Text::from_slice(alloc, ERROR_STATUS)?)),
        [_] if !right => Ok(Said::Proof { right, last: None }),
        _ => Ok(Said::Bad),
    }
}
