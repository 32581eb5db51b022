// The message of OAUTHBEARER.

ghost use Rattle.std.specs.Prelude.{◌≡◌, [], ◌∷◌, IfOk, option_copied, option_map, option_and_then};
ghost use Rattle.da_base.specs.Words.{after_front};
ghost use Rattle.da_token.specs.Reading.{bearer_after_flag, bearer_of, bearer_read, token_after, token_read};

use crate::pairs::token_after;
use crate::token::{Token, read_token};
use da_fields::Text;
use da_scram::{is_flag, read_authzid};
use da_tabline::{split_at_byte, strip_front};
use std::alloc::{AllocError, Global};

/// What a message presents.
#[derive(Drop)]
pub struct Bearer {
    /// The authorization identity, or empty.
    pub authzid: Text,
    pub token: Token,
}

/// What a message presents (RFC 7628, section 3.1). `None` exactly where the text is none, or its token is none.
#[tactic(auto, unfolding(crate::specs::Reading::bearer_read))]
pub(crate) fn read_bearer(alloc: Global, text: &[u8]) -> Result<Option<Bearer>, AllocError>
    ensures { IfOk result (λ bearer. bearer ≡ bearer_read text.now) }
{
    match split_at_byte(text, b',') {
        Some((flag, rest)) if is_flag(flag) => read_after_flag(alloc, rest),
        _ => Ok(None),
    }
}

fn read_after_flag(alloc: Global, rest: &[u8]) -> Result<Option<Bearer>, AllocError>
    ensures { IfOk result (λ bearer. bearer ≡ bearer_after_flag rest.now) }
{
    let Some((authzid, after_authzid)) = split_at_byte(rest, b',') else {
        return Ok(None);
    };
    let Some(token) = token_in(after_authzid) else {
        return Ok(None);
    };
    match read_authzid(alloc, authzid)? {
        Some(authzid) => read_token_of(alloc, authzid, token),
        None => Ok(None),
    }
}

// The token in what follows the header, which begins with 0x01.
fn token_in(text: &[u8]) -> Option<&[u8]>
    ensures { option_copied result
        ≡ option_and_then token_after (after_front (1 ∷ []) text.now) }
{
    match strip_front(text, &[1]) {
        Some(body) => token_after(body),
        None => None,
    }
}

fn read_token_of(alloc: Global, authzid: Text, token: &[u8]) -> Result<Option<Bearer>, AllocError>
    ensures { IfOk result
        (λ bearer. bearer ≡ option_map (bearer_of authzid) (token_read token.now)) }
{
    match read_token(alloc, token)? {
        Some(token) => Ok(Some(Bearer { authzid, token })),
        None => Ok(None),
    }
}
