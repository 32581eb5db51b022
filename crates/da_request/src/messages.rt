// What a client has said.

ghost use Rattle.std.specs.Prelude.{◌≡◌, ◌∷◌, ◌++◌, IfOk, Some, option_and_then, option_map};
ghost use Rattle.da_base.specs.Words.{from_base64};
ghost use Rattle.da_request.specs.Attempts.{said, decoded, initial_response};

use da_fields::Text;
use da_msgs::Mech;
use da_settings::Texts;
use da_tabline::from_base64;
use std::alloc::{AllocError, Global};

/// The client's messages: that of `resp=`, and then those of its `CONT` lines. `None` exactly where they are bad as a
/// whole: where one is not in base64, or CRAM-MD5, whose server speaks first, has a text in `resp=`.
#[tactic(auto, unfolding(crate::specs::Attempts::said))]
pub(crate) fn said(
    alloc: Global,
    mech: Mech,
    resp: &Option<Text>,
    texts: &[Text],
) -> Result<Option<Texts>, AllocError>
    ensures { IfOk result (λ messages. messages ≡ said mech resp.now texts.now) }
{
    match resp {
        None => decoded(alloc, texts),
        Some(text) => said_with(alloc, mech, text, texts),
    }
}

// The messages where there is a text of `resp=`: an empty one counts for PLAIN alone.
fn said_with(
    alloc: Global,
    mech: Mech,
    text: &Text,
    texts: &[Text],
) -> Result<Option<Texts>, AllocError>
    ensures { IfOk result (λ messages. messages ≡ option_and_then (λ first. decoded (first ++ texts.now)) (initial_response mech (Some text.now))) }
{
    match mech {
        Mech::Plain => decoded_both(alloc, text, texts),
        _ if text.bytes().is_empty() => decoded(alloc, texts),
        Mech::CramMd5 => Ok(None),
        Mech::Login | Mech::ScramSha256 => decoded_both(alloc, text, texts),
    }
}

#[tactic(auto, using(crate::proofs::DecodedMessages::none_before))]
fn decoded(alloc: Global, texts: &[Text]) -> Result<Option<Texts>, AllocError>
    ensures { IfOk result (λ messages. messages ≡ decoded texts.now) }
{
    decoded_after(Vec::new(alloc), alloc, texts)
}

#[tactic(auto, using(crate::proofs::DecodedMessages::one_before, crate::proofs::DecodedMessages::none_before))]
fn decoded_both(alloc: Global, first: &Text, texts: &[Text]) -> Result<Option<Texts>, AllocError>
    ensures { IfOk result (λ messages. messages ≡ decoded (first.now ∷ texts.now)) }
{
    let Some(message) = decoded_text(alloc, first.bytes())? else {
        return Ok(None);
    };
    let mut messages = Vec::new(alloc);
    messages.push(message)?;
    decoded_after(messages, alloc, texts)
}

// These messages, and then the texts decoded. `None` exactly where one can't be.
fn decoded_after(
    messages: Vec<Text>,
    alloc: Global,
    texts: &[Text],
) -> Result<Option<Texts>, AllocError>
    ensures { IfOk result (λ all. all ≡ option_map (λ rest. messages.items ++ rest) (decoded texts.now)) }
{
    let mut messages = messages;
    for text in texts {
        let Some(message) = decoded_text(alloc, text.bytes())? else {
            return Ok(None);
        };
        messages.push(message)?;
    }
    Ok(Some(Texts::new(messages)))
}

// The bytes that a strict encoding in base64 stands for.
fn decoded_text(alloc: Global, text: &[u8]) -> Result<Option<Text>, AllocError>
    ensures { IfOk result (λ bytes. bytes ≡ from_base64 text.now) }
{
    match from_base64(alloc, text)? {
        Some(bytes) => Ok(Some(Text::new(bytes))),
        None => Ok(None),
    }
}
