// What mechanisms say to a client's messages.

ghost use Rattle.std.specs.Prelude.{◌≡◌, IfOk, option_copied};
ghost use Rattle.da_base.specs.Words.{hex};
ghost use Rattle.da_cram.specs.Cram.{cram_says, cram_challenge};
ghost use Rattle.da_request.specs.Attempts.{mechanism_says};
ghost use Rattle.da_scram.specs.Reading.{scram_says};
ghost use Rattle.da_scram.specs.Scram.{request_salt};

use crate::attempts::Attempt;
use da_cram::challenge;
use da_fields::{Said, Text};
use da_msgs::Mech;
use da_plain::{login_says, plain_says};
use da_schemes::Stored;
use da_scram::request_salt;
use da_settings::Settings;
use da_tabline::hex_digits;
use std::alloc::{AllocError, Global};

/// What the mechanism says to the messages of an attempt, with these credentials or without.
pub(crate) fn mechanism_says(
    alloc: Global,
    mech: Mech,
    settings: &Settings,
    attempt: &Attempt<'_>,
    credentials: Option<&Stored>,
) -> Result<Said, AllocError>
    ensures { IfOk result (λ said. said ≡ mechanism_says mech settings.now attempt.now attempt.now.messages (option_copied credentials.entry)) }
{
    let Some(messages) = &attempt.messages else {
        return Ok(Said::Bad);
    };
    match mech {
        Mech::Plain => plain_says(alloc, messages.all()),
        Mech::Login => login_says(alloc, messages.all()),
        Mech::CramMd5 => cram_md5_says(
            alloc,
            messages.all(),
            attempt.random,
            attempt.start,
            settings.host.bytes(),
            credentials,
        ),
        Mech::ScramSha256 => {
            scram_sha256_says(alloc, messages.all(), attempt.random, credentials)
        }
    }
}

fn cram_md5_says(
    alloc: Global,
    messages: &[Text],
    random: &[u8; 16],
    start: u64,
    host: &[u8],
    credentials: Option<&Stored>,
) -> Result<Said, AllocError>
    ensures { IfOk result (λ said. said ≡ cram_says (cram_challenge random.now start host.now) messages.now (option_copied credentials.entry)) }
{
    let text = challenge(alloc, random, start, host)?;
    da_cram::says(alloc, messages, &text, credentials)
}

fn scram_sha256_says(
    alloc: Global,
    messages: &[Text],
    random: &[u8; 16],
    credentials: Option<&Stored>,
) -> Result<Said, AllocError>
    ensures { IfOk result (λ said. said ≡ scram_says (hex random.now) (request_salt random.now) messages.now (option_copied credentials.entry)) }
{
    let nonce = hex_digits(alloc, random)?;
    let salt = request_salt(random);
    da_scram::says(alloc, messages, &nonce, &salt, credentials)
}
