// What comes of an attempt to log in before any database is asked.

ghost use Rattle.std.specs.Prelude.{◌≡◌, [], IfOk};
ghost use Rattle.da_base.specs.Words.{option_or_else};
ghost use Rattle.da_fields.specs.FieldList.{field};
ghost use Rattle.da_request.specs.Attempts.{opening, opening_said, opening_named, fails_for, login_proof, vars_for};

use crate::attempts::Attempt;
use crate::failures::FailedBy;
use crate::mechanisms::mechanism_says;
use crate::names::names;
use crate::stages::{Decision, Stage};
use da_fields::{Fields, Said, Text};
use da_msgs::Mech;
use da_names::{VarText, Vars};
use da_passdb::{Login, Proof};
use da_settings::Settings;
use std::alloc::{AllocError, Global};

/// What comes of an attempt before any database is asked.
#[derive(Drop)]
pub enum Opening {
    /// Its stage stands already.
    Immediate(Stage),
    /// It is a login.
    LogsIn(Mech, Login),
}

/// What comes of the attempt before any database is asked: nothing but its own messages decides.
#[tactic(auto, unfolding(crate::specs::Attempts::opening))]
pub fn opening_of(
    alloc: Global,
    settings: &Settings,
    attempt: &Attempt<'_>,
) -> Result<Opening, AllocError>
    ensures { IfOk result (λ value. value ≡ opening settings.now attempt.now) }
{
    match attempt.mech {
        None => immediate_failure(alloc, b"Unsupported mechanism"),
        Some(mech) => {
            let said = mechanism_says(alloc, mech, settings, attempt, None)?;
            opening_said(alloc, mech, settings, attempt, said)
        }
    }
}

fn opening_said(
    alloc: Global,
    mech: Mech,
    settings: &Settings,
    attempt: &Attempt<'_>,
    said: Said,
) -> Result<Opening, AllocError>
    ensures { IfOk result (λ value. value ≡ opening_said mech settings.now attempt.now said) }
{
    match said {
        Said::Challenge(text) => Ok(Opening::Immediate(Stage::Awaits(text))),
        Said::Need {
            user,
            authzid,
            password,
        } => {
            let names = names(alloc, settings, user.bytes(), authzid.bytes())?;
            opening_named(alloc, mech, attempt, password, names)
        }
        Said::Proof { .. } | Said::Bad => immediate_failure(alloc, b"Invalid response"),
    }
}

fn opening_named(
    alloc: Global,
    mech: Mech,
    attempt: &Attempt<'_>,
    password: Option<Text>,
    names: Option<(Text, Option<Text>)>,
) -> Result<Opening, AllocError>
    ensures { IfOk result (λ value. value ≡ opening_named mech attempt.now password names) }
{
    match names {
        None => immediate_failure(alloc, b"Invalid user name"),
        Some((user, master)) => {
            let vars = vars_for(alloc, user.bytes(), attempt.params)?;
            let proof = login_proof(mech, password);
            Ok(Opening::LogsIn(
                mech,
                Login {
                    user,
                    master,
                    proof,
                    vars,
                },
            ))
        }
    }
}

// A failure for this reason, of nobody.
fn immediate_failure(alloc: Global, reason: &[u8]) -> Result<Opening, AllocError>
    ensures { IfOk result (λ value. value ≡ Opening.Immediate (fails_for reason.now)) }
{
    Ok(Opening::Immediate(Stage::Decided(Decision::Failure {
        user: None,
        authz: false,
        temp: false,
        disabled: false,
        code: FailedBy::Protocol.code(false),
        reason: Some(Text::from_slice(alloc, reason)?),
    })))
}

fn login_proof(mech: Mech, password: Option<Text>) -> Proof
    ensures { result ≡ login_proof mech password }
{
    match mech {
        Mech::ScramSha256 => Proof::Scram,
        Mech::CramMd5 => Proof::Cram,
        Mech::Plain | Mech::Login => match password {
            Some(password) => Proof::Plain(password),
            None => Proof::Cram,
        },
    }
}

/// What the variables of templates stand for in a request of this user with these parameters.
pub fn vars_for(alloc: Global, user: &[u8], params: &Fields) -> Result<Vars, AllocError>
    ensures { IfOk result (λ vars. vars ≡ vars_for user.now params.now) }
{
    Ok(Vars {
        user: VarText::from_slice(alloc, user)?,
        service: parameter(alloc, params, b"service")?,
        rip: parameter(alloc, params, b"rip")?,
        lip: parameter(alloc, params, b"lip")?,
    })
}

// The value of a parameter, or nothing where it isn't there.
fn parameter(alloc: Global, params: &Fields, key: &[u8]) -> Result<VarText, AllocError>
    ensures { IfOk result (λ value. value ≡ option_or_else (field key.now params.now) [] (λ x. x)) }
{
    match params.get(key) {
        Some(value) => VarText::from_slice(alloc, value),
        None => Ok(VarText::new(Vec::new(alloc))),
    }
}
