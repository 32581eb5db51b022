// The stage of an attempt to log in.

ghost use Rattle.std.specs.Prelude.{◌≡◌, IfOk, codes};
ghost use Rattle.da_fields.specs.FieldList.{field};
ghost use Rattle.da_request.specs.Attempts.{Attempt, attempt_stage, after_chain, after_verdict, with_credentials, after_proof, decided_by, failed, failure, failure_code, failure_with, has_proof, has_success, is_disabled, is_temp};

use crate::failures::FailedBy;
use crate::mechanisms::mechanism_says;
use crate::openings::{Opening, opening_of};
use crate::stages::{Decision, Question, Stage};
use da_fields::{Answer, Fields, Said, Text};
use da_msgs::Mech;
use da_passdb::{Chain, Verdict, VerdictKind, next};
use da_settings::{Settings, Texts};
use std::alloc::{AllocError, Global};
use std::marker::Model;

/// All that the course of an attempt to log in depends on.
#[derive(Drop)]
pub struct Attempt<'a> {
    /// The mechanism, where it is among the settings'.
    pub mech: Option<Mech>,
    pub params: &'a Fields,
    /// What the client has said, or `None` where that is bad as a whole.
    pub messages: Option<Texts>,
    pub random: &'a [u8; 16],
    pub start: u64,
    pub answers: &'a [(u32, Answer)],
}

impl<'a> Model for Attempt<'a> {
    ghost Value = { Attempt };

    ghost view = { λ a. record { mech = a.mech; params = a.params.now; messages = a.messages; random = a.random.now; start = a.start; answers = a.answers.now } };
}

/// The stage of an attempt.
#[tactic(auto, unfolding(crate::specs::Attempts::attempt_stage))]
pub fn attempt_stage(
    alloc: Global,
    settings: &Settings,
    attempt: &Attempt<'_>,
) -> Result<Stage, AllocError>
    ensures { IfOk result (λ stage. stage ≡ attempt_stage settings.now attempt.now) }
{
    match opening_of(alloc, settings, attempt)? {
        Opening::Immediate(stage) => Ok(stage),
        Opening::LogsIn(mech, login) => {
            let chain = next(alloc, settings.passdbs(), &login, attempt.answers)?;
            after_chain(alloc, mech, settings, attempt, chain)
        }
    }
}

/// The stage of a login from where its chain of databases stands, whoever walked it.
pub fn after_chain(
    alloc: Global,
    mech: Mech,
    settings: &Settings,
    attempt: &Attempt<'_>,
    chain: Chain,
) -> Result<Stage, AllocError>
    ensures { IfOk result (λ stage. stage ≡ after_chain mech settings.now attempt.now chain) }
{
    match chain {
        Chain::Ask {
            db,
            kind,
            user,
            checked,
        } => Ok(Stage::Asks(Question {
            db,
            kind,
            user,
            checked,
        })),
        Chain::Done(verdict) => after_verdict(alloc, mech, settings, attempt, verdict),
    }
}

fn after_verdict(
    alloc: Global,
    mech: Mech,
    settings: &Settings,
    attempt: &Attempt<'_>,
    verdict: Verdict,
) -> Result<Stage, AllocError>
    ensures { IfOk result (λ stage. stage ≡ after_verdict verdict.kind mech settings.now attempt.now verdict) }
{
    if has_success(verdict.kind) && has_proof(mech) {
        with_credentials(alloc, mech, settings, attempt, verdict)
    } else {
        decided_by(alloc, verdict, None)
    }
}

// Whether the chain ended with success.
fn has_success(kind: VerdictKind) -> bool
    ensures { result ≡ has_success kind }
{
    match kind {
        VerdictKind::Ok | VerdictKind::Expired => true,
        VerdictKind::Fail | VerdictKind::Temp | VerdictKind::Disabled => false,
    }
}

// Whether the client proves that it knows the password, and doesn't tell it.
fn has_proof(mech: Mech) -> bool
    ensures { result ≡ has_proof mech }
{
    match mech {
        Mech::CramMd5 | Mech::ScramSha256 => true,
        Mech::Plain | Mech::Login => false,
    }
}

// Decided with this verdict: a success where it is Ok, with the mechanism's last message, and else a failure.
fn decided_by(alloc: Global, verdict: Verdict, last: Option<Text>) -> Result<Stage, AllocError>
    ensures { IfOk result (λ stage. stage ≡ decided_by verdict.kind verdict last) }
{
    match verdict.kind {
        VerdictKind::Ok => Ok(success(verdict, last)),
        VerdictKind::Fail | VerdictKind::Temp | VerdictKind::Disabled | VerdictKind::Expired =>
            failure(alloc, verdict),
    }
}

fn with_credentials(
    alloc: Global,
    mech: Mech,
    settings: &Settings,
    attempt: &Attempt<'_>,
    verdict: Verdict,
) -> Result<Stage, AllocError>
    ensures { IfOk result (λ stage. stage ≡ with_credentials mech settings.now attempt.now verdict verdict.credentials) }
{
    match &verdict.credentials {
        None => failure(alloc, failed(verdict)),
        Some(stored) => {
            let said = mechanism_says(alloc, mech, settings, attempt, Some(stored))?;
            after_proof(alloc, verdict, said)
        }
    }
}

// The stage once the mechanism has read the messages with credentials.
fn after_proof(alloc: Global, verdict: Verdict, said: Said) -> Result<Stage, AllocError>
    ensures { IfOk result (λ stage. stage ≡ after_proof verdict said) }
{
    match said {
        Said::Challenge(text) => Ok(Stage::Awaits(text)),
        Said::Proof { right: true, last } => decided_by(alloc, verdict, last),
        Said::Proof { right: false, .. } => failure(alloc, failed(verdict)),
        Said::Need { .. } | Said::Bad => {
            let reason = Text::from_slice(alloc, b"Invalid response")?;
            Ok(failure_with(failed(verdict), FailedBy::Protocol, Some(reason)))
        }
    }
}

fn success(verdict: Verdict, last: Option<Text>) -> Stage
    ensures { result ≡ Stage.Decided (Decision.Success verdict.user verdict.fields last) }
{
    Stage::Decided(Decision::Success {
        user: verdict.user,
        fields: verdict.fields,
        last,
    })
}

// The verdict of a login that is wrong.
fn failed(verdict: Verdict) -> Verdict
    ensures { result ≡ failed verdict }
{
    let mut verdict = verdict;
    verdict.kind = VerdictKind::Fail;
    verdict
}

// A failure by this verdict, with the reason of the chain's fields.
fn failure(alloc: Global, verdict: Verdict) -> Result<Stage, AllocError>
    ensures { IfOk result (λ stage. stage ≡ failure verdict) }
{
    let reason = told_reason(alloc, &verdict.fields)?;
    let failed_by = FailedBy::Verdict(verdict.kind);
    Ok(failure_with(verdict, failed_by, reason))
}

fn told_reason(alloc: Global, fields: &Fields) -> Result<Option<Text>, AllocError>
    ensures { IfOk result (λ reason. reason ≡ field (codes "reason") fields.now) }
{
    match fields.get(b"reason") {
        Some(reason) => Ok(Some(Text::from_slice(alloc, reason)?)),
        None => Ok(None),
    }
}

// A failure told for the chain's user.
fn failure_with(verdict: Verdict, failed_by: FailedBy, reason: Option<Text>) -> Stage
    ensures { result ≡ failure_with verdict failed_by reason }
{
    let temp = matches!(verdict.kind, VerdictKind::Temp);
    let disabled = matches!(verdict.kind, VerdictKind::Disabled);
    Stage::Decided(Decision::Failure {
        user: Some(verdict.user),
        authz: verdict.authz,
        temp,
        disabled,
        code: failed_by.code(verdict.authz),
        reason,
    })
}
