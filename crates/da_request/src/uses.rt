// What a request makes of an answer: the password that it hands to a program, and the one that it compares.

ghost use Rattle.std.specs.Prelude.{◌≡◌, ◌<◌, ◌-◌, ◌^◌, ◌∷◌, IfOk};
ghost use Rattle.da_passdb.specs.Outcomes.{proof_password as password_of};
ghost use Rattle.da_request.specs.Requests.{query_password, is_authentication, use_comparison};

use crate::numbered::row;
use crate::request::{Body, Request};
use crate::stages::Question;
use da_fields::{Answer, QueryKind, Text};
use da_passdb::{Proof, password_comparison};
use da_settings::Settings;
use std::alloc::{AllocError, Global};

// The password of a proof, where it is one.
fn proof_password(proof: Proof) -> Option<Text>
    ensures { result ≡ password_of proof }
{
    match proof {
        Proof::Plain(password) => Some(password),
        Proof::Cram | Proof::Scram => None,
    }
}

/// The password that a query of this kind hands to a program.
pub fn query_password(
    alloc: Global,
    settings: &Settings,
    request: &Request,
    kind: QueryKind,
) -> Result<Option<Text>, AllocError>
    ensures { IfOk result (λ password. password ≡ query_password settings.now request.now kind) }
{
    match kind {
        QueryKind::Check => match request.login(alloc, settings)? {
            Some(login) => Ok(proof_password(login.proof)),
            None => Ok(None),
        },
        QueryKind::Pass | QueryKind::User => Ok(None),
    }
}

pub(crate) fn is_authentication(body: &Body) -> bool
    ensures { result ≡ is_authentication body.now }
{
    match body {
        Body::Authenticates { .. } => true,
        Body::LooksUp(_) => false,
    }
}

/// Whether the request's use of the answer checks a password, and then whether it matches.
pub fn use_comparison(
    alloc: Global,
    settings: &Settings,
    request: &Request,
    question: &Question,
    answer: &Answer,
) -> Result<Option<bool>, AllocError>
    ensures { IfOk result (λ comparison. comparison ≡ use_comparison settings.now request.now question.now answer.now) }
{
    if !is_authentication(&request.body) {
        return Ok(None);
    }
    let Some(login) = request.login(alloc, settings)? else {
        return Ok(None);
    };
    let Some(db) = row(settings.passdbs(), question.db) else {
        return Ok(None);
    };
    password_comparison(alloc, db, &login, question.checked, answer)
}
