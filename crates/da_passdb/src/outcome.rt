// What comes of a password database's answer.

ghost use Rattle.std.specs.Prelude.{◌≡◌, Bool, IfOk, IsTrue};
ghost use Rattle.da_base.specs.Words.{Bytes};
ghost use Rattle.da_fields.specs.declared.answer.Answer.TheVariants.{Found, Passed};
ghost use Rattle.da_passdb.specs.LoginChain.{is_valid_passdb};
ghost use Rattle.da_passdb.specs.Outcomes.{is_decided_by_password, is_let_in, outcome as spec_outcome, password_outcome, password_comparison, query_kind};
ghost use Rattle.da_passdb.specs.Places.{IsJudged};
ghost use Rattle.da_schemes.specs.Scheme.{is_plaintext_scheme, is_scram_scheme};
ghost use Rattle.da_schemes.specs.Stored.{matches, stored_password};

use crate::database::{Driver, Passdb};
use crate::login::{Login, Proof};
use da_chain::merge_expanded;
use da_fields::{Answer, Fields, Outcome, QueryKind, Text};
use da_names::Vars;
use da_nets::allowed;
use da_schemes::{Checked, Scheme, SchemeFault, Stored};
use std::alloc::{AllocError, Global};

/// What is made of an answer: its outcome, and the stored password, where it was read.
#[derive(Drop)]
pub(crate) struct Judged {
    pub(crate) outcome: Outcome,
    pub(crate) stored: Option<Stored>,
}

impl Judged {
    // An outcome for which no stored password was read.
    fn unread(outcome: Outcome) -> Judged
        ensures { result ≡ record { outcome = outcome; stored = None } }
    {
        Judged {
            outcome,
            stored: None,
        }
    }
}

impl Passdb {
    /// What the database is asked: to check a password, or for the stored one.
    pub(crate) fn query_kind(&self) -> QueryKind
        ensures { result ≡ query_kind self.now }
    {
        match self.driver {
            Driver::Checkpassword => QueryKind::Check,
            Driver::PasswdFile | Driver::Worker => QueryKind::Pass,
        }
    }
}

fn is_plaintext(scheme: Scheme) -> bool
    ensures { result ≡ is_plaintext_scheme scheme }
{
    matches!(scheme, Scheme::Plain | Scheme::Clear | Scheme::Cleartext)
}

fn is_scram(scheme: Scheme) -> bool
    ensures { result ≡ is_scram_scheme scheme }
{
    matches!(scheme, Scheme::ScramSha256)
}

// Whether the fields of an answer, with the database's own, let the client's address in.
fn is_let_in(alloc: Global, db: &Passdb, vars: &Vars, found: &Fields) -> Result<bool, AllocError>
    requires { IsTrue (is_valid_passdb db.now) }
    ensures { IfOk result (λ let_in. let_in ≡ is_let_in db.now vars.now found.now) }
{
    let none = Fields::new(alloc);
    let fields = merge_expanded(
        alloc,
        &none,
        &db.default_fields,
        found,
        &db.override_fields,
        vars,
    )?;
    match fields.get(b"allow_nets") {
        Some(nets) => Ok(allowed(nets, vars.rip.bytes())),
        None => Ok(true),
    }
}

// Whether the password matches the stored one. What is in the memo already isn't computed again.
fn password_matches(stored: &Stored, password: &[u8], memo: &[Checked]) -> bool
    ensures { result ≡ matches stored.now password.now }
{
    for checked in memo {
        if checked.is_of(stored, password) {
            return checked.answer();
        }
    }
    stored.matches(password)
}

// What a stored password gives, where it can be read.
fn password_outcome(proof: &Proof, stored: &Option<Stored>, memo: &[Checked]) -> Outcome
    ensures { result ≡ password_outcome proof.now stored.now }
{
    let Some(stored) = stored else {
        return Outcome::NoScheme;
    };
    match proof {
        Proof::Plain(password) => {
            if password_matches(stored, password.bytes(), memo) {
                Outcome::Success
            } else {
                Outcome::Mismatch
            }
        }
        Proof::Cram => {
            if is_plaintext(stored.scheme()) {
                Outcome::Success
            } else {
                Outcome::NoScheme
            }
        }
        Proof::Scram => {
            if is_plaintext(stored.scheme()) || is_scram(stored.scheme()) {
                Outcome::Success
            } else {
                Outcome::NoScheme
            }
        }
    }
}

// The stored password that a text spells, where it can be read.
fn read_stored(alloc: Global, default: Scheme, text: &Text) -> Result<Option<Stored>, AllocError>
    ensures { IfOk result (λ stored. stored ≡ stored_password default text.now) }
{
    match Stored::read(alloc, default, text.bytes()) {
        Ok(stored) => Ok(Some(stored)),
        Err(SchemeFault::UnknownScheme) => Ok(None),
        Err(SchemeFault::BadText) => Ok(None),
        Err(SchemeFault::NoMemory) => Err(AllocError),
    }
}

// What is made of a stored password and fields that were found.
#[tactic(auto, unfolding(crate::specs::Outcomes::outcome))]
fn judge_found(
    alloc: Global,
    db: &Passdb,
    login: &Login,
    checked: bool,
    stored: &Text,
    fields: &Fields,
    memo: &[Checked],
) -> Result<Judged, AllocError>
    requires { IsTrue (is_valid_passdb db.now) }
    ensures { IfOk result (λ judged. IsJudged db.now login.now checked (Found stored.now fields.now) judged) }
{
    if db.query_kind() == QueryKind::Check {
        return Ok(Judged::unread(Outcome::Internal));
    }
    if !is_let_in(alloc, db, &login.vars, fields)? {
        return Ok(Judged::unread(Outcome::Mismatch));
    }
    if checked {
        return Ok(Judged::unread(Outcome::Success));
    }
    let stored = read_stored(alloc, db.default_scheme, stored)?;
    let outcome = password_outcome(&login.proof, &stored, memo);
    Ok(Judged { outcome, stored })
}

// The outcome where a password was checked and is right.
#[tactic(auto, unfolding(crate::specs::Outcomes::outcome))]
fn outcome_of_passed(
    alloc: Global,
    db: &Passdb,
    login: &Login,
    fields: &Fields,
) -> Result<Outcome, AllocError>
    requires { IsTrue (is_valid_passdb db.now) }
    ensures { IfOk result (λ outcome. (checked : Bool) → outcome ≡ spec_outcome db.now login.now checked (Passed fields.now)) }
{
    if db.query_kind() != QueryKind::Check {
        return Ok(Outcome::Internal);
    }
    if is_let_in(alloc, db, &login.vars, fields)? {
        Ok(Outcome::Success)
    } else {
        Ok(Outcome::Mismatch)
    }
}

/// What is made of an answer; `checked` says whether a password has been checked before.
#[tactic(auto, unfolding(crate::specs::Outcomes::outcome))]
pub(crate) fn judge(
    alloc: Global,
    db: &Passdb,
    login: &Login,
    checked: bool,
    answer: &Answer,
    memo: &[Checked],
) -> Result<Judged, AllocError>
    requires { IsTrue (is_valid_passdb db.now) }
    ensures { IfOk result (λ judged. IsJudged db.now login.now checked answer.now judged) }
{
    match answer {
        Answer::Found { stored, fields } => {
            judge_found(alloc, db, login, checked, stored, fields, memo)
        }
        Answer::Passed { fields } => {
            let outcome = outcome_of_passed(alloc, db, login, fields)?;
            Ok(Judged::unread(outcome))
        }
        Answer::Mismatch => {
            if db.query_kind() == QueryKind::Check {
                Ok(Judged::unread(Outcome::Mismatch))
            } else {
                Ok(Judged::unread(Outcome::Internal))
            }
        }
        Answer::Unknown => Ok(Judged::unread(Outcome::Unknown)),
        Answer::Internal(_) => Ok(Judged::unread(Outcome::Internal)),
    }
}

// Whether a plaintext password decides what comes of a stored password with these fields. It is asked in the order of cost.
fn is_decided_by_password(
    alloc: Global,
    db: &Passdb,
    login: &Login,
    checked: bool,
    fields: &Fields,
) -> Result<bool, AllocError>
    requires { IsTrue (is_valid_passdb db.now) }
    ensures { IfOk result (λ decided. (stored : Bytes) → decided ≡ is_decided_by_password db.now login.now checked stored fields.now) }
{
    let is_plaintext = matches!(login.proof, Proof::Plain(_));
    if db.query_kind() == QueryKind::Check || !is_plaintext || db.deny || checked {
        return Ok(false);
    }
    is_let_in(alloc, db, &login.vars, fields)
}

// What a plaintext password finds that decides what comes of a stored password.
#[tactic(auto, unfolding(crate::specs::Outcomes::password_comparison, crate::specs::Outcomes::outcome))]
fn comparison_found(
    alloc: Global,
    db: &Passdb,
    login: &Login,
    checked: bool,
    stored: &Text,
    fields: &Fields,
) -> Result<Option<bool>, AllocError>
    requires { IsTrue (is_valid_passdb db.now) }
    ensures { IfOk result (λ comparison. comparison ≡ password_comparison db.now login.now checked (Found stored.now fields.now)) }
{
    if !is_decided_by_password(alloc, db, login, checked, fields)? {
        return Ok(None);
    }
    let stored = read_stored(alloc, db.default_scheme, stored)?;
    let outcome = password_outcome(&login.proof, &stored, &[]);
    Ok(Some(outcome == Outcome::Success))
}

/// Whether a plaintext password decides what comes of an answer, and then whether it matches. `checked` says whether a
/// password has been checked before.
#[tactic(auto, unfolding(crate::specs::Outcomes::password_comparison))]
pub fn password_comparison(
    alloc: Global,
    db: &Passdb,
    login: &Login,
    checked: bool,
    answer: &Answer,
) -> Result<Option<bool>, AllocError>
    requires { IsTrue (is_valid_passdb db.now) }
    ensures { IfOk result (λ comparison. comparison ≡ password_comparison db.now login.now checked answer.now) }
{
    match answer {
        Answer::Found { stored, fields } => comparison_found(
            alloc, db, login, checked, stored, fields,
        ),
        _ => Ok(None),
    }
}
