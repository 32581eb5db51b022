// What one database does to a chain.

ghost use Rattle.std.specs.Prelude.{◌≡◌, ℕ, IfOk, IsTrue, Option, Some, option_copied};
ghost use Rattle.da_fields.specs.declared.answer.Answer.{Answer};
ghost use Rattle.da_userdb.specs.declared.progress.UserProgress.{UserProgress};
ghost use Rattle.da_userdb.specs.UserChain.{after_user_outcome, is_user_skipped, is_valid_userdb, prefetch_move, user_answer_move, user_move, user_outcome, with_user_outcome};
ghost use Rattle.da_userdb.specs.UserPlaces.{lookup_of, course_move, step_move, AsksUnchanged};

use crate::database::{Lookup, UserDriver, UserSkip, Userdb};
use crate::progress::{Course, UserProgress};
use da_chain::{answer_fields, merge_expanded, rule_for};
use da_fields::{Answer, Fields, Outcome, Text, userdb_part};
use da_names::Vars;
use std::alloc::{AllocError, Global};

/// For whom a lookup is made.
#[derive(Drop)]
pub(crate) struct Subject<'a> {
    pub(crate) user: &'a Text,
    pub(crate) passdb_fields: &'a Fields,
    pub(crate) vars: &'a Vars,
}

impl Lookup {
    /// The lookup behind references.
    pub(crate) fn subject(&self) -> Subject<'_>
        ensures { lookup_of result ≡ self.now }
    {
        Subject {
            user: &self.user,
            passdb_fields: &self.passdb_fields,
            vars: &self.vars,
        }
    }
}

/// What a database does to a chain.
#[derive(Clone, Copy, Drop)]
pub(crate) enum ChainStep {
    /// The chain goes on to the next database.
    GoesOn,
    /// The database is asked.
    Asks,
    /// The chain ends with the state so far.
    Ends,
}

fn is_skipped(skip: UserSkip, found: bool) -> bool
    ensures { result ≡ is_user_skipped skip found }
{
    match skip {
        UserSkip::Never => false,
        UserSkip::Found => found,
        UserSkip::NotFound => !found,
    }
}

// The outcome of an answer.
fn outcome_of(answer: &Answer) -> Outcome
    ensures { result ≡ user_outcome answer.now }
{
    match answer {
        Answer::Found { stored, .. } => {
            if stored.bytes().is_empty() {
                Outcome::Success
            } else {
                Outcome::Internal
            }
        }
        Answer::Unknown => Outcome::Unknown,
        Answer::Passed { .. } | Answer::Mismatch | Answer::Internal(_) => Outcome::Internal,
    }
}

// What an outcome leaves, before the rule: a success sets the fields.
fn take_outcome(
    alloc: Global,
    db: &Userdb,
    vars: &Vars,
    outcome: Outcome,
    found: &Fields,
    progress: &mut UserProgress,
) -> Result<(), AllocError>
    requires { IsTrue (is_valid_userdb db.now) }
    ensures { IfOk result (λ _. progress.new ≡ with_user_outcome db.now vars.now outcome found.now progress.old) }
{
    match outcome {
        Outcome::Success => {
            progress.fields = merge_expanded(
                alloc,
                &progress.fields,
                &db.default_fields,
                found,
                &db.override_fields,
                vars,
            )?;
        }
        Outcome::Internal => progress.internal = true,
        Outcome::Mismatch | Outcome::Unknown | Outcome::NoScheme => {}
    }
    Ok(())
}

// What a chain does after an outcome.
fn follow(
    alloc: Global,
    db: &Userdb,
    vars: &Vars,
    outcome: Outcome,
    found: &Fields,
    progress: &mut UserProgress,
) -> Result<Course, AllocError>
    requires { IsTrue (is_valid_userdb db.now) }
    ensures { IfOk result (λ course. course_move course progress.new ≡ after_user_outcome db.now vars.now outcome found.now progress.old) }
{
    take_outcome(alloc, db, vars, outcome, found, progress)?;
    let rule = rule_for(
        db.result_success,
        db.result_failure,
        db.result_internalfail,
        outcome,
    );
    Ok(progress.apply(rule))
}

/// What a chain does after the answer of a database that was asked.
pub(crate) fn judge_answer(
    alloc: Global,
    db: &Userdb,
    subject: &Subject,
    answer: &Answer,
    progress: &mut UserProgress,
) -> Result<Course, AllocError>
    requires { IsTrue (is_valid_userdb db.now) }
    ensures { IfOk result (λ course. course_move course progress.new ≡ user_answer_move db.now (lookup_of subject.now) progress.old (Some answer.now)) }
{
    let none = Fields::new(alloc);
    let outcome = outcome_of(answer);
    let found = answer_fields(answer, &none);
    follow(alloc, db, subject.vars, outcome, found, progress)
}

// A prefetch database: a success exactly where the password databases gave a field for user databases.
fn prefetch(
    alloc: Global,
    db: &Userdb,
    subject: &Subject,
    progress: &mut UserProgress,
) -> Result<Course, AllocError>
    requires { IsTrue (is_valid_userdb db.now) }
    ensures { IfOk result (λ course. course_move course progress.new ≡ prefetch_move db.now (lookup_of subject.now) progress.old) }
{
    let part = userdb_part(alloc, subject.passdb_fields)?;
    let outcome = if part.pairs().is_empty() {
        Outcome::Unknown
    } else {
        Outcome::Success
    };
    follow(alloc, db, subject.vars, outcome, &part, progress)
}

impl ChainStep {
    fn of(course: Course) -> ChainStep
        ensures moves { (db : ℕ) (p : UserProgress) → step_move result db p ≡ course_move course p }
        ensures asks { (answer : Option Answer) (before after : UserProgress) → AsksUnchanged result answer before after }
    {
        match course {
            Course::GoesOn => ChainStep::GoesOn,
            Course::Ends => ChainStep::Ends,
        }
    }
}

/// What a database does to a chain, with its answer if there is one.
#[tactic(auto, unfolding(crate::specs::UserChain::user_move))]
pub(crate) fn visit(
    alloc: Global,
    db: &Userdb,
    subject: &Subject,
    answer: Option<&Answer>,
    progress: &mut UserProgress,
) -> Result<ChainStep, AllocError>
    requires { IsTrue (is_valid_userdb db.now) }
    ensures moves { IfOk result (λ step. step_move step db.now.number progress.new ≡ user_move db.now (lookup_of subject.now) progress.old (option_copied answer.entry)) }
    ensures asks { IfOk result (λ step. AsksUnchanged step (option_copied answer.entry) progress.old progress.new) }
{
    if is_skipped(db.skip, progress.found) {
        return Ok(ChainStep::GoesOn);
    }
    if db.driver == UserDriver::Prefetch {
        let course = prefetch(alloc, db, subject, progress)?;
        return Ok(ChainStep::of(course));
    }
    let Some(answer) = answer else {
        return Ok(ChainStep::Asks);
    };
    let course = judge_answer(alloc, db, subject, answer, progress)?;
    Ok(ChainStep::of(course))
}
