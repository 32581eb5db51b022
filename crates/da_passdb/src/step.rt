// What one database does to a chain.

ghost use Rattle.std.specs.Prelude.{◌≡◌, ℕ, Bool, IfOk, IsTrue, Option, Some, option_copied};
ghost use Rattle.da_base.specs.Words.{Bytes};
ghost use Rattle.da_fields.specs.declared.answer.Answer.{Answer};
ghost use Rattle.da_passdb.specs.declared.database.Passdb.{Passdb};
ghost use Rattle.da_passdb.specs.declared.part.Part.{Part};
ghost use Rattle.da_passdb.specs.declared.progress.Progress.{Progress};
ghost use Rattle.da_passdb.specs.LoginChain.{answer_move, deny_move, is_passed_over, is_skipped, is_unaskable, is_valid_passdb, with_outcome};
ghost use Rattle.da_passdb.specs.Places.{are_masters, asked_name, asked_move, part_move, course_move, step_move, JumpsFrom, StepsFrom, AsksUnchanged, HasCredentials};

use crate::chain::VerdictKind;
use crate::database::{Passdb, Skip};
use crate::login::{Login, Proof};
use crate::outcome::{Judged, judge};
use crate::part::Part;
use crate::progress::{Course, Progress};
use da_chain::{answer_fields, merge_expanded, rule_for};
use da_fields::{Answer, Fields, Outcome, QueryKind};
use da_names::{Vars, filter_matches};
use da_schemes::Checked;
use std::alloc::{AllocError, Global};

/// What a database does to a chain.
#[derive(Clone, Copy, Drop)]
pub(crate) enum ChainStep {
    /// The chain goes on to the next database of its part.
    GoesOn,
    /// The database is asked.
    Asks,
    /// The chain ends.
    Ends(VerdictKind),
    /// The chain goes on to the first database that authenticates users.
    Jumps,
}

impl ChainStep {
    fn of(course: Course) -> ChainStep
        ensures moves { (db : Passdb) (name : Bytes) (p : Progress) → step_move result db name p ≡ course_move course p }
        ensures asks { (answer : Option Answer) (before after : Progress) → AsksUnchanged result answer before after }
        ensures jumps { (part : Part) → JumpsFrom part course → StepsFrom part result }
    {
        match course {
            Course::GoesOn => ChainStep::GoesOn,
            Course::Ends(kind) => ChainStep::Ends(kind),
            Course::Jumps => ChainStep::Jumps,
        }
    }
}

fn is_skipped(skip: Skip, success: bool) -> bool
    ensures { result ≡ is_skipped skip success }
{
    match skip {
        Skip::Never => false,
        Skip::Authenticated => success,
        Skip::Unauthenticated => !success,
    }
}

// Whether a database is passed over, which would be asked for this name.
fn is_passed_over(db: &Passdb, name: &[u8], success: bool) -> bool
    ensures { (p : Progress) → p.success ≡ success → result ≡ is_passed_over db.now name.now p }
{
    is_skipped(db.skip, success) || !filter_matches(db.username_filter.bytes(), name)
}

// Whether a checkpassword database has no plaintext password to check, or none that isn't checked already.
fn is_unaskable(db: &Passdb, login: &Login, checked: bool) -> bool
    ensures { (p : Progress) → p.checked ≡ checked → result ≡ is_unaskable db.now login.now p }
{
    db.query_kind() == QueryKind::Check && (!matches!(login.proof, Proof::Plain(_)) || checked)
}

// What a deny database's answer does.
fn denied(answer: &Answer) -> Course
    ensures moves { (db : Passdb) (name : Bytes) (p : Progress) → course_move result p ≡ deny_move db name p (Some answer.now) }
    ensures jumps { (part : Part) → JumpsFrom part result }
{
    match answer {
        Answer::Unknown => Course::GoesOn,
        Answer::Internal(_) => Course::Ends(VerdictKind::Temp),
        Answer::Found { .. } | Answer::Passed { .. } | Answer::Mismatch => Course::Ends(
            VerdictKind::Disabled,
        ),
    }
}

// What an outcome leaves, before the rule: a success sets the fields, and the credentials where no password was checked
// before.
fn take_outcome(
    alloc: Global,
    db: &Passdb,
    vars: &Vars,
    judged: Judged,
    answer: &Answer,
    progress: &mut Progress,
) -> Result<(), AllocError>
    requires valid { IsTrue (is_valid_passdb db.now) }
    requires credentials { HasCredentials db.now progress.old.checked answer.now judged }
    ensures { IfOk result (λ _. progress.new ≡ with_outcome db.now vars.now judged.outcome answer.now progress.old) }
{
    match judged.outcome {
        Outcome::Success => {
            let none = Fields::new(alloc);
            progress.fields = merge_expanded(
                alloc,
                &progress.fields,
                &db.default_fields,
                answer_fields(answer, &none),
                &db.override_fields,
                vars,
            )?;
            if !progress.checked {
                progress.credentials = judged.stored;
            }
        }
        Outcome::Internal => progress.internal = true,
        Outcome::Mismatch | Outcome::Unknown | Outcome::NoScheme => {}
    }
    Ok(())
}

// What a chain does after the answer of a database that isn't a deny database.
fn follow(
    alloc: Global,
    db: &Passdb,
    part: Part,
    login: &Login,
    answer: &Answer,
    memo: &[Checked],
    progress: &mut Progress,
) -> Result<Course, AllocError>
    requires { IsTrue (is_valid_passdb db.now) }
    ensures moves { IfOk result (λ course. (name : Bytes) → course_move course progress.new ≡ answer_move (are_masters part) db.now name login.now progress.old (Some answer.now)) }
    ensures jumps { IfOk result (λ course. JumpsFrom part course) }
{
    let judged = judge(alloc, db, login, progress.checked, answer, memo)?;
    let outcome = judged.outcome;
    take_outcome(alloc, db, &login.vars, judged, answer, progress)?;
    let rule = rule_for(
        db.result_success,
        db.result_failure,
        db.result_internalfail,
        outcome,
    );
    let succeeded = matches!(outcome, Outcome::Success);
    Ok(progress.apply(rule, succeeded, part))
}

/// What a chain does after the answer of a database that was asked. The memo has passwords that were checked already.
pub(crate) fn judge_answer(
    alloc: Global,
    db: &Passdb,
    part: Part,
    login: &Login,
    answer: &Answer,
    memo: &[Checked],
    progress: &mut Progress,
) -> Result<Course, AllocError>
    requires { IsTrue (is_valid_passdb db.now) }
    ensures moves { IfOk result (λ course. course_move course progress.new ≡ asked_move part db.now login.now progress.old (Some answer.now)) }
    ensures jumps { IfOk result (λ course. JumpsFrom part course) }
{
    if db.deny {
        return Ok(denied(answer));
    }
    follow(alloc, db, part, login, answer, memo, progress)
}

/// What a database does to a chain, with its answer if there is one.
#[tactic(auto, using(crate::proofs::Moves::move_is))]
pub(crate) fn visit(
    alloc: Global,
    db: &Passdb,
    part: Part,
    login: &Login,
    answer: Option<&Answer>,
    progress: &mut Progress,
) -> Result<ChainStep, AllocError>
    requires { IsTrue (is_valid_passdb db.now) }
    ensures moves { IfOk result (λ step. step_move step db.now (asked_name part login.now) progress.new ≡ part_move part db.now login.now progress.old (option_copied answer.entry)) }
    ensures asks { IfOk result (λ step. AsksUnchanged step (option_copied answer.entry) progress.old progress.new) }
    ensures jumps { IfOk result (λ step. StepsFrom part step) }
{
    if !part.has(db) || is_passed_over(db, part.name(login).bytes(), progress.success) {
        return Ok(ChainStep::GoesOn);
    }
    if !db.deny && is_unaskable(db, login, progress.checked) {
        let course = progress.apply(db.result_failure, false, part);
        return Ok(ChainStep::of(course));
    }
    let Some(answer) = answer else {
        return Ok(ChainStep::Asks);
    };
    let course = judge_answer(alloc, db, part, login, answer, &[], progress)?;
    Ok(ChainStep::of(course))
}
