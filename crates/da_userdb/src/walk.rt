// A chain from one place to the next.

ghost use Rattle.std.specs.Prelude.{◌≡◌, ℕ, ◌+◌, ◌<◌, [], ◌++◌, length, IfOk, IsTrue, drop, slice_get, Option, Some};
ghost use Rattle.std.specs.List.{list_all};
ghost use Rattle.da_fields.specs.Answers.{Answers};
ghost use Rattle.da_userdb.specs.UserChain.{is_valid_userdb, user_walk};
ghost use Rattle.da_userdb.specs.declared.walk.UserPlace.TheVariants.{Before};
ghost use Rattle.da_userdb.specs.UserPlaces.{lookup_of, walk_from, told_at, IsFrom, IsWithin, Stands, GoesOnWith};

use crate::database::{UserChain, Userdb};
use crate::progress::{Course, UserProgress};
use crate::step::{ChainStep, Subject, judge_answer, visit};
use da_chain::answer_from;
use da_fields::Answer;
use std::alloc::{AllocError, Global};

/// How far a chain has come.
#[derive(Clone, Copy, Drop)]
pub(crate) enum UserPlace {
    /// Before the database at this index, which it asks.
    Before(usize),
    /// At its end.
    End,
}

/// What a chain tells at a place.
pub(crate) fn tell(
    alloc: Global,
    dbs: &[Userdb],
    place: UserPlace,
    progress: &UserProgress,
) -> Result<UserChain, AllocError>
    requires { IsWithin place dbs.now }
    ensures { IfOk result (λ chain. chain ≡ told_at place dbs.now progress.now) }
{
    match place {
        UserPlace::Before(index) => {
            let db = &dbs[index];
            Ok(UserChain::Ask { db: db.number })
        }
        UserPlace::End => progress.end(alloc),
    }
}

/// Walks along the databases from an index on, as far as the answers reach.
pub(crate) fn walk(
    alloc: Global,
    dbs: &[Userdb],
    subject: &Subject,
    answers: &[(u32, Answer)],
    from: usize,
    progress: &mut UserProgress,
) -> Result<UserPlace, AllocError>
    requires { IsTrue (list_all is_valid_userdb dbs.now) }
    ensures rest { IfOk result (λ place. (more : Answers) → walk_from place dbs.now (lookup_of subject.now) (answers.now ++ more) progress.new ≡ user_walk (drop from dbs.now) (lookup_of subject.now) (answers.now ++ more) progress.old) }
    ensures is_there { IfOk result (λ place. Stands place dbs.now (lookup_of subject.now) answers.now progress.new) }
    ensures from { IfOk result (λ place. IsFrom from place) }
{
    for index in from..dbs.len() {
        let db = &dbs[index];
        let answer = answer_from(db.number, answers);
        match visit(alloc, db, subject, answer, progress)? {
            ChainStep::GoesOn => {}
            ChainStep::Asks => return Ok(UserPlace::Before(index)),
            ChainStep::Ends => return Ok(UserPlace::End),
        }
    }
    Ok(UserPlace::End)
}

/// Goes on with the answer of the database at an index, which was asked.
pub(crate) fn walk_answered(
    alloc: Global,
    dbs: &[Userdb],
    subject: &Subject,
    answer: &Answer,
    index: usize,
    progress: &mut UserProgress,
) -> Result<UserPlace, AllocError>
    requires valid { IsTrue (list_all is_valid_userdb dbs.now) }
    requires within { index < length dbs.now }
    requires asked { Stands (Before index) dbs.now (lookup_of subject.now) [] progress.old }
    ensures rest { IfOk result (λ place. GoesOnWith index answer.now dbs.now (lookup_of subject.now) progress.old place progress.new) }
    ensures is_there { IfOk result (λ place. Stands place dbs.now (lookup_of subject.now) [] progress.new) }
    ensures from { IfOk result (λ place. IsFrom (index + 1) place) }
{
    let db = &dbs[index];
    match judge_answer(alloc, db, subject, answer, progress)? {
        Course::GoesOn => walk(alloc, dbs, subject, &[], index + 1, progress),
        Course::Ends => Ok(UserPlace::End),
    }
}
