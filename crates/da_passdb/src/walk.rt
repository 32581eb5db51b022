// A chain from one place to the next.

ghost use Rattle.std.specs.Prelude.{◌≡◌, ◌+◌, ◌<◌, [], ◌++◌, length, IfOk, IsTrue};
ghost use Rattle.std.specs.List.{list_all};
ghost use Rattle.da_fields.specs.Answers.{Answers};
ghost use Rattle.da_passdb.specs.declared.walk.Place.TheVariants.{Before};
ghost use Rattle.da_passdb.specs.LoginChain.{is_valid_passdb, verdict};
ghost use Rattle.da_passdb.specs.Places.{chain_from, chain_of_stand, told_at, has_authz, Stands, StandsAt, IsWithin, IsFurther, GoesOnWith};

use crate::chain::{Chain, Verdict, VerdictKind};
use crate::database::Passdb;
use crate::login::Login;
use crate::part::Part;
use crate::progress::{Course, Progress};
use crate::step::{ChainStep, judge_answer, visit};
use da_chain::answer_from;
use da_fields::Answer;
use da_schemes::Checked;
use std::alloc::{AllocError, Global};

/// How far a chain has come in a part.
#[derive(Clone, Copy, Drop)]
pub(crate) enum Place {
    /// Before the database at this index, which it asks.
    Before(usize),
    /// At its end.
    End(VerdictKind),
}

/// How far a chain has come, and its state so far.
#[derive(Drop)]
pub(crate) struct Stand {
    pub(crate) part: Part,
    pub(crate) place: Place,
    pub(crate) progress: Progress,
}

impl Stand {
    /// An equal stand.
    pub(crate) fn copy(&self, alloc: Global) -> Result<Stand, AllocError>
        ensures { IfOk result (λ stand. stand ≡ self.now) }
    {
        Ok(Stand {
            part: self.part,
            place: self.place,
            progress: self.progress.copy(alloc)?,
        })
    }

    // The verdict of this kind.
    fn verdict(
        &self,
        alloc: Global,
        kind: VerdictKind,
        login: &Login,
    ) -> Result<Verdict, AllocError>
        ensures { IfOk result (λ reported. reported ≡ verdict kind login.now (has_authz self.now.part login.now) self.now.progress) }
    {
        let progress = self.progress.copy(alloc)?;
        Ok(Verdict {
            kind,
            user: login.user.copy(alloc)?,
            authz: self.part.has_authz(login),
            fields: progress.fields,
            credentials: progress.credentials,
        })
    }

    /// What the chain asks here, or its verdict.
    pub(crate) fn tell(
        &self,
        alloc: Global,
        dbs: &[Passdb],
        login: &Login,
    ) -> Result<Chain, AllocError>
        requires { IsWithin self.now.place dbs.now }
        ensures { IfOk result (λ chain. chain ≡ told_at self.now.part self.now.place dbs.now login.now self.now.progress) }
    {
        match self.place {
            Place::Before(index) => {
                let db = &dbs[index];
                Ok(Chain::Ask {
                    db: db.number,
                    kind: db.query_kind(),
                    user: self.part.name(login).copy(alloc)?,
                    checked: self.progress.checked,
                })
            }
            Place::End(kind) => {
                let verdict = self.verdict(alloc, kind, login)?;
                Ok(Chain::Done(verdict))
            }
        }
    }
}

/// Walks along the databases of a part from an index on, and on from there, as far as the answers reach.
pub(crate) fn walk(
    alloc: Global,
    dbs: &[Passdb],
    login: &Login,
    answers: &[(u32, Answer)],
    from_part: Part,
    from: usize,
    before: Progress,
) -> Result<Stand, AllocError>
    requires { IsTrue (list_all is_valid_passdb dbs.now) }
    ensures rest { IfOk result (λ stand. (more : Answers) → chain_of_stand stand dbs.now login.now (answers.now ++ more) ≡ chain_from from_part from dbs.now login.now (answers.now ++ more) before) }
    ensures is_there { IfOk result (λ stand. Stands stand dbs.now login.now answers.now) }
    ensures further { IfOk result (λ stand. IsFurther from_part from stand.part stand.place) }
{
    let mut part = from_part;
    let mut index = from;
    let mut progress = before;
    'databases: while index < dbs.len() {
        let db = &dbs[index];
        let answer = answer_from(db.number, answers);
        match visit(alloc, db, part, login, answer, &mut progress)? {
            ChainStep::GoesOn => index += 1,
            ChainStep::Jumps => {
                part = Part::AfterMasters;
                index = 0;
            }
            ChainStep::Asks => {
                let place = Place::Before(index);
                return Ok(Stand {
                    part,
                    place,
                    progress,
                });
            }
            ChainStep::Ends(kind) => {
                let place = Place::End(kind);
                return Ok(Stand {
                    part,
                    place,
                    progress,
                });
            }
        }
    }
    let place = Place::End(progress.end());
    Ok(Stand {
        part,
        place,
        progress,
    })
}

/// Goes on with the answer of the database at an index, which was asked. The memo has passwords that were checked
/// already.
pub(crate) fn walk_answered(
    alloc: Global,
    dbs: &[Passdb],
    login: &Login,
    answer: &Answer,
    memo: &[Checked],
    index: usize,
    stand: Stand,
) -> Result<Stand, AllocError>
    requires valid { IsTrue (list_all is_valid_passdb dbs.now) }
    requires within { index < length dbs.now }
    requires asked { StandsAt stand.part (Before index) dbs.now login.now [] stand.progress }
    ensures rest { IfOk result (λ after. GoesOnWith stand.part index answer.now dbs.now login.now stand.progress after) }
    ensures is_there { IfOk result (λ after. Stands after dbs.now login.now []) }
    ensures further { IfOk result (λ after. IsFurther stand.part (index + 1) after.part after.place) }
{
    let part = stand.part;
    let mut progress = stand.progress;
    let db = &dbs[index];
    match judge_answer(alloc, db, part, login, answer, memo, &mut progress)? {
        Course::GoesOn => walk(alloc, dbs, login, &[], part, index + 1, progress),
        Course::Jumps => walk(alloc, dbs, login, &[], Part::AfterMasters, 0, progress),
        Course::Ends(kind) => {
            let place = Place::End(kind);
            Ok(Stand {
                part,
                place,
                progress,
            })
        }
    }
}
