// Chains of user databases from all answers at once, and answer by answer.

ghost use Rattle.std.specs.Prelude.{◌≡◌, [], IfOk, OnOk, OnErr, IsTrue};
ghost use Rattle.da_userdb.specs.UserChain.{are_valid_userdbs, user_chain};
ghost use Rattle.da_userdb.specs.UserPlaces.{lookup_for};
ghost use Rattle.da_userdb.specs.UserCursors.{UserStandsAfter, IsAlong, IsAsking, TellsChain, TakesAnswer};

use crate::database::{Lookup, UserChain, Userdb};
use crate::progress::UserProgress;
use crate::step::Subject;
use crate::walk::{UserPlace, tell, walk, walk_answered};
use da_fields::{Answer, Fields, Text};
use da_names::Vars;
use std::alloc::{AllocError, Global};

/// What a chain along valid databases asks next or finds, from all answers so far.
pub fn user_next(
    alloc: Global,
    dbs: &[Userdb],
    user: &Text,
    passdb_fields: &Fields,
    vars: &Vars,
    answers: &[(u32, Answer)],
) -> Result<UserChain, AllocError>
    requires { IsTrue (are_valid_userdbs dbs.now) }
    ensures { IfOk result (λ chain. chain ≡ user_chain dbs.now (lookup_for user.now passdb_fields.now vars.now) answers.now) }
{
    let subject = Subject {
        user,
        passdb_fields,
        vars,
    };
    let mut progress = UserProgress::new(alloc);
    let place = walk(alloc, dbs, &subject, answers, 0, &mut progress)?;
    tell(alloc, dbs, place, &progress)
}

/// A chain along user databases that takes one answer after the other. It keeps how far it has come, and the state so
/// far.
#[derive(Drop)]
pub struct UserCursor {
    alloc: Global,
    lookup: Lookup,
    place: UserPlace,
    progress: UserProgress,
}

impl UserCursor {
    /// A chain along valid databases, before any answer.
    pub fn new(
        alloc: Global,
        dbs: &[Userdb],
        user: Text,
        passdb_fields: Fields,
        vars: Vars,
    ) -> Result<UserCursor, AllocError>
        requires { IsTrue (are_valid_userdbs dbs.now) }
        ensures { IfOk result (λ cursor. UserStandsAfter dbs.now (lookup_for user passdb_fields vars) [] cursor) }
    {
        let lookup = Lookup {
            user,
            passdb_fields,
            vars,
        };
        let mut progress = UserProgress::new(alloc);
        let place = walk(alloc, dbs, &lookup.subject(), &[], 0, &mut progress)?;
        Ok(UserCursor {
            alloc,
            lookup,
            place,
            progress,
        })
    }

    /// What the chain asks next or finds, after the answers taken. `dbs` is the list of `new`.
    pub fn at(&self, alloc: Global, dbs: &[Userdb]) -> Result<UserChain, AllocError>
        requires { IsAlong dbs.now self.now }
        ensures { IfOk result (λ chain. TellsChain dbs.now self.now chain) }
    {
        tell(alloc, dbs, self.place, &self.progress)
    }

    /// Takes the answer of the database that the chain asks. `dbs` is the list of `new`. Where memory is wanted, nothing
    /// changes.
    pub fn take(&mut self, dbs: &[Userdb], answer: Answer) -> Result<(), AllocError>
        requires { IsAsking dbs.now self.old }
        ensures ok { OnOk result (TakesAnswer dbs.now answer self.old self.new) }
        ensures err { OnErr result (self.new ≡ self.old) }
    {
        let UserPlace::Before(index) = self.place else {
            unreachable!();
        };
        let mut progress = self.progress.copy(self.alloc)?;
        let subject = self.lookup.subject();
        let place = walk_answered(self.alloc, dbs, &subject, &answer, index, &mut progress)?;
        self.place = place;
        self.progress = progress;
        Ok(())
    }

    /// An equal cursor.
    pub fn copy(&self, alloc: Global) -> Result<UserCursor, AllocError>
        ensures { IfOk result (λ cursor. cursor ≡ self.now) }
    {
        Ok(UserCursor {
            alloc: self.alloc,
            lookup: self.lookup.copy(alloc)?,
            place: self.place,
            progress: self.progress.copy(alloc)?,
        })
    }
}
