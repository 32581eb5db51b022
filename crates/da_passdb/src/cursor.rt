// Chains of logins from all answers at once, and answer by answer.

ghost use Rattle.std.specs.Prelude.{◌≡◌, [], IfOk, OnOk, OnErr, IsTrue};
ghost use Rattle.da_passdb.specs.LoginChain.{are_valid_passdbs, login_chain};
ghost use Rattle.da_passdb.specs.Cursors.{StandsAfter, IsAlong, IsAsking, TellsChain, TakesAnswer};

use crate::chain::Chain;
use crate::database::Passdb;
use crate::login::Login;
use crate::part::Part;
use crate::progress::Progress;
use crate::walk::{Place, Stand, walk, walk_answered};
use da_fields::Answer;
use da_schemes::Checked;
use std::alloc::{AllocError, Global};

/// What the chain of a login along valid databases asks next, or its verdict, from all answers so far.
pub fn next(
    alloc: Global,
    dbs: &[Passdb],
    login: &Login,
    answers: &[(u32, Answer)],
) -> Result<Chain, AllocError>
    requires { IsTrue (are_valid_passdbs dbs.now) }
    ensures { IfOk result (λ chain. chain ≡ login_chain dbs.now login.now answers.now) }
{
    let progress = Progress::new(alloc);
    let part = Part::first(login);
    let stand = walk(alloc, dbs, login, answers, part, 0, progress)?;
    stand.tell(alloc, dbs, login)
}

/// The chain of a login that takes one answer after the other. It keeps how far it has come, and the state so far.
#[derive(Drop)]
pub struct Cursor {
    alloc: Global,
    login: Login,
    stand: Stand,
}

impl Cursor {
    /// The chain of a login along valid databases, before any answer.
    pub fn new(alloc: Global, dbs: &[Passdb], login: Login) -> Result<Cursor, AllocError>
        requires { IsTrue (are_valid_passdbs dbs.now) }
        ensures { IfOk result (λ cursor. StandsAfter dbs.now login [] cursor) }
    {
        let progress = Progress::new(alloc);
        let part = Part::first(&login);
        let stand = walk(alloc, dbs, &login, &[], part, 0, progress)?;
        Ok(Cursor {
            alloc,
            login,
            stand,
        })
    }

    /// What the chain asks next, or its verdict, after the answers taken. `dbs` is the list of `new`.
    pub fn at(&self, alloc: Global, dbs: &[Passdb]) -> Result<Chain, AllocError>
        requires { IsAlong dbs.now self.now }
        ensures { IfOk result (λ chain. TellsChain dbs.now self.now chain) }
    {
        self.stand.tell(alloc, dbs, &self.login)
    }

    /// Takes the answer of the database that the chain asks. `dbs` is the list of `new`. A password that the memo has
    /// checked already isn't checked again; what comes of the answer is the same. Where memory is wanted, nothing changes.
    pub fn take(
        &mut self,
        dbs: &[Passdb],
        answer: Answer,
        memo: &[Checked],
    ) -> Result<(), AllocError>
        requires { IsAsking dbs.now self.old }
        ensures ok { OnOk result (TakesAnswer dbs.now answer self.old self.new) }
        ensures err { OnErr result (self.new ≡ self.old) }
    {
        let Place::Before(index) = self.stand.place else {
            unreachable!();
        };
        let before = self.stand.copy(self.alloc)?;
        let after = walk_answered(self.alloc, dbs, &self.login, &answer, memo, index, before)?;
        self.stand = after;
        Ok(())
    }

    /// An equal cursor.
    pub fn copy(&self, alloc: Global) -> Result<Cursor, AllocError>
        ensures { IfOk result (λ cursor. cursor ≡ self.now) }
    {
        Ok(Cursor {
            alloc: self.alloc,
            login: self.login.copy(alloc)?,
            stand: self.stand.copy(alloc)?,
        })
    }
}
