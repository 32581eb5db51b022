// The parts of a chain.

ghost use Rattle.std.specs.Prelude.{◌≡◌};
ghost use Rattle.da_passdb.specs.Places.{are_masters, asked_name, first_part, has_authz, is_of};

use crate::database::Passdb;
use crate::login::{Login, Proof};
use da_fields::Text;

/// A part of a login's chain: which databases it walks along, and for whom.
#[derive(Clone, Copy, Drop)]
pub(crate) enum Part {
    /// A login that has no master: the databases that authenticate users.
    Ordinary,
    /// The first part of a master login: the databases that authenticate masters, for the master.
    Masters,
    /// Its second part, once the master is authenticated: the databases that authenticate users, for the user.
    AfterMasters,
}

impl Part {
    /// Where the chain of a login begins.
    pub(crate) fn first(login: &Login) -> Part
        ensures { result ≡ first_part login.now }
    {
        match &login.master {
            Some(_) => Part::Masters,
            None => Part::Ordinary,
        }
    }

    pub(crate) fn is_masters(self) -> bool
        ensures { result ≡ are_masters self }
    {
        matches!(self, Part::Masters)
    }

    /// Whether the part walks along this database.
    pub(crate) fn has(self, db: &Passdb) -> bool
        ensures { result ≡ is_of self db.now }
    {
        match self {
            Part::Masters => db.master,
            Part::Ordinary | Part::AfterMasters => !db.master,
        }
    }

    /// The name for which the databases are asked.
    pub(crate) fn name(self, login: &Login) -> &Text
        ensures { result.now ≡ asked_name self login.now }
    {
        match self {
            Part::Masters => match &login.master {
                Some(master) => master,
                None => &login.user,
            },
            Part::Ordinary | Part::AfterMasters => &login.user,
        }
    }

    /// Whether an end here tells that the master of a plaintext login was authenticated.
    pub(crate) fn has_authz(self, login: &Login) -> bool
        ensures { result ≡ has_authz self login.now }
    {
        match self {
            Part::AfterMasters => matches!(login.proof, Proof::Plain(_)),
            Part::Ordinary | Part::Masters => false,
        }
    }
}
