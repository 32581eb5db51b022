// Logins.

ghost use Rattle.std.specs.Prelude.{◌≡◌, IfOk};

use da_fields::Text;
use da_names::Vars;
use std::alloc::{AllocError, Global};

/// By what a login is proved.
#[derive(Drop)]
pub enum Proof {
    /// A plaintext password.
    Plain(Text),
    /// The proof of CRAM-MD5.
    Cram,
    /// The proof of SCRAM-SHA-256.
    Scram,
}

/// A login: its names made normal, its proof, and what the variables of templates stand for.
#[derive(Drop)]
pub struct Login {
    pub user: Text,
    /// The master who logs in as the user, in a master login.
    pub master: Option<Text>,
    pub proof: Proof,
    pub vars: Vars,
}

impl Proof {
    /// An equal proof.
    pub fn copy(&self, alloc: Global) -> Result<Proof, AllocError>
        ensures { IfOk result (λ proof. proof ≡ self.now) }
    {
        match self {
            Proof::Plain(password) => Ok(Proof::Plain(password.copy(alloc)?)),
            Proof::Cram => Ok(Proof::Cram),
            Proof::Scram => Ok(Proof::Scram),
        }
    }
}

impl Login {
    /// An equal login.
    pub fn copy(&self, alloc: Global) -> Result<Login, AllocError>
        ensures { IfOk result (λ login. login ≡ self.now) }
    {
        let master = match &self.master {
            Some(master) => Some(master.copy(alloc)?),
            None => None,
        };
        Ok(Login {
            user: self.user.copy(alloc)?,
            master,
            proof: self.proof.copy(alloc)?,
            vars: self.vars.copy(alloc)?,
        })
    }
}
