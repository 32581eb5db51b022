// Password databases.

ghost use Rattle.std.specs.Prelude.{◌≡◌, IfOk};
ghost use Rattle.da_passdb.specs.LoginChain.{are_valid_passdbs, is_valid_passdb};

use da_chain::are_templates;
use da_fields::{Fields, Rule, Text};
use da_schemes::Scheme;
use std::alloc::{AllocError, Global};

/// When a database is passed over.
#[derive(Clone, Copy, Drop, PartialEq, Eq)]
pub enum Skip {
    Never,
    /// Where there is success already.
    Authenticated,
    /// Where there is no success yet.
    Unauthenticated,
}

/// What answers for a database.
#[derive(Clone, Copy, Drop, PartialEq, Eq)]
pub enum Driver {
    /// A file in the form of passwd.
    PasswdFile,
    /// A worker.
    Worker,
    /// A program that speaks the checkpassword interface.
    Checkpassword,
}

/// A password database, as the settings have it. The values of its default and override fields are templates.
#[derive(Drop)]
pub struct Passdb {
    /// Its place among the password databases, counted from 1.
    pub number: u32,
    pub driver: Driver,
    /// The path of the file or the program.
    pub args: Text,
    /// A user whom it knows is refused.
    pub deny: bool,
    /// It authenticates masters, who may log in as other users.
    pub master: bool,
    pub skip: Skip,
    pub result_success: Rule,
    pub result_failure: Rule,
    pub result_internalfail: Rule,
    /// The scheme of a stored password that names none.
    pub default_scheme: Scheme,
    pub username_filter: Text,
    pub default_fields: Fields,
    pub override_fields: Fields,
}

/// Whether the databases are numbered 1, 2 and so on in order, and the default and override fields of each have keys that
/// aren't empty and templates as values. It takes no memory.
pub fn are_valid_passdbs(dbs: &[Passdb]) -> bool
    ensures { result ≡ are_valid_passdbs dbs.now }
{
    for (index, db) in dbs.iter().enumerate() {
        if db.number as usize != index + 1 || !db.is_valid() {
            return false;
        }
    }
    true
}

impl Passdb {
    // Whether its default and override fields have keys, and templates as values.
    fn is_valid(&self) -> bool
        ensures { result ≡ is_valid_passdb self.now }
    {
        are_templates(&self.default_fields) && are_templates(&self.override_fields)
    }

    /// An equal database.
    pub fn copy(&self, alloc: Global) -> Result<Passdb, AllocError>
        ensures { IfOk result (λ db. db ≡ self.now) }
    {
        Ok(Passdb {
            number: self.number,
            driver: self.driver,
            args: self.args.copy(alloc)?,
            deny: self.deny,
            master: self.master,
            skip: self.skip,
            result_success: self.result_success,
            result_failure: self.result_failure,
            result_internalfail: self.result_internalfail,
            default_scheme: self.default_scheme,
            username_filter: self.username_filter.copy(alloc)?,
            default_fields: self.default_fields.copy(alloc)?,
            override_fields: self.override_fields.copy(alloc)?,
        })
    }
}
