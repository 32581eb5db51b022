// User databases, and what a chain of them comes to.

ghost use Rattle.std.specs.Prelude.{◌≡◌, IfOk};
ghost use Rattle.da_userdb.specs.UserChain.{are_valid_userdbs, is_valid_userdb};

use da_chain::are_templates;
use da_fields::{Fields, Rule, Text};
use da_names::Vars;
use std::alloc::{AllocError, Global};

/// When a database is passed over.
#[derive(Clone, Copy, Drop, PartialEq, Eq)]
pub enum UserSkip {
    Never,
    /// Where the user was found already.
    Found,
    /// Where the user was not found yet.
    NotFound,
}

/// What answers for a database.
#[derive(Clone, Copy, Drop, PartialEq, Eq)]
pub enum UserDriver {
    /// A file in the form of passwd.
    PasswdFile,
    /// A worker.
    Worker,
    /// The fields that the password databases gave.
    Prefetch,
}

/// A user database, as the settings have it. The values of its default and override fields are templates.
#[derive(Drop)]
pub struct Userdb {
    /// Its place among the user databases, counted from 1.
    pub number: u32,
    pub driver: UserDriver,
    /// The path of the file.
    pub args: Text,
    pub skip: UserSkip,
    pub result_success: Rule,
    pub result_failure: Rule,
    pub result_internalfail: Rule,
    pub default_fields: Fields,
    pub override_fields: Fields,
}

/// Whether the databases are numbered 1, 2 and so on in order, and the default and override fields of each have keys that
/// aren't empty and templates as values. It takes no memory.
pub fn are_valid_userdbs(dbs: &[Userdb]) -> bool
    ensures { result ≡ are_valid_userdbs dbs.now }
{
    for (index, db) in dbs.iter().enumerate() {
        if db.number as usize != index + 1 || !db.is_valid() {
            return false;
        }
    }
    true
}

impl Userdb {
    // Whether its default and override fields have keys, and templates as values.
    fn is_valid(&self) -> bool
        ensures { result ≡ is_valid_userdb self.now }
    {
        are_templates(&self.default_fields) && are_templates(&self.override_fields)
    }

    /// An equal database.
    pub fn copy(&self, alloc: Global) -> Result<Userdb, AllocError>
        ensures { IfOk result (λ db. db ≡ self.now) }
    {
        Ok(Userdb {
            number: self.number,
            driver: self.driver,
            args: self.args.copy(alloc)?,
            skip: self.skip,
            result_success: self.result_success,
            result_failure: self.result_failure,
            result_internalfail: self.result_internalfail,
            default_fields: self.default_fields.copy(alloc)?,
            override_fields: self.override_fields.copy(alloc)?,
        })
    }
}

/// What a chain does next, or how it ends.
#[derive(Drop)]
pub enum UserChain {
    /// It asks this database for the user.
    Ask { db: u32 },
    Found { fields: Fields },
    NotFound,
    /// The user was not found, and a database gave no answer.
    Temp,
}

/// For whom a lookup is made: a user, the fields that the password databases gave, and what variables stand for.
#[derive(Drop)]
pub struct Lookup {
    pub user: Text,
    pub passdb_fields: Fields,
    pub vars: Vars,
}

impl Lookup {
    /// An equal lookup.
    pub fn copy(&self, alloc: Global) -> Result<Lookup, AllocError>
        ensures { IfOk result (λ lookup. lookup ≡ self.now) }
    {
        Ok(Lookup {
            user: self.user.copy(alloc)?,
            passdb_fields: self.passdb_fields.copy(alloc)?,
            vars: self.vars.copy(alloc)?,
        })
    }
}
