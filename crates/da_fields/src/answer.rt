// Queries and answers.

ghost use Rattle.std.specs.Prelude.{◌≡◌, IfOk};

use crate::fields::Fields;
use crate::text::Text;
use std::alloc::{AllocError, Global};

/// Why a database gave no answer of its own.
#[derive(Clone, Copy, Drop, PartialEq, Eq)]
pub enum Why {
    /// The worker or child died, or could not be started.
    Died,
    /// What it wrote is no answer to the query.
    Malformed,
    /// It said that it failed.
    Said,
    /// It took longer than the limit of a query.
    Late,
    /// A checkpassword child ended with a status that has no other meaning.
    Exit(u32),
}

/// What a database answered.
#[derive(Drop)]
pub enum Answer {
    /// The user is there: the stored password (empty for a user database), and the fields.
    Found { stored: Text, fields: Fields },
    /// The password was checked and is right.
    Passed { fields: Fields },
    /// The password was checked and is wrong.
    Mismatch,
    /// There is no such user.
    Unknown,
    /// The database gave no answer.
    Internal(Why),
}

impl Answer {
    /// An equal answer.
    pub fn copy(&self, alloc: Global) -> Result<Answer, AllocError>
        ensures { IfOk result (λ answer. answer ≡ self.now) }
    {
        Ok(match self {
            Answer::Found { stored, fields } => Answer::Found {
                stored: stored.copy(alloc)?,
                fields: fields.copy(alloc)?,
            },
            Answer::Passed { fields } => Answer::Passed {
                fields: fields.copy(alloc)?,
            },
            Answer::Mismatch => Answer::Mismatch,
            Answer::Unknown => Answer::Unknown,
            Answer::Internal(why) => Answer::Internal(*why),
        })
    }
}

/// What a query asks for.
#[derive(Clone, Copy, Drop, PartialEq, Eq)]
pub enum QueryKind {
    /// A password database is asked for a user's stored password.
    Pass,
    /// A checkpassword program is asked to check a password.
    Check,
    /// A user database is asked for a user's fields.
    User,
}

/// A question to a database.
#[derive(Drop)]
pub struct Query {
    /// The number of the query, counted from 1 in the order asked.
    pub number: u32,
    pub kind: QueryKind,
    /// The number of the database among its kind, counted from 1.
    pub db: u32,
    pub user: Text,
    /// The password to check, for a query of the kind `Check` alone.
    pub password: Option<Text>,
}

impl Query {
    /// An equal query.
    pub fn copy(&self, alloc: Global) -> Result<Query, AllocError>
        ensures { IfOk result (λ query. query ≡ self.now) }
    {
        let password = match &self.password {
            Some(password) => Some(password.copy(alloc)?),
            None => None,
        };
        Ok(Query {
            number: self.number,
            kind: self.kind,
            db: self.db,
            user: self.user.copy(alloc)?,
            password,
        })
    }
}
