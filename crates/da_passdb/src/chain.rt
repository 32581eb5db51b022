// What a chain comes to.

use da_fields::{Fields, QueryKind, Text};
use da_schemes::Stored;

/// How a chain ends.
#[derive(Clone, Copy, Drop, PartialEq, Eq)]
pub enum VerdictKind {
    Ok,
    Fail,
    /// A database gave no answer.
    Temp,
    /// A deny database has the user.
    Disabled,
    /// It ended with success, and the fields say that the password is expired.
    Expired,
}

/// The end of a chain.
#[derive(Drop)]
pub struct Verdict {
    pub kind: VerdictKind,
    /// The user, also in a master login.
    pub user: Text,
    /// The master of a plaintext login was authenticated.
    pub authz: bool,
    pub fields: Fields,
    pub credentials: Option<Stored>,
}

/// What a chain does next.
#[derive(Drop)]
pub enum Chain {
    /// It asks this database for this user. `checked` says whether a password has been checked already.
    Ask {
        db: u32,
        kind: QueryKind,
        user: Text,
        checked: bool,
    },
    Done(Verdict),
}
