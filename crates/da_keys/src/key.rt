// Keys.

ghost use Rattle.std.specs.Prelude.{◌≡◌, IfOk};
ghost use Rattle.da_keys.specs.Keys.{same_key, same_kind};

use da_fields::{QueryKind, Text};
use std::alloc::{AllocError, Global};

/// What the answers of databases are kept under: a query of the kind `Pass` or `User`, its database and its user.
#[derive(Drop)]
pub struct Key {
    pub kind: QueryKind,
    pub db: u32,
    pub user: Text,
}

/// Whether the kinds are the same.
pub fn is_same_kind(one: QueryKind, other: QueryKind) -> bool
    ensures { result ≡ same_kind one other }
{
    match one {
        QueryKind::Pass => matches!(other, QueryKind::Pass),
        QueryKind::Check => matches!(other, QueryKind::Check),
        QueryKind::User => matches!(other, QueryKind::User),
    }
}

impl Key {
    /// Whether it is the key of this kind, this database and this user.
    pub fn is_of(&self, kind: QueryKind, db: u32, user: &[u8]) -> bool
        ensures { result ≡ same_key (record { kind = kind; db = db; user = user.now }) self.now }
    {
        is_same_kind(kind, self.kind) && db == self.db && user == self.user.bytes()
    }

    /// Whether the other key is the same.
    pub fn is(&self, other: &Key) -> bool
        ensures { result ≡ same_key self.now other.now }
    {
        other.is_of(self.kind, self.db, self.user.bytes())
    }

    /// An equal key.
    pub fn copy(&self, alloc: Global) -> Result<Key, AllocError>
        ensures { IfOk result (λ key. key ≡ self.now) }
    {
        Ok(Key {
            kind: self.kind,
            db: self.db,
            user: self.user.copy(alloc)?,
        })
    }
}
