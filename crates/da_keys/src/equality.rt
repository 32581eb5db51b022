// Keys may be the keys of a map.

ghost use Rattle.std.specs.Prelude.{◌≡◌};
ghost use Rattle.std.specs.Cmp.{partial_equiv_from_equiv};
ghost use Rattle.da_keys.specs.Keys.{kind_number, same_key};
ghost use Rattle.da_keys.specs.SameKeys.{same_key_equiv, key_writes, same_writes};

use crate::key::Key;
use da_fields::QueryKind;
use std::hash::{Hash, Hasher};

impl PartialEq for Key {
    ghost eq = { same_key };

    ghost laws = { partial_equiv_from_equiv same_key_equiv };

    fn eq(&self, other: &Key) -> bool {
        self.is(other)
    }
}

impl Eq for Key {
    ghost laws = { same_key_equiv };
}

impl Hash for Key {
    ghost hash_input = { key_writes };

    ghost respects_eq = { same_writes };

    fn hash<H: Hasher>(&self, state: &mut H) {
        state.write_u8(kind_number(self.kind));
        self.db.hash(state);
        self.user.bytes().hash(state);
    }
}

/// The number by which a kind is hashed.
fn kind_number(kind: QueryKind) -> u8
    ensures { result ≡ kind_number kind }
{
    match kind {
        QueryKind::Pass => 0,
        QueryKind::Check => 1,
        QueryKind::User => 2,
    }
}
