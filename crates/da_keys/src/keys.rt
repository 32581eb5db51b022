// The keys of the cache, the most recent first.

ghost use Rattle.std.specs.Prelude.{◌≡◌, OnOk};
ghost use Rattle.da_keys.specs.Keys.{has_key, key_first, with_key, without_key};

use crate::key::Key;
use da_fields::QueryKind;
use std::alloc::AllocError;

/// Whether the key of this kind, database and user is there.
pub fn has_key(keys: &[Key], kind: QueryKind, db: u32, user: &[u8]) -> bool
    ensures { result ≡ has_key (record { kind = kind; db = db; user = user.now }) keys.now }
{
    keys.iter().any(|key| key.is_of(kind, db, user))
}

/// Takes this key out.
pub fn without_key(keys: &mut Vec<Key>, taken: &Key)
    ensures { keys.new.items ≡ without_key taken.now keys.old.items }
{
    keys.retain(|key| !taken.is(key));
}

/// Brings this key first.
pub fn key_first(keys: &mut Vec<Key>, key: Key) -> Result<(), AllocError>
    ensures { OnOk result (keys.new.items ≡ key_first key keys.old.items) }
{
    without_key(keys, &key);
    keys.insert(0, key)?;
    Ok(())
}

/// Puts the key of a new answer first, of which at most `size` are kept. A key whose answers have a ttl of 0 is taken out.
pub fn with_key(keys: &mut Vec<Key>, size: u32, ttl: u64, key: Key) -> Result<(), AllocError>
    ensures { OnOk result (keys.new.items ≡ with_key size ttl key keys.old.items) }
{
    if ttl == 0 {
        without_key(keys, &key);
        return Ok(());
    }
    key_first(keys, key)?;
    keys.truncate(size as usize);
    Ok(())
}
