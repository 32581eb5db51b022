// The steps on the list of pairs, of which `store` and `hold` alone take memory.

ghost use Rattle.std.specs.Prelude.{◌≡◌, ◌∷◌, ◌+◌, ◌≤◌, None, true, is_some, length, take, IsOk, OnOk, OnErr};
ghost use Rattle.lru.specs.LruCache.{lru_cache};
ghost use Rattle.da_cache.specs.Pairs.{number_at, without_pair, pair_first, touched, all_touched, without_user, Holds, AllMayBeKept};

use da_fields::{QueryKind, Text};
use da_keys::Key;
use lru::LruCache;
use std::alloc::{AllocError, Global};

/// How many databases of a kind there may be.
const DATABASES: u32 = 16;

/// Brings this key first, where it is there.
pub(crate) fn bring_first(answers: &mut LruCache<Key, u32>, key: &Key)
    ensures { answers.new ≡ lru_cache (touched key.now answers.old.entries) answers.old.cap }
{
    let count = answers.len();
    prove!(count < usize::MAX);
    answers.promote(key);
}

/// Brings each of these keys first, in turn.
pub(crate) fn bring_all_first(answers: &mut LruCache<Key, u32>, keys: &[Key])
    ensures { answers.new ≡ lru_cache (all_touched keys.now answers.old.entries) answers.old.cap }
{
    for key in keys {
        bring_first(answers, key);
    }
}

/// Takes this key out.
pub(crate) fn take_out(answers: &mut LruCache<Key, u32>, key: &Key)
    ensures { answers.new ≡ lru_cache (without_pair key.now answers.old.entries) answers.old.cap }
{
    let count = answers.len();
    prove!(count < usize::MAX);
    answers.pop(key);
}

/// Stores a copy of this key, which isn't there, where there is a place for it.
fn store(
    answers: &mut LruCache<Key, u32>,
    alloc: Global,
    key: &Key,
    number: u32,
) -> Result<(), AllocError>
    requires absent { number_at key.now answers.old.entries ≡ None }
    requires place { length answers.old.entries + 1 ≤ answers.old.cap }
    ensures ok { OnOk result (answers.new ≡ lru_cache ((key.now, number) ∷ answers.old.entries) answers.old.cap) }
    ensures err { OnErr result (answers.new ≡ answers.old) }
{
    let copy = key.copy(alloc)?;
    answers.put(copy, number)?;
    Ok(())
}

/// Sees to it that this key is there: takes the memory for it, where it isn't, and changes no other.
pub(crate) fn hold(
    answers: &mut LruCache<Key, u32>,
    alloc: Global,
    key: &Key,
    number: u32,
) -> Result<(), AllocError>
    requires place { length answers.old.entries + 1 ≤ answers.old.cap }
    ensures held { OnOk result (Holds key.now answers.old.entries answers.new.entries) }
    ensures cap { answers.new.cap ≡ answers.old.cap }
    ensures err { OnErr result (answers.new ≡ answers.old) }
    ensures there { is_some (number_at key.now answers.old.entries) ≡ true → IsOk result }
{
    if answers.contains(key) {
        return Ok(());
    }
    store(answers, alloc, key, number)
}

/// Brings this key first, which is there, and writes its number.
pub(crate) fn write_first(answers: &mut LruCache<Key, u32>, key: &Key, number: u32)
    requires { is_some (number_at key.now answers.old.entries) ≡ true }
    ensures { answers.new ≡ lru_cache (pair_first key.now number answers.old.entries) answers.old.cap }
{
    bring_first(answers, key);
    if let Some(kept) = answers.peek_mut(key) {
        *kept = number;
    }
}

/// Lets the last pair fall off, where there are more than `size`.
pub(crate) fn cut(answers: &mut LruCache<Key, u32>, size: u32)
    requires { answers.old.cap ≡ size + 1 }
    ensures { answers.new ≡ lru_cache (take size answers.old.entries) answers.old.cap }
{
    if answers.len() > size as usize {
        answers.pop_lru();
    }
}

/// Takes out each key of this user.
pub(crate) fn take_out_user(answers: &mut LruCache<Key, u32>, user: Text)
    requires { AllMayBeKept answers.old.entries }
    ensures { answers.new ≡ lru_cache (without_user user answers.old.entries) answers.old.cap }
{
    let mut key = Key {
        kind: QueryKind::Pass,
        db: 0,
        user,
    };
    for db in 0..DATABASES {
        key.db = db + 1;
        key.kind = QueryKind::Pass;
        take_out(answers, &key);
        key.kind = QueryKind::User;
        take_out(answers, &key);
    }
}
