// The cache.

ghost use Rattle.std.specs.Prelude.{◌≡◌, [], true, is_some, IfOk, IfErr, IsOk, OnOk, OnErr};
ghost use Rattle.da_fields.specs.declared.answer.QueryKind.TheVariants.{Check};
ghost use Rattle.da_keys.specs.Keys.{has_key, without_key};
ghost use Rattle.da_cache.specs.Pairs.{MayBeKept, keys, number_at, touched, put_in, without_pair, without_user, key_touched, key_put};

use crate::answers;
use da_fields::Text;
use da_keys::Key;
use lru::LruCache;
use std::alloc::{AllocError, Global};
use std::marker::Model;
use std::num::NonZeroUsize;

/// Numbers of queries, each under the key of its answer. Contracts see the list of these pairs, the most recent first,
/// and its size: how many there may be.
#[derive(Drop)]
pub struct Cache {
    alloc: Global,
    size: u32,
    /// It has one place more than there may be pairs.
    answers: LruCache<Key, u32>,
}

impl Model for Cache {
    ghost use Rattle.std.specs.Prelude.{◌≡◌, ◌+◌, ◌≤◌, length};
    ghost use Rattle.da_cache.specs.Pairs.{Kept, AllMayBeKept};

    ghost Value = { Kept };

    ghost view = { λ c. record { size = c.size; pairs = c.answers.entries } };

    ghost invariant = { λ c. (c.answers.cap ≡ c.size + 1) × (length c.answers.entries ≤ c.size) × AllMayBeKept c.answers.entries };
}

impl Cache {
    /// An empty cache for so many pairs.
    pub fn new(alloc: Global, size: u32) -> Result<Cache, AllocError>
        ensures { IfOk result (λ cache. cache ≡ record { size = size; pairs = [] }) }
    {
        let places = NonZeroUsize::MIN.saturating_add(size as usize);
        Ok(Cache {
            alloc,
            size,
            answers: LruCache::sparse(alloc, places)?,
        })
    }

    /// The number under this key; `None` exactly where the key isn't there. It takes no memory.
    pub fn look(&self, key: &Key) -> Option<u32>
        ensures number { result ≡ number_at key.now self.now.pairs }
        ensures exact { is_some result ≡ has_key key.now (keys self.now) }
    {
        self.answers.peek(key).copied()
    }

    /// Brings this key first. A key that isn't there changes nothing. It takes no memory.
    pub fn touch(&mut self, key: &Key)
        ensures pairs { self.new ≡ record self.old { pairs = touched key.now self.old.pairs } }
        ensures keys { keys self.new ≡ key_touched key.now (keys self.old) }
    {
        answers::bring_first(&mut self.answers, key);
    }

    /// Brings each hit first, in order, and then puts the key first with its number; the last pair falls off a list that
    /// is longer than the size. Want of memory changes nothing, and hands the key back; a key that is there needs none.
    pub fn put(&mut self, hits: &[Key], key: Key, number: u32) -> Result<(), Key>
        requires { MayBeKept key }
        ensures pairs { OnOk result (self.new ≡ put_in hits.now key number self.old) }
        ensures keys { OnOk result (keys self.new ≡ key_put self.old.size hits.now key (keys self.old)) }
        ensures err { OnErr result (self.new ≡ self.old) }
        ensures back { IfErr result (λ back. back ≡ key) }
        ensures there { has_key key (keys self.old) ≡ true → IsOk result }
    {
        let Ok(()) = answers::hold(&mut self.answers, self.alloc, &key, number) else {
            return Err(key);
        };
        answers::bring_all_first(&mut self.answers, hits);
        answers::write_first(&mut self.answers, &key, number);
        answers::cut(&mut self.answers, self.size);
        Ok(())
    }

    /// Takes this key out. It takes no memory.
    pub fn drop_key(&mut self, key: &Key)
        ensures pairs { self.new ≡ record self.old { pairs = without_pair key.now self.old.pairs } }
        ensures keys { keys self.new ≡ without_key key.now (keys self.old) }
    {
        answers::take_out(&mut self.answers, key);
    }

    /// Takes out each key of this user. It takes no memory.
    pub fn drop_user(&mut self, user: Text)
        ensures { self.new ≡ record self.old { pairs = without_user user self.old.pairs } }
    {
        answers::take_out_user(&mut self.answers, user);
    }

    /// Takes out each key. It takes no memory.
    pub fn drop_all(&mut self)
        ensures { self.new ≡ record self.old { pairs = [] } }
    {
        self.answers.clear();
    }
}
