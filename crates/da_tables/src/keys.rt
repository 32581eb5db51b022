// The keys of the cache.

ghost use Rattle.std.specs.Prelude.{◌≡◌, OnOk};
ghost use Rattle.da_keys.specs.Keys.{key_first, with_key};

use da_keys::{Key, key_first, with_key};
use std::alloc::AllocError;
use std::marker::Model;

/// Keys of the cache.
#[derive(Drop)]
pub struct Keys {
    pub(crate) items: Vec<Key>,
}

impl Model for Keys {
    ghost use Rattle.std.specs.Prelude.{List};
    ghost use Rattle.da_keys.specs.declared.key.Key.{Key};

    ghost Value = { List Key };

    ghost view = { λ t. t.items.items };
}

impl Keys {
    /// All keys, the most recent first.
    pub fn all(&self) -> &[Key]
        ensures { result.now ≡ self.now }
    {
        &self.items
    }

    /// Brings this key first.
    pub fn bring_first(&mut self, key: Key) -> Result<(), AllocError>
        ensures { OnOk result (self.new ≡ key_first key self.old) }
    {
        key_first(&mut self.items, key)
    }

    /// Puts the key of a new answer first, of which at most `size` are kept, or takes it out where its answers have a ttl
    /// of 0.
    pub fn put(&mut self, size: u32, ttl: u64, key: Key) -> Result<(), AllocError>
        ensures { OnOk result (self.new ≡ with_key size ttl key self.old) }
    {
        with_key(&mut self.items, size, ttl, key)
    }
}
