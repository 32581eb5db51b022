ghost use Rattle.std.specs.Prelude.{◌≡◌, ◌++◌, ◌∷◌, []};

use crate::spawner::Spawned;
use std::marker::Model;
use std::mem;

/// A list whose items are added without memory, each into a box that was made before.
#[cycle(kept)]
#[derive(Drop)]
pub(crate) struct Kept {
    last: Last,
}

#[cycle(kept)]
#[derive(Drop)]
pub(crate) enum Last {
    Nothing,
    /// An item, with what stands before it.
    After(Box<Kept>, Spawned),
}

impl Model for Kept {
    ghost use Rattle.std.specs.Prelude.{List, length};
    ghost use Rattle.da_outside.specs.declared.spawner.Spawned.{Spawned};

    ghost Value = { List Spawned };

    ghost use Rattle.da_outside.specs.Kept.{kept_items};

    ghost view = { λ kept. kept_items kept.last };

    ghost size = { length };

    ghost use Rattle.std.proofs.Common.{arith, length-append};

    ghost size_decreases = { λ kept h. Prim.grind (arith, length-append) };
}

impl Kept {
    /// An empty list.
    pub(crate) fn new() -> Kept
        ensures { result ≡ [] }
    {
        Kept {
            last: Last::Nothing,
        }
    }

    /// Adds an item, for which there is this room.
    pub(crate) fn add(&mut self, mut room: Box<Kept>, item: Spawned)
        ensures { self.new ≡ self.old ++ item ∷ [] }
    {
        *room = mem::replace(self, Kept::new());
        *self = Kept {
            last: Last::After(room, item),
        };
    }
}
