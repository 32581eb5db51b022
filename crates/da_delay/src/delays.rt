// The pairs, in order.

ghost use Rattle.std.specs.Prelude.{◌≡◌, [], is_some, OnOk, OnErr};
ghost use Rattle.std.specs.List.{list_any};
ghost use Rattle.da_delay.specs.Delays.{IsInOrder, HasAlso, HasNoMore, has, is_due, first_due};

use std::alloc::{AllocError, Global};
use std::collections::BTreeSet;
use std::marker::Model;

/// Pairs of a due moment, in milliseconds, and the number of the request whose reply is due then. Contracts see them as
/// a list in order, by the moment and then by the number.
#[derive(Drop)]
pub struct Delays {
    pairs: BTreeSet<(u64, u32)>,
}

impl Model for Delays {
    ghost use Rattle.std.specs.Prelude.{List, ℕ};
    ghost use Rattle.da_delay.specs.Delays.{IsInOrder};

    ghost Value = { List (ℕ × ℕ) };

    ghost view = { λ d. d.pairs.keys };

    ghost invariant = { λ d. IsInOrder d.pairs.keys };
}

impl Delays {
    /// No pairs. It takes no memory.
    pub fn new(alloc: Global) -> Delays
        ensures { result ≡ [] }
    {
        Delays {
            pairs: BTreeSet::new(alloc),
        }
    }

    /// Adds this pair, at its place in the order. A pair that is there already stays as it is. Want of memory changes
    /// nothing.
    pub fn push(&mut self, due: u64, request: u32) -> Result<(), AllocError>
        ensures added { OnOk result (HasAlso (due, request) self.old self.new) }
        ensures order { IsInOrder self.new }
        ensures err { OnErr result (self.new ≡ self.old) }
    {
        self.pairs.insert((due, request))?;
        Ok(())
    }

    /// The first pair, where it is due at this moment; `None` exactly where no pair is. It takes no memory.
    pub fn first_due(&self, moment: u64) -> Option<(u64, u32)>
        ensures first { result ≡ first_due moment self.now }
        ensures exact { is_some result ≡ list_any (is_due moment) self.now }
        ensures order { IsInOrder self.now }
    {
        match self.pairs.first() {
            Some(first) if first.0 <= moment => Some(*first),
            _ => None,
        }
    }

    /// Takes this pair out, and says whether it was there. It takes no memory.
    pub fn remove(&mut self, due: u64, request: u32) -> bool
        ensures was { result ≡ has self.old (due, request) }
        ensures gone { HasNoMore (due, request) self.old self.new }
        ensures order { IsInOrder self.new }
    {
        self.pairs.remove(&(due, request))
    }
}
