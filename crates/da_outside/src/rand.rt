ghost use Rattle.std.specs.Prelude.{◌≡◌, List, ℕ, Option, Some, take};
ghost use Rattle.da_outside.specs.Rand.{Draws, draw_of};

use std::marker::Model;

/// Random bytes.
pub trait Rand {
    /// The draws to come, counted from 0, where it tells them.
    ghost draws: { Self → Option (ℕ → List ℕ) };

    /// The next sixteen bytes.
    fn bytes(&mut self) -> [u8; 16]
        ensures { Draws (draws self.old) (draws self.new) result };

    /// Another one, for another thread.
    fn fork(&mut self) -> Self;
}

const KEPT: usize = 16;

/// Random bytes that are set: the items in order, and then the last of them again. Without items these are zeros.
#[derive(Debug, Drop)]
pub struct SetRand {
    items: [[u8; 16]; KEPT],
    count: usize,
    at: usize,
}

impl Model for SetRand {
    ghost use Rattle.std.specs.Prelude.{◌≤◌, ◌-◌, take};
    ghost use Rattle.da_outside.specs.Rand.{RandState};

    ghost Value = { RandState };

    ghost view = { λ rand. record { items = take rand.count rand.items; at = rand.at } };

    ghost invariant = { λ rand. (rand.count ≤ 16) × (rand.at ≤ rand.count - 1) };
}

impl SetRand {
    /// Keeps the first 16 of the items.
    pub fn new(items: &[[u8; 16]]) -> SetRand
        ensures { result ≡ record { items = take 16 items.now; at = 0 } }
    {
        let count = items.len().min(KEPT);
        let mut kept = [[0; 16]; KEPT];
        kept[..count].copy_from_slice(&items[..count]);
        SetRand {
            items: kept,
            count,
            at: 0,
        }
    }
}

impl Rand for SetRand {
    ghost draws = { λ rand. Some (draw_of rand) };

    fn bytes(&mut self) -> [u8; 16]
        ensures draws { Draws (Some (draw_of self.old)) (Some (draw_of self.new)) result }
        ensures items { self.new.items ≡ self.old.items }
    {
        if self.count == 0 {
            return [0; 16];
        }
        let bytes = self.items[self.at];
        self.at = (self.at + 1).min(self.count - 1);
        bytes
    }

    /// It is a copy.
    fn fork(&mut self) -> Self
        ensures copy { result ≡ self.old }
        ensures kept { self.new ≡ self.old }
    {
        SetRand {
            items: self.items,
            count: self.count,
            at: self.at,
        }
    }
}
