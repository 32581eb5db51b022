//! A board on which threads leave marks.
ghost use Rattle.std.specs.Prelude.{◌≡◌, ◌<◌, ◌≤◌, ◌^◌, [], ◌∷◌, length, MatchBool};

use crate::mark::Mark;
use da_turn::Kept;
use std::alloc::Global;
use std::marker::Model;

/// The marks so far, up to a number of them that is fixed.
#[derive(Drop)]
pub struct Board {
    limit: u64,
    marks: Vec<Mark>,
}

impl Model for Board {
    ghost use Rattle.std.specs.Prelude.{reverse};
    ghost use Rattle.da_turn_bench.specs.Marks.{Marks};

    ghost Value = { Marks };

    ghost view = { λ b. record { limit = b.limit; marks = reverse b.marks.items } };
}

impl Kept for Board {
    type Entry = Mark;

    type Fixed = u64;

    ghost entries = { λ _ b. b.marks };

    ghost fixed = { λ b. b.limit };
}

impl Board {
    pub fn new(alloc: Global, limit: u64) -> Board
        ensures { (result.limit ≡ limit) × (result.marks ≡ []) }
    {
        Board {
            limit,
            marks: Vec::new(alloc),
        }
    }

    /// Leaves a mark, unless the board is full or memory runs out, and answers whether it did.
    pub fn leave_mark(&mut self, mark: Mark) -> bool
        ensures limit { self.new.limit ≡ self.old.limit }
        ensures marks { MatchBool result ((self.new.marks ≡ mark ∷ self.old.marks) × (length self.new.marks < 2 ^ 64)) (self.new.marks ≡ self.old.marks) }
    {
        let count = self.marks.len() as u64;
        count < self.limit && self.marks.push(mark).is_ok()
    }

    /// The marks in the order in which they were left.
    pub fn marks(&self) -> &[Mark] {
        self.marks.as_slice()
    }
}
