// A stored password held against a plaintext, once.
ghost use Rattle.std.specs.Prelude.{◌≡◌, ◌↔◌, IsTrue};
ghost use Rattle.da_schemes.specs.Stored.{matches};

use crate::digest::same_bytes;
use crate::octets::Octets;
use crate::stored::Stored;
use std::marker::Model;

/// A stored password, a plaintext, and whether it matches, so that the digest is computed once.
#[derive(Drop)]
pub struct Checked {
    stored: Stored,
    plain: Octets,
    answer: bool,
}

impl Model for Checked {
    ghost use Rattle.std.specs.Prelude.{◌≡◌};
    ghost use Rattle.da_schemes.specs.Stored.{matches};
    ghost use Rattle.da_schemes.specs.Memo.{Held};

    ghost Value = { Held };

    ghost view = { λ c. record { stored = c.stored; plain = c.plain } };

    ghost invariant = { λ c. c.answer ≡ matches c.stored c.plain };
}

impl Checked {
    /// Holds the stored password against the plaintext.
    pub fn new(stored: Stored, plain: Octets) -> Checked
        ensures stored { result.stored ≡ stored }
        ensures plain { result.plain ≡ plain }
    {
        let answer = stored.matches(plain.bytes());
        Checked {
            stored,
            plain,
            answer,
        }
    }

    /// Whether the plaintext matches.
    pub fn answer(&self) -> bool
        ensures { result ≡ matches self.now.stored self.now.plain }
    {
        self.answer
    }

    /// Whether this is what was held: the same stored password, and the same plaintext.
    pub fn is_of(&self, stored: &Stored, plain: &[u8]) -> bool
        ensures { IsTrue result ↔ (self.now.stored ≡ stored.now) × (self.now.plain ≡ plain.now) }
    {
        self.stored.is_same(stored) && same_bytes(self.plain.bytes(), plain)
    }
}
