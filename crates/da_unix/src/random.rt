// Random bytes as the system has them.

ghost use Rattle.std.specs.Prelude.{None};

use da_outside::Rand;
use rand::rngs::StdRng;
use rand::{Rng, SeedableRng, make_rng};
use std::io;
use std::random::RandomSource;

/// A strong generator that the system's source of random bytes has seeded. It tells nothing of its draws.
#[derive(Drop)]
pub struct Random {
    generator: StdRng,
}

impl Random {
    /// An error where the system gives no random bytes.
    pub fn new<R: RandomSource>(rt: &R) -> io::Result<Random> {
        Ok(Random {
            generator: make_rng(rt)?,
        })
    }
}

impl Rand for Random {
    ghost draws = { λ _. None };

    fn bytes(&mut self) -> [u8; 16] {
        let mut bytes = [0; 16];
        self.generator.fill_bytes(&mut bytes);
        bytes
    }

    fn fork(&mut self) -> Self {
        Random {
            generator: StdRng::from_rng(&mut self.generator),
        }
    }
}
