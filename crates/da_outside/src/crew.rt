ghost use Rattle.std.specs.Prelude.{◌≡◌, []};

use crate::{Runner, SoundRunner, SoundSpawner, Spawner};
use std::alloc::Global;

/// What each worker is given: a spawner and a runner of its own.
pub trait Crew {
    type Spawner: Spawner;

    type Runner: Runner;

    /// The next worker's pair.
    fn member(&mut self) -> (Self::Spawner, Self::Runner);
}

/// Spawners and runners that never fail, and have no links and exits to come.
#[derive(Debug, Drop)]
pub struct SoundCrew {
    alloc: Global,
}

impl SoundCrew {
    pub fn new(alloc: Global) -> SoundCrew {
        SoundCrew { alloc }
    }
}

impl Crew for SoundCrew {
    type Spawner = SoundSpawner;

    type Runner = SoundRunner;

    fn member(&mut self) -> (SoundSpawner, SoundRunner)
        ensures spawner { result.0 ≡ [] }
        ensures runner { result.1 ≡ [] }
    {
        (
            SoundSpawner::new(Vec::new(self.alloc)),
            SoundRunner::new(Vec::new(self.alloc)),
        )
    }
}
