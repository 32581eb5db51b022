ghost use Rattle.std.specs.Prelude.{◌≡◌, ℕ};
ghost use Rattle.da_outside.specs.Clock.{TellsOneOf};

use std::marker::Model;
use std::sync::atomic::{AtomicUsize, Ordering};

/// A clock.
pub trait Clock {
    /// The moments that it may tell.
    ghost may_tell: { Self → ℕ → Type 0 };

    /// A moment, in milliseconds.
    fn now(&self) -> u64
        ensures { may_tell self.now result };
}

/// A clock that tells these moments in order, and then the last of them again. Without moments it tells 0.
#[derive(Debug, Drop)]
pub struct SetClock {
    moments: Vec<u64>,
    reported: AtomicUsize,
}

impl Model for SetClock {
    ghost use Rattle.std.specs.Prelude.{List, ℕ};

    ghost Value = { List ℕ };

    ghost view = { λ clock. clock.moments.items };
}

impl SetClock {
    pub fn new(moments: Vec<u64>) -> SetClock
        ensures { result ≡ moments.items }
    {
        SetClock {
            moments,
            reported: AtomicUsize::new(0),
        }
    }
}

impl Clock for SetClock {
    ghost may_tell = { TellsOneOf };

    fn now(&self) -> u64 {
        let count = self.moments.len();
        if count == 0 {
            return 0;
        }
        let reported = self.reported.fetch_add(1, Ordering::SeqCst);
        self.moments[reported.min(count - 1)]
    }
}
