// The time of the system.

ghost use Rattle.std.specs.Prelude.{⊤};

use da_outside::{Clock, Pause};
use std::thread;
use std::time::{Duration, SystemTime, UNIX_EPOCH};

/// How long a rest is, in milliseconds.
const REST: u64 = 10;

/// The clock of the system, in milliseconds since 1970. It is 0 where it can't be read.
#[derive(Drop)]
pub struct Now<'a, R> {
    rt: &'a R,
}

impl<'a, R: std::time::Clock> Now<'a, R> {
    pub fn new(rt: &'a R) -> Self {
        Now { rt }
    }
}

fn millis(since: Duration) -> u64 {
    since
        .as_secs()
        .saturating_mul(1000)
        .saturating_add(u64::from(since.subsec_millis()))
}

impl<'a, R: std::time::Clock> Clock for Now<'a, R> {
    ghost may_tell = { λ _ _. ⊤ };

    fn now(&self) -> u64 {
        let Ok(now) = SystemTime::now(self.rt) else {
            return 0;
        };
        match now.duration_since(UNIX_EPOCH) {
            Ok(since) => millis(since),
            Err(_) => 0,
        }
    }
}

/// A rest of some milliseconds.
#[derive(Drop)]
pub struct Nap<'a, R> {
    rt: &'a R,
}

impl<'a, R: std::time::Clock> Nap<'a, R> {
    pub fn new(rt: &'a R) -> Self {
        Nap { rt }
    }
}

impl<'a, R: std::time::Clock> Pause for Nap<'a, R> {
    fn rest(&self) {
        thread::sleep(self.rt, Duration::from_millis(REST));
    }
}
