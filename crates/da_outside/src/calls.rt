ghost use Rattle.std.specs.Prelude.{◌≡◌, ◌≤◌};
ghost use Rattle.std.specs.Bool.{OnTrue};
ghost use Rattle.da_outside.specs.Calls.{called, fails_next, faulted, no_calls};
ghost use Rattle.da_outside.specs.Causes.{Rose};

use std::marker::Model;

/// The calls made on a form in memory: their number, the numbers of those that fail, and how many failed.
#[derive(Debug, Drop)]
pub(crate) struct Calls {
    made: u64,
    fail: Vec<u64>,
    faults: u64,
}

impl Model for Calls {
    ghost use Rattle.da_outside.specs.Calls.{Counts};

    ghost Value = { Counts };

    ghost view = { λ calls. record { made = calls.made; fail = calls.fail.items; faults = calls.faults } };
}

impl Calls {
    /// No call was made, and those of these numbers will fail.
    pub(crate) fn new(fail: Vec<u64>) -> Calls
        ensures { result ≡ no_calls fail.items }
    {
        Calls {
            made: 0,
            fail,
            faults: 0,
        }
    }

    /// Whether the next call fails.
    pub(crate) fn fails_next(&self) -> bool
        ensures { result ≡ fails_next self.now }
    {
        self.fail.contains(&self.made.saturating_add(1))
    }

    /// Counts one more call, and its fault where it failed.
    pub(crate) fn count(&mut self, failed: bool)
        ensures calls { self.new ≡ called self.old failed }
        ensures later { self.old.faults ≤ self.new.faults }
        ensures rose { OnTrue failed (Rose self.old.faults self.new.faults) }
    {
        self.made = self.made.saturating_add(1);
        if failed {
            self.fault();
        }
    }

    /// Counts a fault that came with no call that can fail.
    pub(crate) fn fault(&mut self)
        ensures calls { self.new ≡ faulted self.old }
        ensures later { self.old.faults ≤ self.new.faults }
        ensures rose { Rose self.old.faults self.new.faults }
    {
        self.faults = self.faults.saturating_add(1);
    }

    /// How many failed.
    pub(crate) fn faults(&self) -> u64
        ensures { result ≡ self.now.faults }
    {
        self.faults
    }
}
