//! Where threads sleep until their turn comes. Whoever passes the turn on wakes the next thread, and
//! the others sleep on.

use std::array;
use std::sync::Wait;
use std::sync::atomic::{AtomicU64, Ordering};

// Threads whose numbers are this far apart share a bay.
const BAYS: usize = 64;

/// A place to sleep.
#[derive(Drop)]
pub(crate) struct Bay {
    /// How many threads sleep here or are about to.
    parked: AtomicU64,
    /// How often they were called.
    calls: AtomicU64,
}

/// The bays, of which each number has one.
#[derive(Drop)]
pub(crate) struct Parking {
    bays: [Bay; BAYS],
}

impl Bay {
    fn new() -> Bay {
        Bay {
            parked: AtomicU64::new(0),
            calls: AtomicU64::new(0),
        }
    }

    /// Announces a thread that is about to sleep here. It reads `calls` and then looks for its turn
    /// once more, so that no call is lost.
    pub(crate) fn arrive(&self) {
        self.parked.fetch_add(1, Ordering::SeqCst);
    }

    pub(crate) fn depart(&self) {
        self.parked.fetch_sub(1, Ordering::SeqCst);
    }

    /// The number of calls so far.
    pub(crate) fn calls(&self) -> u64 {
        self.calls.load(Ordering::SeqCst)
    }

    /// Sleeps until a call after these.
    pub(crate) fn sleep<R: Wait>(&self, rt: &R, calls: u64) {
        self.calls.park(rt, (calls % (1 << 32)) as u32);
    }

    /// Wakes those who sleep here. Where nobody does, it makes no system call.
    pub(crate) fn call(&self) {
        if self.parked.load(Ordering::SeqCst) > 0 {
            self.calls.fetch_add(1, Ordering::SeqCst);
            self.calls.wake_all();
        }
    }
}

impl Parking {
    pub(crate) fn new() -> Parking {
        Parking {
            bays: array::from_fn(|_| Bay::new()),
        }
    }

    /// The bay of whoever drew this number.
    pub(crate) fn bay(&self, number: u64) -> &Bay {
        &self.bays[(number % BAYS as u64) as usize]
    }
}

/// Where threads sleep that have drawn no number yet. No rule speaks of it, and those who sleep here
/// are in no line.
#[derive(Drop)]
pub(crate) struct Gate {
    /// At least how many threads sleep here or are about to, and were not called yet. Where one of
    /// them didn't sleep after all the number is too high, which costs a call that wakes nobody.
    parked: AtomicU64,
    /// How often one was called.
    calls: AtomicU64,
}

impl Gate {
    pub(crate) fn new() -> Gate {
        Gate {
            parked: AtomicU64::new(0),
            calls: AtomicU64::new(0),
        }
    }

    /// The number of calls so far.
    pub(crate) fn calls(&self) -> u64 {
        self.calls.load(Ordering::SeqCst)
    }

    /// Announces a thread that is about to sleep here. It has read `calls` before, and looks for a
    /// free turn once more afterwards, so that no call is lost. Only a call takes the announcement
    /// back: a thread that took back its own after it was called would take another thread's.
    pub(crate) fn arrive(&self) {
        self.parked.fetch_add(1, Ordering::SeqCst);
    }

    /// Sleeps until a call after these.
    pub(crate) fn sleep<R: Wait>(&self, rt: &R, calls: u64) {
        self.calls.park(rt, (calls % (1 << 32)) as u32);
    }

    /// Wakes one of those who sleep here. Where nobody does, it makes no system call.
    pub(crate) fn call(&self) {
        let parked = self.parked.load(Ordering::SeqCst);
        if parked > 0 {
            // Where the number changes meanwhile it stays too high.
            let _ = self
                .parked
                .compare_exchange(parked, parked - 1, Ordering::SeqCst, Ordering::SeqCst);
            self.calls.fetch_add(1, Ordering::SeqCst);
            self.calls.wake_one();
        }
    }
}
