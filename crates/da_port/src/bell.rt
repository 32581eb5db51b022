// Where threads sleep until something happens. Nothing is claimed of it: no clause says when a thread sleeps or wakes.

use std::array;
use std::sync::Wait;
use std::sync::atomic::{AtomicU64, Ordering};

// Connections whose numbers are this far apart share a bell.
const BELLS: usize = 1024;

/// A place to wait for the next of some events. `Port::take_lines`, `Port::mark_queries` and `Port::mark_clock` tell it.
#[derive(Clone, Copy, Drop)]
pub struct Mark {
    events: u64,
}

impl Mark {
    /// A mark before all events.
    pub fn new() -> Mark {
        Mark { events: 0 }
    }
}

/// A count of events, and a place to sleep until the next one.
#[derive(Drop)]
pub(crate) struct Bell {
    events: AtomicU64,
    /// How many threads sleep here or are about to.
    sleepers: AtomicU64,
}

/// The bells of a port.
#[derive(Drop)]
pub(crate) struct Bells {
    lines: [Bell; BELLS],
    /// It is rung where a query waits.
    pub(crate) queries: Bell,
    /// It is rung where a query runs, or a reply is held back.
    pub(crate) clock: Bell,
}

impl Bell {
    fn new() -> Bell {
        Bell {
            events: AtomicU64::new(0),
            sleepers: AtomicU64::new(0),
        }
    }

    /// The events so far.
    pub(crate) fn mark(&self) -> Mark {
        Mark {
            events: self.events.load(Ordering::SeqCst),
        }
    }

    /// Counts an event. Under the turn that made it, so that a mark that was read under a later turn has it.
    pub(crate) fn count(&self) {
        self.events.fetch_add(1, Ordering::SeqCst);
    }

    /// Wakes one of those who sleep here. Where nobody does, it makes no system call.
    pub(crate) fn wake_one(&self) {
        if self.sleepers.load(Ordering::SeqCst) > 0 {
            self.events.wake_one();
        }
    }

    /// Wakes all who sleep here.
    pub(crate) fn wake_all(&self) {
        if self.sleepers.load(Ordering::SeqCst) > 0 {
            self.events.wake_all();
        }
    }

    /// Sleeps until an event after the mark. The kernel looks at the count once more before it lets the thread sleep, and
    /// whoever counts looks for sleepers afterwards, so no event is missed.
    pub(crate) fn wait<R: Wait>(&self, rt: &R, mark: Mark) {
        self.sleepers.fetch_add(1, Ordering::SeqCst);
        self.events.park(rt, (mark.events % (1 << 32)) as u32);
        self.sleepers.fetch_sub(1, Ordering::SeqCst);
    }
}

impl Bells {
    pub(crate) fn new() -> Bells {
        Bells {
            lines: array::from_fn(|_| Bell::new()),
            queries: Bell::new(),
            clock: Bell::new(),
        }
    }

    /// The bell of a connection, which is rung where it has a line more, or ends.
    pub(crate) fn lines(&self, conn: u32) -> &Bell {
        &self.lines[conn as usize % BELLS]
    }

    /// Counts an event at each bell.
    pub(crate) fn count_all(&self) {
        for bell in &self.lines {
            bell.count();
        }
        self.queries.count();
        self.clock.count();
    }

    /// Wakes all who sleep at any bell.
    pub(crate) fn wake_all(&self) {
        for bell in &self.lines {
            bell.wake_all();
        }
        self.queries.wake_all();
        self.clock.wake_all();
    }
}
