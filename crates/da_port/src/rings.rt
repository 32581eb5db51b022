// Whom an entry concerns. The bells are counted under the turn, and those who sleep are woken once it is passed on.

use crate::bell::{Bell, Bells};
use da_core::Core;
use da_play::{Input, Outputs, Sent};

/// What an entry rings beside the bells of its lines.
#[derive(Clone, Copy, Drop)]
pub(crate) struct Rings {
    /// The connection that it ended.
    ended: Option<u32>,
    /// A query more waits.
    query: bool,
    /// A query runs, a reply is held back, or a client's request isn't decided.
    clock: bool,
    /// The history is full or over.
    all: bool,
}

/// The half of a ring that is done.
#[derive(Clone, Copy, Drop)]
pub(crate) enum Ringing {
    Count,
    /// Those who wait for lines of the connection `but` sleep on.
    Wake { but: Option<u32> },
}

/// The connection that an input ends by itself.
pub(crate) fn ended_by(input: &Input) -> Option<u32> {
    match input {
        Input::Gone { conn } => Some(*conn),
        _ => None,
    }
}

impl Rings {
    /// Those of an input that makes no entry.
    pub(crate) fn none() -> Rings {
        Rings {
            ended: None,
            query: false,
            clock: false,
            all: false,
        }
    }

    /// Those of the entry after which the core is like this. So many queries waited before it.
    pub(crate) fn after(core: &Core, waited: usize, ended: Option<u32>) -> Rings {
        Rings {
            ended,
            query: core.waiting() > waited,
            clock: core.needs_clock(),
            all: core.is_full() || core.is_over(),
        }
    }
}

impl Bell {
    fn ring(&self, ringing: Ringing) {
        match ringing {
            Ringing::Count => self.count(),
            Ringing::Wake { .. } => self.wake_all(),
        }
    }

    fn ring_one(&self, ringing: Ringing) {
        match ringing {
            Ringing::Count => self.count(),
            Ringing::Wake { .. } => self.wake_one(),
        }
    }
}

impl Bells {
    fn ring_conn(&self, ringing: Ringing, conn: u32) {
        match ringing {
            Ringing::Wake { but: Some(but) } if but == conn => {}
            _ => self.lines(conn).ring(ringing),
        }
    }

    // Lines to one connection that stand together ring once.
    fn ring_lines(&self, ringing: Ringing, sent: &Sent) {
        let mut last = None;
        for (conn, _) in sent.all() {
            if last != Some(*conn) {
                self.ring_conn(ringing, *conn);
                last = Some(*conn);
            }
        }
    }

    fn ring_all(&self, ringing: Ringing) {
        match ringing {
            Ringing::Count => self.count_all(),
            Ringing::Wake { .. } => self.wake_all(),
        }
    }

    /// Does one half of the ring of an entry.
    pub(crate) fn ring(&self, ringing: Ringing, rings: Rings, out: &Outputs) {
        if rings.all {
            self.ring_all(ringing);
            return;
        }
        self.ring_lines(ringing, &out.due_lines);
        self.ring_lines(ringing, &out.lines);
        if let Some(conn) = rings.ended {
            self.ring_conn(ringing, conn);
        }
        if let Some(conn) = out.closed {
            self.ring_conn(ringing, conn);
        }
        if rings.query {
            self.queries.ring_one(ringing);
        }
        if rings.clock {
            self.clock.ring(ringing);
        }
    }
}
