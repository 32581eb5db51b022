// Calls that only wait. They take no seat and no memory and make no entry, and nothing is claimed of when they return: it
// may be for no reason. Each also ends where the history is then full or over. Whoever calls one has read the mark, and
// then looked whether there is anything to do, a full history and one that is over among it.

use crate::bell::Mark;
use crate::port::Port;
use std::sync::Wait;

impl Port {
    /// Waits until the connection has a line or its end, after the mark that `take_lines` made.
    pub fn await_lines<R: Wait>(&self, rt: &R, conn: u32, mark: Mark) {
        self.bells.lines(conn).wait(rt, mark);
    }

    /// Wakes whoever waits for lines of the connection, after lines that were recorded quietly.
    pub fn wake_lines(&self, conn: u32) {
        self.bells.lines(conn).wake_all();
    }

    /// Marks the queries so far. To be called before `take_query`.
    pub fn mark_queries(&self) -> Mark {
        self.bells.queries.mark()
    }

    /// Waits until a query waits that came after the mark. Of several who wait here each query wakes one.
    pub fn await_query<R: Wait>(&self, rt: &R, mark: Mark) {
        self.bells.queries.wait(rt, mark);
    }

    /// Marks the work of the clock so far. To be called before `needs_clock`.
    pub fn mark_clock(&self) -> Mark {
        self.bells.clock.mark()
    }

    /// Waits until a query is taken, a reply is held back or a client's request isn't decided, after the mark.
    pub fn await_clock<R: Wait>(&self, rt: &R, mark: Mark) {
        self.bells.clock.wait(rt, mark);
    }
}
