// The calls that look and make no entry. None takes memory.

ghost use Rattle.std.specs.Prelude.{◌≡◌};
ghost use Rattle.da_turn.specs.Seats.{IsOf, IsFree, seen};
ghost use Rattle.da_core.specs.Clock.{due_at, needs_clock};
ghost use Rattle.da_core.specs.Outgoing.{TakesLines};
ghost use Rattle.da_play.specs.Legal.{is_full, is_over};
ghost use Rattle.da_port.specs.Calls.{Looks, Stays};
ghost use Rattle.da_port.specs.Terms.{served_on};

use crate::bell::Mark;
use crate::port::Port;
use crate::shared::Seat;
use da_core::{Due, Taken};
use std::sync::Wait;

impl Port {
    /// Copies bytes of the lines to a connection, each line with its LF, from a place on, as many as fit, and marks the
    /// events of these lines so far. It takes no memory.
    pub fn take_lines<R: Wait>(
        &self,
        rt: &R,
        seat: &mut Seat,
        conn: u32,
        from: u64,
        buf: &mut [u8],
        mark: &mut Mark,
    ) -> Taken
        requires own { IsOf self.now seat.old × IsFree seat.old }
        ensures seat { Stays seat.old seat.new × Looks seat.old seat.new }
        ensures taken { TakesLines (served_on self.now.fixed (seen seat.new)) conn from buf.old buf.new result }
    {
        let held = self.turn.enter(rt, seat);
        let taken = held.value.core().take_lines(conn, from, buf);
        *mark = self.bells.lines(conn).mark();
        self.turn.leave(seat, held);
        taken
    }

    /// Whether a reply is due at this moment, or at the last entry's where that is later, or a login has reached its limit
    /// then, and the first query that is late. It takes no memory.
    pub fn due<R: Wait>(&self, rt: &R, seat: &mut Seat, moment: u64) -> Due
        requires own { IsOf self.now seat.old × IsFree seat.old }
        ensures seat { Stays seat.old seat.new × Looks seat.old seat.new }
        ensures due { result ≡ due_at (served_on self.now.fixed (seen seat.new)) moment }
    {
        let held = self.turn.enter(rt, seat);
        let due = held.value.core().due(moment);
        self.turn.leave(seat, held);
        due
    }

    /// Whether a query runs, a reply is held back or a client's request isn't decided, so that something may become due as
    /// time passes. It takes no memory.
    pub fn needs_clock<R: Wait>(&self, rt: &R, seat: &mut Seat) -> bool
        requires own { IsOf self.now seat.old × IsFree seat.old }
        ensures seat { Stays seat.old seat.new × Looks seat.old seat.new }
        ensures needed { result ≡ needs_clock self.now.fixed.settings (seen seat.new) }
    {
        let held = self.turn.enter(rt, seat);
        let needed = held.value.core().needs_clock();
        self.turn.leave(seat, held);
        needed
    }

    /// Whether the history has as many entries or bytes as it may have. It takes no memory.
    pub fn is_full<R: Wait>(&self, rt: &R, seat: &mut Seat) -> bool
        requires own { IsOf self.now seat.old × IsFree seat.old }
        ensures seat { Stays seat.old seat.new × Looks seat.old seat.new }
        ensures full { result ≡ is_full self.now.fixed.settings (seen seat.new) }
    {
        let held = self.turn.enter(rt, seat);
        let full = held.value.core().is_full();
        self.turn.leave(seat, held);
        full
    }

    /// Whether a goal was given, and is met. It takes no memory.
    pub fn is_over<R: Wait>(&self, rt: &R, seat: &mut Seat) -> bool
        requires own { IsOf self.now seat.old × IsFree seat.old }
        ensures seat { Stays seat.old seat.new × Looks seat.old seat.new }
        ensures over { result ≡ is_over self.now.fixed.settings self.now.fixed.goal (seen seat.new) }
    {
        let held = self.turn.enter(rt, seat);
        let over = held.value.core().is_over();
        self.turn.leave(seat, held);
        over
    }
}
