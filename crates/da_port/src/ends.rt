// When a loop over a port ends.

ghost use Rattle.std.specs.Prelude.{◌≡◌, MatchOption};
ghost use Rattle.da_turn.specs.Seats.{IsOf, IsFree, seen};
ghost use Rattle.da_port.specs.Calls.{Looks, Stays};
ghost use Rattle.da_port.specs.Ends.{EndsLoop, GoesOn};
ghost use Rattle.da_port.specs.Terms.{terms_of};

use crate::port::Port;
use crate::shared::Seat;
use da_core::Core;
use std::sync::Wait;

/// Why a loop over a port ended.
#[derive(Clone, Copy, Debug, Drop, PartialEq, Eq)]
pub enum LoopEnd {
    /// The goal of the run is met.
    Over,
    /// The history is full, and no goal is met.
    Full,
}

fn end_of(core: &Core) -> Option<LoopEnd>
    ensures { MatchOption result (GoesOn (terms_of core.now) core.now.history) (EndsLoop (terms_of core.now) core.now.history) }
{
    if core.is_over() {
        Some(LoopEnd::Over)
    } else if core.is_full() {
        Some(LoopEnd::Full)
    } else {
        None
    }
}

impl Port {
    /// Why a loop over this port ends now, if it does. It takes no memory.
    pub fn end<R: Wait>(&self, rt: &R, seat: &mut Seat) -> Option<LoopEnd>
        requires own { IsOf self.now seat.old × IsFree seat.old }
        ensures seat { Stays seat.old seat.new × Looks seat.old seat.new }
        ensures end { MatchOption result (GoesOn self.now.fixed (seen seat.new)) (EndsLoop self.now.fixed (seen seat.new)) }
    {
        let held = self.turn.enter(rt, seat);
        let end = end_of(held.value.core());
        self.turn.leave(seat, held);
        end
    }
}
