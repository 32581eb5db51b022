// Seats of threads, which come back.

ghost use Rattle.std.specs.Prelude.{◌≡◌, All};
ghost use Rattle.da_finish.specs.Printed.{HasEnded};
ghost use Rattle.da_turn.specs.Seats.{IsFree, IsOf, seen};

use da_port::{Port, Seat};
use std::thread::{Promise, PromisedHandle, Threads};

/// The seat comes back, of this port and without a turn.
#[derive(Clone, Copy)]
pub struct Returns<'a>(pub &'a Port);

impl<'a> Promise<Seat> for Returns<'a> {
    ghost use Rattle.da_turn.specs.Seats.{IsOf, IsFree};

    ghost kept_by = { λ p s. IsOf p.0.now s × IsFree s };
}

/// A thread that gives its seat back.
pub type Sitter<'a> = PromisedHandle<Seat, Returns<'a>>;

/// Takes in a seat. A history that has ended has ended then, too.
pub fn take_in(port: &Port, seat: &mut Seat, other: Seat)
    requires own { IsOf port.now seat.old × IsFree seat.old }
    requires other { IsOf port.now other × IsFree other }
    ensures own { IsOf port.now seat.new × IsFree seat.new }
    ensures ended { HasEnded port.now.fixed (seen seat.old) → HasEnded port.now.fixed (seen seat.new) }
{
    port.join(seat, other);
}

/// Joins threads, in the order of their start.
pub fn join_all<R: Threads>(rt: &R, port: &Port, seat: &mut Seat, sitters: Vec<Sitter<'_>>)
    requires own { IsOf port.now seat.old × IsFree seat.old }
    requires sitters { All (λ s. s.promise.0.now ≡ port.now) sitters.items }
    ensures own { IsOf port.now seat.new × IsFree seat.new }
    ensures ended { HasEnded port.now.fixed (seen seat.old) → HasEnded port.now.fixed (seen seat.new) }
{
    for sitter in sitters {
        let back = sitter.join(rt);
        take_in(port, seat, back);
    }
}
