// What a worker finds to do.

ghost use Rattle.std.specs.Prelude.{◌≡◌};
ghost use Rattle.da_port.specs.Calls.{Stays};
ghost use Rattle.da_turn.specs.Seats.{IsFree, IsOf};
ghost use Rattle.da_workers.specs.Bridges.{FindsNext};

use da_fields::Query;
use da_outside::{Clock, Pause};
use da_port::{LoopEnd, Port, Seat};
use std::sync::Wait;

/// What a worker does next.
#[derive(Drop)]
pub(crate) enum Next {
    /// It answers a query, which it took.
    Query(Query),
    /// It ends.
    End(LoopEnd),
    /// It looks again.
    Nothing,
}

/// Takes a query. Where none waits it waits for one, and where memory is wanted it rests, unless the service ends.
pub(crate) fn next_query<R: Wait, C: Clock, Z: Pause>(
    rt: &R,
    port: &Port,
    seat: &mut Seat,
    clock: &C,
    pause: &Z,
) -> Next
    requires own { IsOf port.now seat.old × IsFree seat.old }
    ensures seat { Stays seat.old seat.new }
    ensures next { FindsNext port.now.fixed (C.may_tell clock.now) seat.old seat.new result }
{
    let mark = port.mark_queries();
    match port.take_query(rt, seat, clock.now()) {
        Ok(Some(query)) => Next::Query(query),
        Ok(None) => match port.end(rt, seat) {
            Some(end) => Next::End(end),
            None => {
                port.await_query(rt, mark);
                Next::Nothing
            }
        },
        Err(_) => match port.end(rt, seat) {
            Some(end) => Next::End(end),
            None => {
                pause.rest();
                Next::Nothing
            }
        },
    }
}
