// The loop that lets time pass.

ghost use Rattle.da_port.specs.Calls.{Stays};
ghost use Rattle.da_port.specs.Ends.{EndsLoop};
ghost use Rattle.da_session.specs.Ticking.{RecordsDue};
ghost use Rattle.da_turn.specs.Seats.{IsFree, IsOf, seen};

use da_outside::{Clock, Pause};
use da_port::{LoopEnd, Port, Seat};
use std::sync::Wait;

// Records what is due at a moment of the clock, and answers whether it made an entry. A refusal is no fault: another seat was
// faster, or memory is wanted.
fn record_due<R: Wait, C: Clock>(rt: &R, port: &Port, seat: &mut Seat, clock: &C) -> bool
    requires own { IsOf port.now seat.old × IsFree seat.old }
    ensures seat { Stays seat.old seat.new }
    ensures records { RecordsDue port.now.fixed (C.may_tell clock.now) seat.old seat.new }
{
    let moment = clock.now();
    let due = port.due(rt, seat, moment);
    if due.reply {
        return port.moment(rt, seat, moment).is_ok();
    }
    match due.query {
        Some(query) => port.late(rt, seat, moment, query).is_ok(),
        None => false,
    }
}

/// Lets time pass until the history is full or over: makes a Tick where a reply is due or a login has reached its limit, and
/// a Late where a query is late.
/// While nothing may become due it waits, and costs no processor. While something may, it rests between its looks.
pub fn serve_ticks<R: Wait, C: Clock, Z: Pause>(
    rt: &R,
    port: &Port,
    seat: &mut Seat,
    clock: &C,
    pause: &Z,
) -> LoopEnd
    requires own { IsOf port.now seat.old × IsFree seat.old }
    ensures seat { Stays seat.old seat.new }
    ensures records { RecordsDue port.now.fixed (C.may_tell clock.now) seat.old seat.new }
    ensures ends { EndsLoop port.now.fixed (seen seat.new) result }
{
    for _ in rt.forever() {
        let mark = port.mark_clock();
        let made = record_due(rt, port, seat, clock);
        if let Some(end) = port.end(rt, seat) {
            return end;
        }
        if made {
            continue;
        }
        if port.needs_clock(rt, seat) {
            pause.rest();
        } else {
            port.await_clock(rt, mark);
        }
    }
    unreachable!()
}
