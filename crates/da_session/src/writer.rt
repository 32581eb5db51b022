// The writer of a connection.

ghost use Rattle.da_port.specs.Calls.{Stays};
ghost use Rattle.da_session.specs.Writing.{WritesConn};
ghost use Rattle.da_turn.specs.Seats.{IsFree, IsOf};

use crate::ends::WriteEnd;
use da_outside::{Pause, Sink};
use da_port::{Mark, Port, Seat};
use da_stream::write_all;
use std::sync::Wait;

// A pipelining client costs few turns.
const CHUNK: usize = 16384;

/// Writes the bytes of the lines to a connection, in order, until nothing more comes for it and all are written. It takes
/// no memory, and waits without a turn until there is something to write.
pub fn write_conn<R: Wait, K: Sink, Z: Pause>(
    rt: &R,
    port: &Port,
    seat: &mut Seat,
    conn: u32,
    sink: &mut K,
    pause: &Z,
) -> WriteEnd
    requires own { IsOf port.now seat.old × IsFree seat.old }
    ensures seat { Stays seat.old seat.new }
    ensures writes { WritesConn port.now.fixed conn (K.state sink.old) (K.state sink.new) seat.old seat.new result }
{
    let mut buf = [0; CHUNK];
    let mut mark = Mark::new();
    let mut from = 0u64;
    for _ in rt.forever() {
        let taken = port.take_lines(rt, seat, conn, from, &mut buf, &mut mark);
        match write_all(sink, &buf[..taken.count]) {
            Ok(()) => {}
            Err(_) => return WriteEnd::Cut,
        }
        if taken.ended {
            return WriteEnd::Ended;
        }
        // So many bytes fit no memory, but no clause says so: nothing more would be written.
        let Some(place) = from.checked_add(taken.count as u64) else {
            for _ in rt.forever() {
                pause.rest();
            }
            unreachable!()
        };
        from = place;
        if taken.count < CHUNK {
            port.await_lines(rt, conn, mark);
        }
    }
    unreachable!()
}
