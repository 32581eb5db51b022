// The reader of a connection.

ghost use Rattle.da_play.specs.declared.input.Input.TheVariants.{Gone};
ghost use Rattle.da_port.specs.Calls.{Stays};
ghost use Rattle.da_session.specs.Reading.{ReadsConn};
ghost use Rattle.da_session.specs.Bridges.{BreaksOff, Parts, end_after};
ghost use Rattle.da_turn.specs.Seats.{IsFree, IsOf};
ghost use Rattle.std.specs.Prelude.{◌≡◌};

use crate::ends::ReadEnd;
use crate::lines::{Stop, read_lines};
use crate::steps::{Step, record_broken, record_gone};
use da_outside::{Clock, Pause, Rand, Source};
use da_port::{Port, Seat};
use std::alloc::Global;
use std::sync::Wait;

/// How it went with the record that the connection ended.
#[derive(Clone, Copy, Drop)]
pub(crate) enum Parting {
    Recorded,
    /// The connection wasn't open.
    NotOpen,
    /// The history is full.
    Full,
}

impl Parting {
    // The answer, where this is the one once the end is recorded.
    fn answer(self, end: ReadEnd) -> ReadEnd
        ensures { result ≡ end_after self end }
    {
        match self {
            Parting::Recorded => end,
            Parting::NotOpen => ReadEnd::Closed,
            Parting::Full => ReadEnd::Full,
        }
    }
}

// Records that the connection ended. Where memory is wanted it rests and tries again.
fn part<R: Wait, C: Clock, Z: Pause>(
    rt: &R,
    port: &Port,
    seat: &mut Seat,
    conn: u32,
    clock: &C,
    pause: &Z,
) -> Parting
    requires own { IsOf port.now seat.old × IsFree seat.old }
    ensures seat { Stays seat.old seat.new }
    ensures parts { Parts port.now.fixed (C.may_tell clock.now) conn seat.old seat.new result }
{
    for _ in rt.forever() {
        match record_gone(rt, port, seat, conn, clock) {
            Step::Recorded => return Parting::Recorded,
            Step::Closed => return Parting::Recorded,
            Step::NotOpen => return Parting::NotOpen,
            Step::Full => return Parting::Full,
            Step::NoMemory => pause.rest(),
        }
    }
    unreachable!()
}

// Records that a line was too long; where memory is wanted, that the connection ended.
fn break_off<R: Wait, C: Clock, Z: Pause>(
    rt: &R,
    port: &Port,
    seat: &mut Seat,
    conn: u32,
    clock: &C,
    pause: &Z,
) -> ReadEnd
    requires own { IsOf port.now seat.old × IsFree seat.old }
    ensures seat { Stays seat.old seat.new }
    ensures breaks { BreaksOff port.now.fixed (C.may_tell clock.now) conn seat.old seat.new result }
{
    match record_broken(rt, port, seat, conn, clock) {
        Step::Recorded => ReadEnd::Closed,
        Step::Closed => ReadEnd::Closed,
        Step::NotOpen => ReadEnd::Closed,
        Step::Full => ReadEnd::Full,
        Step::NoMemory => part(rt, port, seat, conn, clock, pause).answer(ReadEnd::NoMemory),
    }
}

/// Records the lines of a connection, in order, each with a moment of the clock and the next random bytes, and then its
/// end. A line has at most 8,192 bytes. Where memory is wanted, also for the end itself, it rests and tries the end again.
pub fn read_conn<R: Wait, S: Source, C: Clock, G: Rand, Z: Pause>(
    rt: &R,
    alloc: Global,
    port: &Port,
    seat: &mut Seat,
    conn: u32,
    source: &mut S,
    clock: &C,
    rand: &mut G,
    pause: &Z,
) -> ReadEnd
    requires own { IsOf port.now seat.old × IsFree seat.old }
    ensures seat { Stays seat.old seat.new }
    ensures reads { ReadsConn port.now.fixed (C.may_tell clock.now) (G.draws rand.old) conn
        (S.state source.old) (S.state source.new) seat.old seat.new result }
{
    match read_lines(rt, alloc, port, seat, conn, source, clock, rand) {
        Stop::Closed => ReadEnd::Closed,
        Stop::Full => ReadEnd::Full,
        Stop::NoMemory => part(rt, port, seat, conn, clock, pause).answer(ReadEnd::NoMemory),
        Stop::TooLong => break_off(rt, port, seat, conn, clock, pause),
        Stop::End => part(rt, port, seat, conn, clock, pause).answer(ReadEnd::Ended),
        Stop::Fault => part(rt, port, seat, conn, clock, pause).answer(ReadEnd::Cut),
    }
}
