// The lines of a connection, as they come.

ghost use Rattle.da_session.specs.Bridges.{Sits, StopsLines, StopsReading};
ghost use Rattle.da_tabline.specs.Lines.{Cutter};
ghost use Rattle.da_turn.specs.Seats.{IsFree, IsOf};
ghost use Rattle.std.specs.Prelude.{◌≡◌, [], IfNone};

use crate::steps::{Step, record_line};
use da_outside::{Clock, Rand, Source};
use da_port::{Port, Seat};
use da_stream::{Fill, read_into};
use da_tabline::{LONGEST_LINE, Lines};
use std::alloc::Global;
use std::sync::Wait;

/// Why no further line of a connection is recorded.
#[derive(Clone, Copy, Drop)]
pub(crate) enum Stop {
    /// The connection isn't open.
    Closed,
    /// The history is full.
    Full,
    /// Memory was wanted.
    NoMemory,
    /// A line is too long.
    TooLong,
    /// The source ended.
    End,
    /// The source failed.
    Fault,
}

// Records the whole lines at hand, in order. `None` where each of them was recorded.
fn record_lines<R: Wait, C: Clock, G: Rand>(
    rt: &R,
    port: &Port,
    seat: &mut Seat,
    conn: u32,
    lines: &mut Lines,
    clock: &C,
    rand: &mut G,
) -> Option<Stop>
    requires own { IsOf port.now seat.old × IsFree seat.old }
    ensures seat { Sits seat.old seat.new }
    ensures stops { StopsLines port.now.fixed (C.may_tell clock.now) (G.draws rand.old) (G.draws rand.new) conn
        seat.old seat.new lines.old.ready result }
    ensures taken { IfNone result (lines.new ≡ record lines.old { ready = [] }) }
{
    while let Some(line) = lines.next() {
        match record_line(rt, port, seat, conn, line, rand.bytes(), clock) {
            Step::Recorded => {}
            Step::Closed => return Some(Stop::Closed),
            Step::NotOpen => return Some(Stop::Closed),
            Step::Full => return Some(Stop::Full),
            Step::NoMemory => return Some(Stop::NoMemory),
        }
    }
    None
}

/// Records the lines of a connection as they come, until there is a reason to stop.
pub(crate) fn read_lines<R: Wait, S: Source, C: Clock, G: Rand>(
    rt: &R,
    alloc: Global,
    port: &Port,
    seat: &mut Seat,
    conn: u32,
    source: &mut S,
    clock: &C,
    rand: &mut G,
) -> Stop
    requires own { IsOf port.now seat.old × IsFree seat.old }
    ensures seat { Sits seat.old seat.new }
    ensures stops { StopsReading port.now.fixed (C.may_tell clock.now) (G.draws rand.old) conn
        (S.state source.old) (S.state source.new) seat.old seat.new result }
{
    let mut lines = Lines::new(alloc, LONGEST_LINE);
    for _ in rt.forever() {
        let is_long = match read_into(source, &mut lines, usize::MAX) {
            Fill::Fed { is_long, .. } => is_long,
            Fill::End => return Stop::End,
            Fill::Cut => return Stop::End,
            Fill::ReadFault => return Stop::Fault,
            Fill::NoMemory => return Stop::NoMemory,
            Fill::Much => unreachable!(),
        };
        let stop = record_lines(rt, port, seat, conn, &mut lines, clock, rand);
        port.wake_lines(conn);
        if let Some(stop) = stop {
            return stop;
        }
        if is_long {
            return Stop::TooLong;
        }
    }
    unreachable!()
}
