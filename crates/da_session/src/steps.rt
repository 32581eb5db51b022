// One entry of a connection.

ghost use Rattle.da_play.specs.declared.input.Input.TheVariants.{Broken, Gone, Line};
ghost use Rattle.da_port.specs.Calls.{Stays};
ghost use Rattle.da_session.specs.Bridges.{TakesStep, step_after};
ghost use Rattle.da_turn.specs.Seats.{IsFree, IsOf};
ghost use Rattle.std.specs.Prelude.{◌≡◌};

use da_fields::Text;
use da_outside::Clock;
use da_play::Refused;
use da_port::{Port, Seat};
use std::sync::Wait;

/// What became of an input of a connection.
#[derive(Clone, Copy, Drop)]
pub(crate) enum Step {
    /// It was recorded.
    Recorded,
    /// It was recorded, and the connection isn't open any more.
    Closed,
    /// The connection wasn't open.
    NotOpen,
    /// The history is full.
    Full,
    /// Memory was wanted.
    NoMemory,
}

impl Step {
    // The step where an input of a connection was refused so.
    fn after(refused: Refused) -> Step
        ensures { result ≡ step_after refused }
    {
        match refused {
            Refused::HistoryFull => Step::Full,
            Refused::NoMemory => Step::NoMemory,
            Refused::ConnLimit { .. } => Step::NotOpen,
            Refused::NoConn { .. } => Step::NotOpen,
            Refused::NothingWaits => Step::NotOpen,
            Refused::NotTaken { .. } => Step::NotOpen,
            Refused::NotLate { .. } => Step::NotOpen,
        }
    }
}

/// Records a line. Whoever waits for lines of the connection is left asleep.
pub(crate) fn record_line<R: Wait, C: Clock>(
    rt: &R,
    port: &Port,
    seat: &mut Seat,
    conn: u32,
    line: Vec<u8>,
    random: [u8; 16],
    clock: &C,
) -> Step
    requires own { IsOf port.now seat.old × IsFree seat.old }
    ensures seat { Stays seat.old seat.new }
    ensures takes { TakesStep port.now.fixed (C.may_tell clock.now) conn seat.old seat.new
        (Line conn line.items random) result }
{
    match port.line_quietly(rt, seat, clock.now(), conn, Text::new(line), random) {
        Ok(true) => Step::Recorded,
        Ok(false) => Step::Closed,
        Err(refused) => Step::after(refused),
    }
}

/// Records that a line was too long.
pub(crate) fn record_broken<R: Wait, C: Clock>(
    rt: &R,
    port: &Port,
    seat: &mut Seat,
    conn: u32,
    clock: &C,
) -> Step
    requires own { IsOf port.now seat.old × IsFree seat.old }
    ensures seat { Stays seat.old seat.new }
    ensures takes { TakesStep port.now.fixed (C.may_tell clock.now) conn seat.old seat.new (Broken conn) result }
{
    match port.broken(rt, seat, clock.now(), conn) {
        Ok(()) => Step::Recorded,
        Err(refused) => Step::after(refused),
    }
}

/// Records that the connection ended.
pub(crate) fn record_gone<R: Wait, C: Clock>(
    rt: &R,
    port: &Port,
    seat: &mut Seat,
    conn: u32,
    clock: &C,
) -> Step
    requires own { IsOf port.now seat.old × IsFree seat.old }
    ensures seat { Stays seat.old seat.new }
    ensures takes { TakesStep port.now.fixed (C.may_tell clock.now) conn seat.old seat.new (Gone conn) result }
{
    match port.gone(rt, seat, clock.now(), conn) {
        Ok(()) => Step::Recorded,
        Err(refused) => Step::after(refused),
    }
}
