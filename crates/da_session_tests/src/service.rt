// A service of one port and one seat, whose calls are made one after another.

ghost use Rattle.da_turn.specs.Seats.{IsFree, IsOf};

use da_core::{Goal, Settings};
use da_fields::Text;
use da_msgs::ConnKind;
use da_outside::SetClock;
use da_port::{Port, Seat};
use std::alloc::Global;
use std::process::Abort;
use std::sync::Wait;

/// A copy of these bytes.
pub fn bytes_of<R: Abort>(rt: &R, alloc: Global, bytes: &[u8]) -> Vec<u8> {
    Vec::from_slice(alloc, bytes).expect(rt, "memory")
}

/// A list of one number.
pub fn only<R: Abort>(rt: &R, alloc: Global, number: u64) -> Vec<u64> {
    Vec::from_slice(alloc, &[number]).expect(rt, "memory")
}

/// A clock that stands at this moment.
pub fn clock_at<R: Abort>(rt: &R, alloc: Global, moment: u64) -> SetClock {
    SetClock::new(only(rt, alloc, moment))
}

fn settings_of<R: Abort>(rt: &R, alloc: Global, text: &[u8]) -> Settings {
    da_config::read(alloc, text).expect(rt, "settings")
}

/// A port with the settings of this text.
pub fn port_of<R: Abort>(rt: &R, alloc: Global, settings: &[u8], goal: Option<Goal>) -> (Port, Seat)
    ensures { IsOf result.0 result.1 × IsFree result.1 }
{
    Port::new(alloc, settings_of(rt, alloc, settings), goal).expect(rt, "memory")
}

/// Opens the first connection.
pub fn connect<R: Wait>(rt: &R, port: &Port, seat: &mut Seat, moment: u64, random: [u8; 16])
    requires { IsOf port.now seat.old × IsFree seat.old }
    ensures { IsOf port.now seat.new × IsFree seat.new }
{
    let _ = port.connect(rt, seat, moment, ConnKind::Client, random);
}

fn text_of<R: Abort>(rt: &R, alloc: Global, bytes: &[u8]) -> Text {
    Text::new(bytes_of(rt, alloc, bytes))
}

/// The client of the first connection says a line, at moment 5.
pub fn say<R: Wait + Abort>(rt: &R, alloc: Global, port: &Port, seat: &mut Seat, line: &[u8])
    requires { IsOf port.now seat.old × IsFree seat.old }
    ensures { IsOf port.now seat.new × IsFree seat.new }
{
    let _ = port.line(rt, seat, 5, 1, text_of(rt, alloc, line), [0; 16]);
}
