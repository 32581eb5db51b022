// The history of a service that is closed.

ghost use Rattle.da_turn.specs.Seats.{IsFree, IsOf};

use da_player::script_of;
use da_port::{Port, Seat};
use std::alloc::Global;
use std::process::Abort;
use std::sync::Wait;

/// Closes the port, and gives its history as a script.
pub fn script_of_closed<R: Wait + Abort>(rt: &R, alloc: Global, port: Port, seat: Seat) -> Vec<u8>
    requires { IsOf port seat × IsFree seat }
{
    let core = port.close(rt, seat);
    script_of(alloc, &core).expect(rt, "memory")
}
