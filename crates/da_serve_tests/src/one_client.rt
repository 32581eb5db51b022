// One client's connection that is opened, read, written and printed by calls one after another.

ghost use Rattle.std.specs.Prelude.{◌≡◌, true};
ghost use Rattle.da_finish.specs.Printed.{HasEnded};
ghost use Rattle.da_turn.specs.Seats.{IsFree, IsOf, seen};

use da_core::Goal;
use da_finish::finish_serve;
use da_msgs::ConnKind;
use da_outside::{MemSink, MemSource, NoPause, SetClock, SetRand, SlowSink};
use da_port::{Port, Seat};
use da_session::{ReadEnd, WriteEnd, read_conn, write_conn};
use std::alloc::Global;
use std::process::Abort;
use std::sync::Wait;

/// What a client sends that introduces itself.
pub const HELLO: &[u8] = b"VERSION\t1\t1\nCPID\t7\n";

/// A client, the settings that it meets, the moment at which the clock stands, the random byte that all others are, and the
/// write of the printed history that fails, counted from 1; 0 for none.
#[derive(Clone, Copy, Drop)]
pub struct Client<'a> {
    pub sends: &'a [u8],
    pub settings: &'a [u8],
    pub moment: u64,
    pub random: u8,
    pub write_fails: u64,
}

/// A client that introduces itself and goes, at moment 5.
pub const SHORT: Client<'static> = Client {
    sends: HELLO,
    settings: b"failure_delay = 0\n",
    moment: 5,
    random: 0,
    write_fails: 0,
};

/// What became of it, and of the history, which is printed to an output that takes a byte at a time.
#[derive(Drop)]
pub struct Served {
    pub read: ReadEnd,
    pub write: WriteEnd,
    pub status: u8,
    pub sent: MemSink,
    pub printed: SlowSink,
}

const GOAL: Goal = Goal {
    clients: 1,
    masters: 0,
};

/// A list of one number.
pub fn only<R: Abort>(rt: &R, alloc: Global, number: u64) -> Vec<u64> {
    Vec::from_slice(alloc, &[number]).expect(rt, "memory")
}

fn read<R: Wait + Abort>(
    rt: &R,
    alloc: Global,
    port: &Port,
    seat: &mut Seat,
    conn: u32,
    client: &Client<'_>,
) -> ReadEnd
    requires { IsOf port.now seat.old × IsFree seat.old }
    ensures { IsOf port.now seat.new × IsFree seat.new }
{
    let bytes = Vec::from_slice(alloc, client.sends).expect(rt, "memory");
    let clock = SetClock::new(only(rt, alloc, client.moment));
    let mut source = MemSource::new(bytes, Vec::new(alloc));
    let mut rand = SetRand::new(&[[client.random; 16]]);
    read_conn(
        rt,
        alloc,
        port,
        seat,
        conn,
        &mut source,
        &clock,
        &mut rand,
        &NoPause,
    )
}

fn session<R: Wait + Abort>(
    rt: &R,
    alloc: Global,
    port: &Port,
    seat: &mut Seat,
    client: &Client<'_>,
    sink: &mut MemSink,
) -> (ReadEnd, WriteEnd)
    requires { IsOf port.now seat.old × IsFree seat.old }
    ensures { IsOf port.now seat.new × IsFree seat.new }
{
    let random = [client.random; 16];
    let conn = port
        .connect(rt, seat, client.moment, ConnKind::Client, random)
        .expect(rt, "a connection");
    let read = read(rt, alloc, port, seat, conn, client);
    let write = write_conn(rt, port, seat, conn, sink, &NoPause);
    (read, write)
}

// Whether the history has ended.
fn has_ended<R: Wait>(rt: &R, port: &Port, seat: &mut Seat) -> bool
    requires { IsOf port.now seat.old × IsFree seat.old }
    ensures own { IsOf port.now seat.new × IsFree seat.new }
    ensures ended { result ≡ true → HasEnded port.now.fixed (seen seat.new) }
{
    port.end(rt, seat).is_some()
}

fn port_of<R: Abort>(rt: &R, alloc: Global, settings: &[u8]) -> (Port, Seat)
    ensures { IsOf result.0 result.1 × IsFree result.1 }
{
    let settings = da_config::read(alloc, settings).expect(rt, "settings");
    Port::new(alloc, settings, Some(GOAL)).expect(rt, "memory")
}

fn printer<R: Abort>(rt: &R, alloc: Global, write_fails: u64) -> SlowSink {
    SlowSink {
        inner: MemSink::new(alloc, only(rt, alloc, write_fails)),
        most: 1,
    }
}

/// Serves the client to its end, and prints the history.
pub fn serve<R: Wait + Abort>(rt: &R, alloc: Global, client: &Client<'_>) -> Served {
    let mut sent = MemSink::new(alloc, Vec::new(alloc));
    let mut printed = printer(rt, alloc, client.write_fails);
    let (port, mut seat) = port_of(rt, alloc, client.settings);
    let (read, write) = session(rt, alloc, &port, &mut seat, client, &mut sent);
    if !has_ended(rt, &port, &mut seat) {
        panic!(rt; "the history has no end");
    }
    let status = finish_serve(rt, alloc, port, seat, &mut printed).code();
    Served {
        read,
        write,
        status,
        sent,
        printed,
    }
}
