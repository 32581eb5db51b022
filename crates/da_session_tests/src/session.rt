// One client's connection, read and then written.

ghost use Rattle.da_turn.specs.Seats.{IsFree, IsOf};

use crate::history::script_of_closed;
use crate::service::{bytes_of, clock_at, connect, only, port_of};
use da_outside::{MemSink, MemSource, NoPause, SetRand, SlowSink, SlowSource};
use da_port::{Port, Seat};
use da_session::{ReadEnd, WriteEnd, read_conn, write_conn};
use std::alloc::Global;
use std::process::Abort;
use std::sync::Wait;

/// A client of a service: what it sends, and how its streams go.
#[derive(Clone, Copy, Drop)]
pub struct Client<'a> {
    pub settings: &'a [u8],
    /// At which moment all of it happens.
    pub moment: u64,
    /// Each of the random bytes.
    pub random: u8,
    pub sends: &'a [u8],
    /// How many bytes pass in a call at most; 0 for no limit.
    pub most: usize,
    /// Which read fails, counted from 1; 0 for none.
    pub read_fails: u64,
    /// Which write fails, counted from 1; 0 for none.
    pub write_fails: u64,
}

/// What became of a client's connection.
#[derive(Drop)]
pub struct Session {
    pub read: ReadEnd,
    pub write: WriteEnd,
    pub sink: SlowSink,
    pub script: Vec<u8>,
}

fn source_of<R: Abort>(rt: &R, alloc: Global, client: &Client<'_>) -> SlowSource {
    let bytes = bytes_of(rt, alloc, client.sends);
    SlowSource {
        inner: MemSource::new(bytes, only(rt, alloc, client.read_fails)),
        most: client.most,
    }
}

fn sink_of<R: Abort>(rt: &R, alloc: Global, client: &Client<'_>) -> SlowSink {
    SlowSink {
        inner: MemSink::new(alloc, only(rt, alloc, client.write_fails)),
        most: client.most,
    }
}

// Opens the connection and reads it.
fn read_client<R: Wait + Abort>(
    rt: &R,
    alloc: Global,
    port: &Port,
    seat: &mut Seat,
    client: &Client<'_>,
) -> ReadEnd
    requires { IsOf port.now seat.old × IsFree seat.old }
    ensures { IsOf port.now seat.new × IsFree seat.new }
{
    let random = [client.random; 16];
    connect(rt, port, seat, client.moment, random);
    let mut source = source_of(rt, alloc, client);
    let mut rand = SetRand::new(&[random]);
    let clock = clock_at(rt, alloc, client.moment);
    read_conn(
        rt,
        alloc,
        port,
        seat,
        1,
        &mut source,
        &clock,
        &mut rand,
        &NoPause,
    )
}

fn write_client<R: Wait>(rt: &R, port: &Port, seat: &mut Seat, sink: &mut SlowSink) -> WriteEnd
    requires { IsOf port.now seat.old × IsFree seat.old }
    ensures { IsOf port.now seat.new × IsFree seat.new }
{
    write_conn(rt, port, seat, 1, sink, &NoPause)
}

/// Opens the client's connection, reads it, writes it, and closes the service.
pub fn run_session<R: Wait + Abort>(rt: &R, alloc: Global, client: &Client<'_>) -> Session {
    let mut sink = sink_of(rt, alloc, client);
    let (port, mut seat) = port_of(rt, alloc, client.settings, None);
    let read = read_client(rt, alloc, &port, &mut seat, client);
    let write = write_client(rt, &port, &mut seat, &mut sink);
    let script = script_of_closed(rt, alloc, port, seat);
    Session {
        read,
        write,
        sink,
        script,
    }
}
