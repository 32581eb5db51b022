// A port with queries that wait, and a worker over a spawner and a runner.

ghost use Rattle.std.specs.Prelude.{◌≡◌};
ghost use Rattle.da_turn.specs.Seats.{IsFree, IsOf};

use da_core::{Goal, Settings};
use da_fields::Text;
use da_msgs::ConnKind;
use da_outside::{MemRunner, NoPause, SetClock, Spawner};
use da_player::script_of;
use da_port::{Port, Seat};
use da_workers::{LoopEnd, serve_worker};
use std::alloc::Global;
use std::process::Abort;
use std::sync::Wait;

/// A copy of these bytes.
pub fn bytes_of<R: Abort>(rt: &R, alloc: Global, bytes: &[u8]) -> Vec<u8> {
    Vec::from_slice(alloc, bytes).expect(rt, "memory")
}

fn settings_of<R: Abort>(rt: &R, alloc: Global, text: &[u8]) -> Settings {
    da_config::read(alloc, text).expect(rt, "settings")
}

/// A port with the settings of this text, and a copy of them.
pub fn port_of<R: Abort>(
    rt: &R,
    alloc: Global,
    text: &[u8],
    goal: Option<Goal>,
) -> (Port, Seat, Settings)
    ensures { IsOf result.0 result.1 × IsFree result.1 × (result.2 ≡ result.0.fixed.settings) }
{
    let settings = settings_of(rt, alloc, text);
    let copy = settings.copy(alloc).expect(rt, "memory");
    let (port, seat) = Port::new(alloc, settings, goal).expect(rt, "memory");
    (port, seat, copy)
}

fn text_of<R: Abort>(rt: &R, alloc: Global, bytes: &[u8]) -> Text {
    Text::new(bytes_of(rt, alloc, bytes))
}

fn say<R: Wait + Abort>(rt: &R, alloc: Global, port: &Port, seat: &mut Seat, line: &[u8])
    requires { IsOf port.now seat.old × IsFree seat.old }
    ensures { IsOf port.now seat.new × IsFree seat.new }
{
    let _ = port.line(rt, seat, 0, 1, text_of(rt, alloc, line), [0; 16]);
}

fn connect<R: Wait>(rt: &R, port: &Port, seat: &mut Seat)
    requires { IsOf port.now seat.old × IsFree seat.old }
    ensures { IsOf port.now seat.new × IsFree seat.new }
{
    let _ = port.connect(rt, seat, 0, ConnKind::Client, [0; 16]);
}

/// Opens the first connection, whose client says these lines.
pub fn introduce<R: Wait + Abort>(
    rt: &R,
    alloc: Global,
    port: &Port,
    seat: &mut Seat,
    lines: &[&[u8]],
)
    requires { IsOf port.now seat.old × IsFree seat.old }
    ensures { IsOf port.now seat.new × IsFree seat.new }
{
    connect(rt, port, seat);
    for line in lines {
        say(rt, alloc, port, seat, *line);
    }
}

fn skip_one<R: Wait>(rt: &R, port: &Port, seat: &mut Seat)
    requires { IsOf port.now seat.old × IsFree seat.old }
    ensures { IsOf port.now seat.new × IsFree seat.new }
{
    let _ = port.take_query(rt, seat, 0);
}

// Takes the first of the waiting queries.
fn skip<R: Wait>(rt: &R, port: &Port, seat: &mut Seat, count: u32)
    requires { IsOf port.now seat.old × IsFree seat.old }
    ensures { IsOf port.now seat.new × IsFree seat.new }
{
    for _ in 0..count {
        skip_one(rt, port, seat);
    }
}

/// Serves as a worker whose clock stands at this moment.
pub fn serve<R: Wait + Abort, P: Spawner>(
    rt: &R,
    alloc: Global,
    port: &Port,
    seat: &mut Seat,
    settings: &Settings,
    spawner: &mut P,
    runner: &mut MemRunner,
    moment: u64,
) -> LoopEnd
    requires { IsOf port.now seat.old × IsFree seat.old × (settings.now ≡ port.now.fixed.settings) }
    ensures { IsOf port.now seat.new × IsFree seat.new }
{
    let clock = SetClock::new(Vec::from_slice(alloc, &[moment]).expect(rt, "memory"));
    serve_worker(
        rt, alloc, port, seat, settings, spawner, runner, &clock, &NoPause,
    )
}

/// Closes the port, and gives its history as a script.
pub fn script_of_closed<R: Wait + Abort>(rt: &R, alloc: Global, port: Port, seat: Seat) -> Vec<u8>
    requires { IsOf port seat × IsFree seat }
{
    let core = port.close(rt, seat);
    script_of(alloc, &core).expect(rt, "memory")
}

/// What a client says before a worker begins.
#[derive(Clone, Copy, Drop)]
pub struct Job<'a> {
    pub settings: &'a [u8],
    pub lines: &'a [&'a [u8]],
    /// How many queries are taken before.
    pub skipped: u32,
}

/// The history of a client and then a worker at moment 1, whose loop ends since the history is full.
pub fn worked<R: Wait + Abort, P: Spawner>(
    rt: &R,
    alloc: Global,
    job: &Job<'_>,
    spawner: &mut P,
    runner: &mut MemRunner,
) -> Vec<u8> {
    let (port, mut seat, settings) = port_of(rt, alloc, job.settings, None);
    introduce(rt, alloc, &port, &mut seat, job.lines);
    skip(rt, &port, &mut seat, job.skipped);
    let end = serve(rt, alloc, &port, &mut seat, &settings, spawner, runner, 1);
    assert!(rt; end == LoopEnd::Full);
    script_of_closed(rt, alloc, port, seat)
}

/// The last four entries where two queries are taken and answered so.
pub fn answers_of<R: Abort>(rt: &R, alloc: Global, one: &[u8], two: &[u8]) -> Vec<u8> {
    let mut text = bytes_of(rt, alloc, b"\n1 take\n1 answer ");
    for piece in [one, b"\n1 take\n1 answer ", two, b"\n"] {
        text.extend_from_slice(piece).expect(rt, "memory");
    }
    text
}
