// A run of four threads, and its history played again.

ghost use Rattle.std.specs.Prelude.{◌≡◌};
ghost use Rattle.da_turn.specs.Seats.{IsFree, IsOf};

use crate::client::{answer, line_of, named, open, say};
use crate::crew::{Look, Role, Scene, is_right};
use da_core::{Core, Entry, Input, Outputs};
use da_port::{Port, Seat};
use da_script::{print_event, read_event};
use std::alloc::Global;
use std::process::Abort;
use std::sync::Wait;

const SETTINGS: &[u8] = b"failure_delay = 0\n";

const CALLS: u32 = 150;

const THREADS: u8 = 4;

// The place of the worker among the threads.
const WORKER: u8 = 3;

// A number that looks random, by the one before it.
fn next_random(state: u64) -> u64 {
    state
        .wrapping_mul(6364136223846793005)
        .wrapping_add(1442695040888963407)
}

// One call of a client on its latest connection, and what it is told.
fn call<R: Wait + Abort>(
    rt: &R,
    alloc: Global,
    port: &Port,
    seat: &mut Seat,
    thread: u8,
    conn: u32,
    choice: u64,
) -> Option<u32>
    requires { IsOf port.now seat.old × IsFree seat.old }
    ensures { IsOf port.now seat.new × IsFree seat.new }
{
    match choice {
        8 => open(rt, port, seat, thread),
        9 => {
            let _ = port.gone(rt, seat, 0, conn);
            None
        }
        10 => {
            let _ = port.broken(rt, seat, 0, conn);
            None
        }
        _ => say(
            rt,
            alloc,
            port,
            seat,
            conn,
            line_of(choice),
            named(thread, 0),
        ),
    }
}

/// What a client does on one connection after another.
pub fn talk<R: Wait + Abort>(
    rt: &R,
    alloc: Global,
    port: &Port,
    seat: &mut Seat,
    thread: u8,
    told: &mut Vec<u32>,
)
    requires { IsOf port.now seat.old × IsFree seat.old }
    ensures { IsOf port.now seat.new × IsFree seat.new }
{
    let mut state = next_random(u64::from(thread));
    let mut conn = 0;
    for _ in 0..CALLS {
        state = next_random(state);
        let choice = (state >> 33) % 12;
        if let Some(number) = call(rt, alloc, port, seat, thread, conn, choice) {
            if choice == 8 {
                conn = number;
            }
            let _ = told.push(number);
        }
    }
}

/// Answers queries and records ticks in turn.
pub fn work<R: Wait>(rt: &R, port: &Port, seat: &mut Seat, told: &mut Vec<u32>)
    requires { IsOf port.now seat.old × IsFree seat.old }
    ensures { IsOf port.now seat.new × IsFree seat.new }
{
    for _ in 0..CALLS {
        if let Some(number) = answer(rt, port, seat) {
            let _ = told.push(number);
        }
        let _ = port.moment(rt, seat, 0);
    }
}

// The thread that made the entry, and what it was told, where it was told something.
fn told_by(input: &Input, out: &Outputs) -> Option<(u8, u32)> {
    match input {
        Input::Opened { random, .. } => Some((random[0], out.conn?)),
        Input::Line { random, .. } => Some((random[0], u32::from(out.closed.is_none()))),
        Input::Take => match &out.query {
            Some(query) => Some((WORKER, query.number)),
            None => None,
        },
        _ => None,
    }
}

// The entry's event, printed and read.
fn read_again<R: Abort>(rt: &R, alloc: Global, entry: &Entry) -> (u64, Input) {
    let line = print_event(alloc, entry.moment, &entry.input).expect(rt, "memory");
    let event = read_event(alloc, &line).expect(rt, "memory");
    event.expect(rt, "an event")
}

// What the printed entry gives out.
fn play<R: Abort>(rt: &R, alloc: Global, core: &mut Core, entry: &Entry) -> Outputs {
    let (moment, input) = read_again(rt, alloc, entry);
    core.step(moment, input).expect(rt, "an entry")
}

// Notes what the thread was told.
fn note<R: Abort>(rt: &R, told: &mut [Vec<u32>], thread: u8, number: u32) {
    if let Some(numbers) = told.get_mut(usize::from(thread)) {
        numbers.push(number).expect(rt, "memory");
    }
}

// Plays the printed entry, and notes what its thread is told.
fn play_noted<R: Abort>(
    rt: &R,
    alloc: Global,
    core: &mut Core,
    entry: &Entry,
    told: &mut [Vec<u32>],
) {
    let out = play(rt, alloc, core, entry);
    if let Some((thread, number)) = told_by(&entry.input, &out) {
        note(rt, told, thread, number);
    }
}

fn play_all<R: Abort>(
    rt: &R,
    alloc: Global,
    core: &mut Core,
    entries: &[Entry],
    told: &mut [Vec<u32>],
) {
    for entry in entries {
        play_noted(rt, alloc, core, entry, told);
    }
}

fn core_of<R: Abort>(rt: &R, alloc: Global) -> Core {
    let settings = da_config::read(alloc, SETTINGS).expect(rt, "settings");
    Core::new(alloc, settings, None).expect(rt, "memory")
}

// For each thread that nothing was told.
fn blank<R: Abort>(rt: &R, alloc: Global) -> Vec<Vec<u32>> {
    let mut told = Vec::new(alloc);
    for _ in 0..THREADS {
        told.push(Vec::new(alloc)).expect(rt, "memory");
    }
    told
}

/// Whether the printed history of the core is played by another one, entry by entry, and each thread is told the same.
pub fn is_played_again<R: Abort>(rt: &R, alloc: Global, done: &Core, told: &[Vec<u32>]) -> bool {
    let mut core = core_of(rt, alloc);
    let mut again = blank(rt, alloc);
    play_all(rt, alloc, &mut core, done.entries(), &mut again);
    core.entries().len() == done.entries().len() && again.as_slice() == told
}

const SCENE: Scene<'static> = Scene {
    settings: SETTINGS,
    goal: None,
    roles: &[Role::Talker, Role::Talker, Role::Talker, Role::Worker],
    look: Look::Again,
};

#[test]
fn a_printed_history_is_played_to_the_same_replies(rt: HostRuntime) {
    assert!(rt; is_right(&rt, rt.alloc(), &SCENE));
}
