// Threads that wait for one another. Each looks only so often, so that one that isn't woken in time falls short.

ghost use Rattle.std.specs.Prelude.{◌≡◌};
ghost use Rattle.da_turn.specs.Seats.{IsFree, IsOf};

use crate::client::{answer, line_of, named, open, say};
use crate::crew::{Look, Role, Scene, is_right};
use da_core::Goal;
use da_port::{Mark, Port, Seat};
use std::alloc::Global;
use std::process::Abort;
use std::sync::Wait;

// How often a thread looks at most. The clock has no such bound: it looks again and again while a login is undecided or a
// query runs, and the others may be kept from running all that time.
const TURNS: u32 = 20_000;

// How long a failure is held back, in milliseconds.
const FAILURE_DELAY: u64 = 2_000;

// The lines of the greeting, a challenge, and a reply to each of three logins.
const LINES: usize = 10;

const GOAL: Goal = Goal {
    clients: 1,
    masters: 0,
};

// Notes each line that ends in these bytes.
fn note_lines(bytes: &[u8], told: &mut Vec<u32>) {
    for byte in bytes {
        if *byte == b'\n' {
            let _ = told.push(1);
        }
    }
}

// Waits until all lines were sent to the connection, and notes each.
fn hear<R: Wait>(rt: &R, port: &Port, seat: &mut Seat, conn: u32, told: &mut Vec<u32>)
    requires { IsOf port.now seat.old × IsFree seat.old }
    ensures { IsOf port.now seat.new × IsFree seat.new }
{
    let mut from = 0u64;
    let mut mark = Mark::new();
    for _ in 0..TURNS {
        let mut buf = [0u8; 512];
        let taken = port.take_lines(rt, seat, conn, from, &mut buf, &mut mark);
        note_lines(&buf, told);
        if told.len() >= LINES || taken.ended {
            return;
        }
        from = from.saturating_add(taken.count as u64);
        if taken.count == 0 {
            port.await_lines(rt, conn, mark);
        }
    }
}

/// Logs in three times, where the last reply is held back until the clock lets it go. Then it ends its connection, by which
/// the goal is met.
pub fn ask<R: Wait + Abort>(
    rt: &R,
    alloc: Global,
    port: &Port,
    seat: &mut Seat,
    told: &mut Vec<u32>,
)
    requires { IsOf port.now seat.old × IsFree seat.old }
    ensures { IsOf port.now seat.new × IsFree seat.new }
{
    let Some(conn) = open(rt, port, seat, 0) else {
        return;
    };
    for number in 0..6u64 {
        say(rt, alloc, port, seat, conn, line_of(number), named(0, 0));
    }
    hear(rt, port, seat, conn, told);
    let _ = port.gone(rt, seat, 0, conn);
}

/// Answers queries until the goal is met, and notes each.
pub fn serve<R: Wait>(rt: &R, port: &Port, seat: &mut Seat, told: &mut Vec<u32>)
    requires { IsOf port.now seat.old × IsFree seat.old }
    ensures { IsOf port.now seat.new × IsFree seat.new }
{
    for _ in 0..TURNS {
        let mark = port.mark_queries();
        if let Some(number) = answer(rt, port, seat) {
            let _ = told.push(number);
        } else {
            if port.is_over(rt, seat) {
                return;
            }
            port.await_query(rt, mark);
        }
    }
}

// Records a tick where a reply is due, and notes it.
fn tick_if_due<R: Wait>(rt: &R, port: &Port, seat: &mut Seat, moment: u64, told: &mut Vec<u32>)
    requires { IsOf port.now seat.old × IsFree seat.old }
    ensures { IsOf port.now seat.new × IsFree seat.new }
{
    if port.due(rt, seat, moment).reply {
        let _ = port.moment(rt, seat, moment);
        let _ = told.push(1);
    }
}

// Waits for work of the clock, unless there is some. `false` where there will be none.
fn is_needed<R: Wait>(rt: &R, port: &Port, seat: &mut Seat, mark: Mark) -> bool
    requires { IsOf port.now seat.old × IsFree seat.old }
    ensures { IsOf port.now seat.new × IsFree seat.new }
{
    if port.needs_clock(rt, seat) {
        return true;
    }
    if port.end(rt, seat).is_some() {
        return false;
    }
    port.await_clock(rt, mark);
    true
}

// The moment at which all is due that was decided by now: after the last tick, nothing was decided later than it.
fn moment_after(ticks: usize) -> u64 {
    (ticks as u64)
        .saturating_add(1)
        .saturating_mul(FAILURE_DELAY)
}

/// Does the work of the clock until the goal is met. Its clock stands still between two ticks, so that it never comes to
/// where a login has taken too long, however late the others run.
pub fn keep_time<R: Wait>(rt: &R, port: &Port, seat: &mut Seat, told: &mut Vec<u32>)
    requires { IsOf port.now seat.old × IsFree seat.old }
    ensures { IsOf port.now seat.new × IsFree seat.new }
{
    for _ in 0..u32::MAX {
        let mark = port.mark_clock();
        tick_if_due(rt, port, seat, moment_after(told.len()), told);
        if !is_needed(rt, port, seat, mark) {
            return;
        }
    }
}

// How much a thread noted.
fn count(told: &[Vec<u32>], place: usize) -> usize {
    match told.get(place) {
        Some(numbers) => numbers.len(),
        None => 0,
    }
}

/// Whether the first thread heard all lines, the clock had work, and the servers answered all queries.
pub fn were_woken(told: &[Vec<u32>]) -> bool {
    count(told, 0) == LINES
        && count(told, 1) > 0
        && count(told, 2).saturating_add(count(told, 3)) == 3
}

const SCENE: Scene<'static> = Scene {
    settings: b"",
    goal: Some(GOAL),
    roles: &[Role::Asker, Role::Clock, Role::Server, Role::Server],
    look: Look::Woken,
};

#[test]
fn whoever_waits_is_woken(rt: HostRuntime) {
    assert!(rt; is_right(&rt, rt.alloc(), &SCENE));
}
