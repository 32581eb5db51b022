// Two threads that record ticks.

ghost use Rattle.std.specs.Prelude.{◌≡◌};
ghost use Rattle.da_turn.specs.Seats.{IsFree, IsOf};

use crate::client::{line_of, named, open, say};
use crate::crew::{Look, Role, Scene, is_right};
use da_core::{Entry, Input};
use da_port::{Port, Seat};
use std::alloc::Global;
use std::process::Abort;
use std::sync::Wait;

const TICKS: u8 = 100;

// The line by which a thread's client tells its process number. No two clients have the same.
fn pid_of(thread: u8) -> &'static [u8] {
    if thread == 0 { b"CPID\t1" } else { b"CPID\t2" }
}

/// Opens a connection, and then sends numbered lines and records ticks in turn.
pub fn tick<R: Wait + Abort>(rt: &R, alloc: Global, port: &Port, seat: &mut Seat, thread: u8)
    requires { IsOf port.now seat.old × IsFree seat.old }
    ensures { IsOf port.now seat.new × IsFree seat.new }
{
    let Some(conn) = open(rt, port, seat, thread) else {
        return;
    };
    let first = named(thread, 255);
    say(rt, alloc, port, seat, conn, line_of(0), first);
    say(rt, alloc, port, seat, conn, pid_of(thread), first);
    for number in 0..TICKS {
        let random = named(thread, number);
        say(rt, alloc, port, seat, conn, line_of(6), random);
        let _ = port.moment(rt, seat, 0);
    }
}

// The number of a numbered line of the thread.
fn number_of(entry: &Entry, thread: u8) -> Option<u8> {
    match &entry.input {
        Input::Line { random, .. } if random[0] == thread && random[1] < 255 => Some(random[1]),
        _ => None,
    }
}

// Whether the thread's numbered lines stand there, each once and in its order.
fn has_all(entries: &[Entry], thread: u8) -> bool {
    let mut next = 0u8;
    for entry in entries {
        if let Some(number) = number_of(entry, thread) {
            if number != next {
                return false;
            }
            next = next.saturating_add(1);
        }
    }
    next == TICKS
}

fn tick_count(entries: &[Entry]) -> usize {
    let mut count = 0usize;
    for entry in entries {
        if matches!(&entry.input, Input::Tick) {
            count = count.saturating_add(1);
        }
    }
    count
}

/// Whether the numbered lines and the ticks of two threads stand there, each once and in its order, and nothing else.
pub fn are_in_order(entries: &[Entry]) -> bool {
    has_all(entries, 0) && has_all(entries, 1) && tick_count(entries) == 200 && entries.len() == 406
}

const SCENE: Scene<'static> = Scene {
    settings: b"",
    goal: None,
    roles: &[Role::Ticker, Role::Ticker],
    look: Look::Order,
};

#[test]
fn entries_of_two_threads_stand_once_and_in_their_order(rt: HostRuntime) {
    assert!(rt; is_right(&rt, rt.alloc(), &SCENE));
}
