// The loop that lets time pass, over a query that runs, a reply that is held back, and a goal that is met.

ghost use Rattle.da_turn.specs.Seats.{IsFree, IsOf};

use crate::history::script_of_closed;
use crate::service::{connect, port_of, say};
use da_core::Goal;
use da_fields::Answer;
use da_outside::{NoPause, SetClock};
use da_port::{LoopEnd, Port, Seat};
use da_session::serve_ticks;
use std::alloc::Global;
use std::process::Abort;
use std::sync::Wait;

/// What happens at moment 5, before time passes.
#[derive(Clone, Copy, Drop)]
enum Before {
    /// A client comes and goes.
    Leaves,
    /// A client logs in, and its query is taken.
    Waits,
    /// The query is answered too: there is no such user.
    Fails,
}

// A client logs in, and its query is taken.
fn log_in<R: Wait + Abort>(rt: &R, alloc: Global, port: &Port, seat: &mut Seat)
    requires { IsOf port.now seat.old × IsFree seat.old }
    ensures { IsOf port.now seat.new × IsFree seat.new }
{
    say(rt, alloc, port, seat, b"VERSION\t1\t1");
    say(rt, alloc, port, seat, b"CPID\t7");
    say(
        rt,
        alloc,
        port,
        seat,
        b"AUTH\t1\tPLAIN\tservice=imap\tresp=AGFsaWNlAHB3",
    );
    let _ = port.take_query(rt, seat, 5);
}

fn begin<R: Wait + Abort>(rt: &R, alloc: Global, port: &Port, seat: &mut Seat, before: Before)
    requires { IsOf port.now seat.old × IsFree seat.old }
    ensures { IsOf port.now seat.new × IsFree seat.new }
{
    connect(rt, port, seat, 5, [0; 16]);
    match before {
        Before::Leaves => {
            let _ = port.gone(rt, seat, 5, 1);
        }
        Before::Waits => log_in(rt, alloc, port, seat),
        Before::Fails => {
            log_in(rt, alloc, port, seat);
            let _ = port.answer(rt, seat, 5, 1, Answer::Unknown);
        }
    }
}

// Lets time pass, as a clock of these moments tells it.
fn let_pass<R: Wait + Abort>(
    rt: &R,
    alloc: Global,
    port: &Port,
    seat: &mut Seat,
    moments: &[u64],
) -> LoopEnd
    requires { IsOf port.now seat.old × IsFree seat.old }
    ensures { IsOf port.now seat.new × IsFree seat.new }
{
    let clock = SetClock::new(Vec::from_slice(alloc, moments).expect(rt, "memory"));
    serve_ticks(rt, port, seat, &clock, &NoPause)
}

/// What happens before time passes, and then the moments of the clock.
#[derive(Clone, Copy, Drop)]
struct Scene<'a> {
    settings: &'a [u8],
    before: Before,
    moments: &'a [u64],
}

// How the loop ended, and the history after it.
fn pass<R: Wait + Abort>(rt: &R, alloc: Global, scene: &Scene<'_>) -> (LoopEnd, Vec<u8>) {
    let goal = Goal {
        clients: 1,
        masters: 0,
    };
    let (port, mut seat) = port_of(rt, alloc, scene.settings, Some(goal));
    begin(rt, alloc, &port, &mut seat, scene.before);
    let end = let_pass(rt, alloc, &port, &mut seat, scene.moments);
    (end, script_of_closed(rt, alloc, port, seat))
}

// Whether the loop ends so, with these entries as the last.
fn passes<R: Wait + Abort>(
    rt: &R,
    alloc: Global,
    scene: &Scene<'_>,
    end: LoopEnd,
    last: &[u8],
) -> bool {
    let (reported, script) = pass(rt, alloc, scene);
    reported == end && script.ends_with(last)
}

const LATE: Scene<'static> = Scene {
    settings: b"failure_delay = 0\nquery_limit = 1000\nhistory_entries = 6\n",
    before: Before::Waits,
    moments: &[5, 1004, 1005],
};

const HELD_BACK: Scene<'static> = Scene {
    settings: b"failure_delay = 2000\nhistory_entries = 7\n",
    before: Before::Fails,
    moments: &[5, 2004, 2005],
};

const TIMED_OUT: Scene<'static> = Scene {
    settings: b"failure_delay = 2000\nrequest_limit = 1000\nhistory_entries = 6\n",
    before: Before::Waits,
    moments: &[5, 1004, 1005],
};

const GONE: Scene<'static> = Scene {
    settings: b"history_entries = 2\n",
    before: Before::Leaves,
    moments: &[5, 6, 7],
};

#[test]
fn time_passes_to_a_full_history_or_the_goal(rt: HostRuntime) {
    let alloc = rt.alloc();
    let tick = b"5 answer UNKNOWN\t1\n2005 tick\n";
    let gone = b"5 open client -\n5 gone 1\n";
    assert!(rt; passes(&rt, alloc, &LATE, LoopEnd::Full, b"5 take\n1005 late 1\n"));
    assert!(rt; passes(&rt, alloc, &HELD_BACK, LoopEnd::Full, tick));
    assert!(rt;
        passes(
            &rt,
            alloc,
            &TIMED_OUT,
            LoopEnd::Full,
            b"5 take\n1005 tick\n"
        )
    );
    assert!(rt; passes(&rt, alloc, &GONE, LoopEnd::Over, gone));
}
