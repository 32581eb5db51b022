// A worker: it serves one query after another.

ghost use Rattle.std.specs.Prelude.{◌≡◌, ◌⊎◌, None, option_map};
ghost use Rattle.da_port.specs.Calls.{Stays};
ghost use Rattle.da_port.specs.Ends.{EndsLoop};
ghost use Rattle.da_turn.specs.Seats.{IsFree, IsOf, made, seen};
ghost use Rattle.da_workers.specs.Bridges.{Sits};
ghost use Rattle.da_workers.specs.Deaths.{AreDeathsFew, deaths};
ghost use Rattle.da_workers.specs.Working.{AnswersQuery, GivesAnswer, LeavesOut, RecordsAnswer, Works, WorksSoundly, standing};

use crate::exchange::exchange;
use crate::link::hand_in;
use crate::next::{Next, next_query};
use da_fields::{Answer, Query};
use da_outside::{Clock, Pause, Runner, Spawner};
use da_play::Refused;
use da_port::{LoopEnd, Port, Seat};
use da_settings::Settings;
use std::alloc::{AllocError, Global};
use std::sync::Wait;

/// Records the answer to a query, or rests where memory is wanted. An answer to a query that runs no more is dropped.
fn record_answer<R: Wait, C: Clock, Z: Pause>(
    rt: &R,
    port: &Port,
    seat: &mut Seat,
    clock: &C,
    pause: &Z,
    number: u32,
    answer: Answer,
)
    requires own { IsOf port.now seat.old × IsFree seat.old }
    ensures seat { Stays seat.old seat.new }
    ensures gives { RecordsAnswer port.now.fixed (C.may_tell clock.now) seat.old seat.new number answer
        ⊎ LeavesOut port.now.fixed seat.old seat.new number }
{
    if let Err(Refused::NoMemory) = port.answer(rt, seat, clock.now(), number, answer) {
        pause.rest();
    }
}

/// Gives the answer of an exchange, or rests where it wanted memory.
fn give_answer<R: Wait, C: Clock, Z: Pause>(
    rt: &R,
    port: &Port,
    seat: &mut Seat,
    clock: &C,
    pause: &Z,
    number: u32,
    answer: Result<Answer, AllocError>,
)
    requires own { IsOf port.now seat.old × IsFree seat.old }
    ensures seat { Sits seat.old seat.new }
    ensures gives { GivesAnswer port.now.fixed (C.may_tell clock.now) seat.old seat.new number answer }
{
    match answer {
        Ok(answer) => record_answer(rt, port, seat, clock, pause, number, answer),
        Err(_) => pause.rest(),
    }
}

/// Answers a query that was taken.
fn answer_query<R: Wait, P: Spawner, U: Runner, C: Clock, Z: Pause>(
    rt: &R,
    alloc: Global,
    port: &Port,
    seat: &mut Seat,
    settings: &Settings,
    spawner: &mut P,
    runner: &mut U,
    link: Option<P::Link>,
    query: &Query,
    clock: &C,
    pause: &Z,
) -> Option<P::Link>
    requires own { IsOf port.now seat.old × IsFree seat.old }
    requires terms { settings.now ≡ port.now.fixed.settings }
    ensures seat { Sits seat.old seat.new }
    ensures answers { AnswersQuery port.now.fixed (C.may_tell clock.now) query.now
        (standing seat.old (P.state spawner.old) (option_map P.Link.state link) (U.state runner.old))
        (standing seat.new (P.state spawner.new) (option_map P.Link.state result) (U.state runner.new)) }
{
    let (link, answer) = exchange(alloc, settings, spawner, runner, link, query);
    give_answer(rt, port, seat, clock, pause, query.number, answer);
    link
}

/// Serves queries until the run is over or the history full: takes each one that waits, asks a worker over a link, or the
/// program of its database, and records the answer at the clock's moment. A link is started where there is none, and handed
/// back where its worker died, or what it said is malformed, or memory was wanted, and at the end. An answer to a query that
/// is no longer running is dropped, as is one that the full history has no room for. Where memory is wanted, the worker
/// rests and goes on; the query may then be left running.
pub fn serve_worker<R: Wait, P: Spawner, U: Runner, C: Clock, Z: Pause>(
    rt: &R,
    alloc: Global,
    port: &Port,
    seat: &mut Seat,
    settings: &Settings,
    spawner: &mut P,
    runner: &mut U,
    clock: &C,
    pause: &Z,
) -> LoopEnd
    requires own { IsOf port.now seat.old × IsFree seat.old }
    requires terms { settings.now ≡ port.now.fixed.settings }
    ensures seat { Stays seat.old seat.new }
    ensures end { EndsLoop port.now.fixed (seen seat.new) result }
    ensures works { Works port.now.fixed (C.may_tell clock.now)
        (standing seat.old (P.state spawner.old) None (U.state runner.old))
        (standing seat.new (P.state spawner.new) None (U.state runner.new)) }
    // whether spawner and runner tell their calls or not
    ensures deaths { AreDeathsFew (deaths (made seat.old)) (deaths (made seat.new))
        (P.state spawner.old).faults (P.state spawner.new).faults (U.state runner.old).faults (U.state runner.new).faults }
    ensures sound { WorksSoundly port.now.fixed (C.may_tell clock.now)
        (standing seat.old (P.state spawner.old) None (U.state runner.old))
        (standing seat.new (P.state spawner.new) None (U.state runner.new)) }
{
    let mut link = None;
    for _ in rt.forever() {
        match next_query(rt, port, seat, clock, pause) {
            Next::Query(query) => {
                link = answer_query(
                    rt, alloc, port, seat, settings, spawner, runner, link, &query, clock, pause,
                );
            }
            Next::End(end) => {
                hand_in(spawner, link);
                return end;
            }
            Next::Nothing => {}
        }
    }
    unreachable!()
}
