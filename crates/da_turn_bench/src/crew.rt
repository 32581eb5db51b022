//! Threads that leave marks in turn.
ghost use Rattle.std.specs.Prelude.{◌≡◌, ◌++◌, [], ◌∷◌, length, All, IfOk, MatchBool, true, false};
ghost use Rattle.da_turn.specs.Seats.{IsOf, IsFree, Grows, seen, made};

use crate::board::Board;
use crate::mark::Mark;
use da_turn::{Held, Seat, Turn};
use std::alloc::{AllocError, Global};
use std::sync::Wait;
use std::thread;
use std::thread::Threads;

/// What one thread does: it takes this many turns, and leaves a mark in each.
#[derive(Drop)]
pub struct Job {
    pub thread: u64,
    pub turns: u64,
    pub seat: Seat<Board>,
}

fn add(held: &mut Held<Board>, mark: Mark) -> bool
    requires { held.old.added ≡ false }
    ensures grows { Grows held.new.added held.old.value.marks held.new.value.marks }
    ensures limit { held.new.value.limit ≡ held.old.value.limit }
    ensures added { result ≡ held.new.added }
    ensures marks { MatchBool result (held.new.value.marks ≡ mark ∷ held.old.value.marks) (held.new.value.marks ≡ held.old.value.marks) }
{
    held.added = held.value.leave_mark(mark);
    held.added
}

/// Leaves a mark under the seat's turn, and answers whether there was room.
pub fn mark<R: Wait>(rt: &R, turn: &Turn<Board>, seat: &mut Seat<Board>, mark: Mark) -> bool
    requires { IsOf turn.now seat.old × IsFree seat.old }
    ensures seat { IsOf turn.now seat.new × IsFree seat.new }
    ensures made { MatchBool result (made seat.new ≡ made seat.old ++ (length (seen seat.new), mark) ∷ []) (made seat.new ≡ made seat.old) }
{
    let mut held = turn.enter(rt, seat);
    let added = add(&mut held, mark);
    turn.leave(seat, held);
    added
}

fn work<R: Wait>(rt: &R, turn: &Turn<Board>, job: Job) -> Seat<Board>
    requires { IsOf turn.now job.seat × IsFree job.seat }
    ensures { IsOf turn.now result × IsFree result }
{
    let Job {
        thread,
        turns,
        mut seat,
    } = job;
    for number in 0..turns {
        let _ = mark(rt, turn, &mut seat, Mark { thread, number });
    }
    seat
}

// Seats for so many threads.
fn jobs(
    alloc: Global,
    turn: &Turn<Board>,
    seat: &mut Seat<Board>,
    threads: u64,
    turns: u64,
) -> Result<Vec<Job>, AllocError>
    requires { IsOf turn.now seat.old × IsFree seat.old }
    ensures seat { IsOf turn.now seat.new × IsFree seat.new }
    ensures jobs { IfOk result (λ v. All (λ j. IsOf turn.now j.seat × IsFree j.seat) v.items) }
{
    let mut jobs = Vec::new(alloc);
    for thread in 0..threads {
        let job = Job {
            thread,
            turns,
            seat: turn.split(seat),
        };
        jobs.push(job)?;
    }
    Ok(jobs)
}

// Does each job in a thread of its own, and joins the seats that come back.
fn run<R: Threads + Wait + Sync>(
    rt: &R,
    turn: &Turn<Board>,
    seat: &mut Seat<Board>,
    jobs: Vec<Job>,
) -> Result<(), AllocError>
    requires seat { IsOf turn.now seat.old × IsFree seat.old }
    requires jobs { All (λ j. IsOf turn.now j.seat × IsFree j.seat) jobs.items }
    ensures { IsOf turn.now seat.new × IsFree seat.new }
{
    let seats = thread::map_vec(
        rt,
        jobs,
        &|job: Job| -> Seat<Board>
            requires { IsOf turn.now job.seat × IsFree job.seat }
            ensures { IsOf turn.entry.now result × IsFree result }
        { work(rt, turn, job) },
    )?;
    join_all(turn, seat, seats);
    Ok(())
}

/// So many threads take so many turns each.
pub fn take_turns<R: Threads + Wait + Sync>(
    rt: &R,
    alloc: Global,
    turn: &Turn<Board>,
    seat: &mut Seat<Board>,
    threads: u64,
    turns: u64,
) -> Result<(), AllocError>
    requires { IsOf turn.now seat.old × IsFree seat.old }
    ensures { IsOf turn.now seat.new × IsFree seat.new }
{
    let jobs = jobs(alloc, turn, seat, threads, turns)?;
    run(rt, turn, seat, jobs)
}

fn join_all(turn: &Turn<Board>, seat: &mut Seat<Board>, mut seats: Vec<Seat<Board>>)
    requires seat { IsOf turn.now seat.old × IsFree seat.old }
    requires seats { All (λ s. IsOf turn.now s × IsFree s) seats.items }
    ensures { IsOf turn.now seat.new × IsFree seat.new }
{
    while let Some(other) = seats.pop() {
        turn.join(seat, other);
    }
}
