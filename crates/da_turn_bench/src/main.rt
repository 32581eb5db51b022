//! Threads that take turns, for bench/turns to time: the program is given their number and the number of turns of them all.
#![tactic(auto)]

mod board;
mod crew;
mod mark;
#[cfg(test)]
mod tests;

use crate::board::Board;
use anyhow::Context;
use da_turn::Turn;
use std::alloc::{AllocError, Global};
use std::env;
use std::sync::Wait;
use std::thread::Threads;

/// The board after so many threads have taken so many turns each.
fn marked<R: Threads + Wait + Sync>(
    rt: &R,
    alloc: Global,
    threads: u64,
    turns: u64,
) -> Result<Board, AllocError> {
    let (turn, mut seat) = match Turn::new(alloc, Board::new(alloc, u64::MAX)) {
        Ok(made) => made,
        Err((board, fault)) => {
            drop(board);
            return Err(fault);
        }
    };
    crew::take_turns(rt, alloc, &turn, &mut seat, threads, turns)?;
    Ok(turn.close(rt, seat))
}

fn main(rt: HostRuntime) -> anyhow::Result<()> {
    let mut words = env::args(&rt)?.skip(1);
    let threads = words.next().context("how many threads?")?.parse::<u64>()?;
    let turns = words.next().context("how many turns?")?.parse::<u64>()?;
    let each = turns.checked_div(threads).context("no threads")?;
    let board = marked(&rt, rt.alloc(), threads, each)?;
    println!(rt; "{} turns by {threads} threads", board.marks().len())?;
    Ok(())
}
