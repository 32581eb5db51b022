//! Calls of the cache, the delays and the pool, for bench/lists to time: the program is given the name of what is called, how
//! many entries there are, and how many calls to make.
#![tactic(auto)]

mod calls;

use anyhow::Context;
use std::alloc::{AllocError, Global};
use std::env;

/// Makes so many calls with so many entries there, and counts those that found what they sought.
fn found(alloc: Global, name: &str, size: u32, count: u32) -> Result<u32, AllocError> {
    match name {
        "look" => calls::look(alloc, size, count),
        "look_again" => calls::look_again(alloc, size, count),
        "put" => calls::put(alloc, size, count),
        "push" => calls::push(alloc, size, count),
        "first_due" => calls::first_due(alloc, size, count),
        "pool" => calls::pool(alloc, size, count),
        _ => Ok(0),
    }
}

fn main(rt: HostRuntime) -> anyhow::Result<()> {
    let mut words = env::args(&rt)?.skip(1);
    let name = words.next().context("which call?")?;
    let size = words.next().context("how many entries?")?.parse::<u32>()?;
    let count = words.next().context("how many calls?")?.parse::<u32>()?;
    let found = found(rt.alloc(), &name, size, count)?;
    println!(rt; "{found} of {count} calls")?;
    Ok(())
}
