//! A play of a script by one of the two servers, for bench/drive to time: the program is given the name of the server,
//! `plain` or `core`, and the file of its settings, reads the script, and writes the printed replies. For
//! tools/refuse-allocations there is `again` too, a `core` that makes a step once more where it wanted memory.
#![tactic(auto)]

use anyhow::Context;
use da_player::{replies_of_core, replies_of_core_again, replies_of_plain};
use std::alloc::{AllocError, Global};
use std::io::Write;
use std::{env, fs, io};

/// The replies of the server of this name to the script. `None` where there is no such server, or the settings have a fault.
fn replies_of(
    alloc: Global,
    name: &str,
    settings: &[u8],
    script: &[u8],
) -> Result<Option<Vec<u8>>, AllocError> {
    match name {
        "plain" => replies_of_plain(alloc, settings, script),
        "core" => replies_of_core(alloc, settings, script),
        "again" => replies_of_core_again(alloc, settings, script),
        _ => Ok(None),
    }
}

fn main(rt: HostRuntime) -> anyhow::Result<()> {
    let alloc = rt.alloc();
    let mut words = env::args(&rt)?.skip(1);
    let name = words.next().context("which server?")?;
    let path = words.next().context("which settings?")?;
    let settings = fs::read_to_string(&rt, path)?;
    let script = io::read_to_string(alloc, rt.stdin())?;
    let replies = replies_of(alloc, &name, settings.as_bytes(), script.as_bytes())?;
    let replies = replies.context("no such server, or no such settings")?;
    io::writer(&rt).write_all(&replies)?;
    Ok(())
}
