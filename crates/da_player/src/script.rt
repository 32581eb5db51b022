// The play of a script, whose replies are printed.

use crate::server::{Server, core_of, plain_of};
use da_core::{Outputs, Refused};
use da_script::{print_outputs, print_refused, read_event};
use std::alloc::{AllocError, Global};

fn printed(
    alloc: Global,
    number: u64,
    reply: Result<Outputs, Refused>,
) -> Result<Vec<u8>, AllocError> {
    match reply {
        Ok(outputs) => print_outputs(alloc, number, &outputs),
        Err(refused) => print_refused(alloc, number, &refused),
    }
}

/// What the server gives out for the event of a line, under this number. A line that is no event changes nothing.
pub fn reply_to<S: Server>(
    alloc: Global,
    server: &mut S,
    number: u64,
    line: &[u8],
) -> Result<Vec<u8>, AllocError> {
    match read_event(alloc, line)? {
        Some((moment, input)) => printed(alloc, number, server.step(moment, input)),
        None => Ok(Vec::new(alloc)),
    }
}

/// What the server gives out for the events of a script, one a line.
pub fn replies<S: Server>(
    alloc: Global,
    server: &mut S,
    script: &[u8],
) -> Result<Vec<u8>, AllocError> {
    let mut replies = Vec::new(alloc);
    let mut number: u64 = 0;
    for line in script.split(|byte| *byte == b'\n') {
        number = number.saturating_add(1);
        replies.extend_from_slice(&reply_to(alloc, server, number, line)?)?;
    }
    Ok(replies)
}

// What the server gives out for the events of a script, where there is one.
pub(crate) fn replies_of<S: Server>(
    alloc: Global,
    server: &mut Option<S>,
    script: &[u8],
) -> Result<Option<Vec<u8>>, AllocError> {
    match server {
        Some(server) => Ok(Some(replies(alloc, server, script)?)),
        None => Ok(None),
    }
}

/// What a new `Plain` gives out for the events of a script. `None` where the text of the settings has a fault.
pub fn replies_of_plain(
    alloc: Global,
    settings: &[u8],
    script: &[u8],
) -> Result<Option<Vec<u8>>, AllocError> {
    let mut server = plain_of(alloc, settings)?;
    replies_of(alloc, &mut server, script)
}

/// What a new `Core` gives out for them, likewise.
pub fn replies_of_core(
    alloc: Global,
    settings: &[u8],
    script: &[u8],
) -> Result<Option<Vec<u8>>, AllocError> {
    let mut server = core_of(alloc, settings, None)?;
    replies_of(alloc, &mut server, script)
}
