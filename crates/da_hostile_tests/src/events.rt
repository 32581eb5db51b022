// Events of many clients, each made of a template: in it `#` stands for the client's number, and `@` for another number.

use da_core::Core;
use da_player::reply_to;
use std::alloc::{AllocError, Global};

pub const OPEN: &[u8] = b"0 open client -";

pub const VERSION: &[u8] = b"0 line # - VERSION\t1\t1";

pub const PID: &[u8] = b"0 line # - CPID\t#";

pub const AUTH: &[u8] = b"0 line # - AUTH\t@\tPLAIN\tservice=imap\tresp=AGFsaWNlAHB3";

pub const GREETING: &[u8] = b"1 > # VERSION\t1\t2\n\
1 > # MECH\tPLAIN\tplaintext\n\
1 > # SPID\t1\n\
1 > # CUID\t#\n\
1 > # COOKIE\t00000000000000000000000000000000\n\
1 > # DONE\n";

fn push_number(text: &mut Vec<u8>, alloc: Global, number: u32) -> Result<(), AllocError> {
    let digits = number.to_string(alloc)?;
    text.extend_from_slice(digits.as_bytes())
}

/// The text that a template stands for.
pub fn filled(
    alloc: Global,
    template: &[u8],
    client: u32,
    number: u32,
) -> Result<Vec<u8>, AllocError> {
    let mut text = Vec::new(alloc);
    for byte in template {
        match *byte {
            b'#' => push_number(&mut text, alloc, client)?,
            b'@' => push_number(&mut text, alloc, number)?,
            other => text.push(other)?,
        }
    }
    Ok(text)
}

/// Whether the server gives out this for an event, each of them a template.
pub fn gives(
    alloc: Global,
    core: &mut Core,
    event: &[u8],
    client: u32,
    number: u32,
    wanted: &[u8],
) -> Result<bool, AllocError> {
    let line = filled(alloc, event, client, number)?;
    let reply = reply_to(alloc, core, 1, &line)?;
    let wanted = filled(alloc, wanted, client, number)?;
    Ok(reply.as_slice() == wanted.as_slice())
}

/// Whether a client opens its connection and introduces itself, and the server greets it.
pub fn is_greeted(alloc: Global, core: &mut Core, client: u32) -> Result<bool, AllocError> {
    Ok(
        gives(alloc, core, OPEN, client, 0, GREETING)?
            && gives(alloc, core, VERSION, client, 0, b"")?
            && gives(alloc, core, PID, client, 0, b"")?,
    )
}
