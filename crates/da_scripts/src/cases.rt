// A script with what is written for it.

use da_tabline::{split_at_byte, strip_front};
use std::alloc::{AllocError, Global};

/// A script that is played under settings, what is written for it, and the words that it ends with; none where all of it
/// is played. In script and output `~` stands for a TAB. In a script a line `I` with three moments stands for the events
/// by which the first client introduces itself, and a line `V` with three moments for those of a client that knows the
/// codes of failures. In an output a line `H n c` stands for the greeting of client c at event
/// n, and `H n c text` for one with this mechanism in place of PLAIN.
#[derive(Drop)]
pub struct Case {
    pub settings: &'static [u8],
    pub script: &'static [u8],
    pub output: &'static [u8],
    pub end: &'static [u8],
}

/// Failures are told at once.
pub const AT_ONCE: &[u8] = b"failure_delay = 0\n";

/// The text that a script or an output stands for.
pub fn expanded(alloc: Global, text: &[u8]) -> Result<Vec<u8>, AllocError> {
    let text = with_tabs(alloc, text)?;
    let mut lines = Vec::new(alloc);
    for line in text.split(|byte| *byte == b'\n') {
        push_line(&mut lines, line)?;
    }
    lines.pop();
    Ok(lines)
}

fn with_tabs(alloc: Global, text: &[u8]) -> Result<Vec<u8>, AllocError> {
    let mut bytes = Vec::new(alloc);
    for byte in text {
        bytes.push(if *byte == b'~' { b'\t' } else { *byte })?;
    }
    Ok(bytes)
}

fn push_line(lines: &mut Vec<u8>, line: &[u8]) -> Result<(), AllocError> {
    if let Some(moments) = strip_front(line, b"I ") {
        return push_introduction(lines, moments, b"VERSION\t1\t1");
    }
    if let Some(moments) = strip_front(line, b"V ") {
        return push_introduction(lines, moments, b"VERSION\t1\t2");
    }
    if let Some(greeting) = strip_front(line, b"H ") {
        return push_greeting(lines, greeting);
    }
    lines.extend_from_slice(line)?;
    lines.extend_from_slice(b"\n")
}

fn push_introduction(
    lines: &mut Vec<u8>,
    moments: &[u8],
    version: &[u8],
) -> Result<(), AllocError> {
    let Some((first, rest)) = split_at_byte(moments, b' ') else {
        return Ok(());
    };
    let Some((second, third)) = split_at_byte(rest, b' ') else {
        return Ok(());
    };
    lines.extend_from_slice(first)?;
    lines.extend_from_slice(b" open client -\n")?;
    lines.extend_from_slice(second)?;
    lines.extend_from_slice(b" line 1 - ")?;
    lines.extend_from_slice(version)?;
    lines.extend_from_slice(b"\n")?;
    lines.extend_from_slice(third)?;
    lines.extend_from_slice(b" line 1 - CPID\t4711\n")
}

fn push_greeting(lines: &mut Vec<u8>, greeting: &[u8]) -> Result<(), AllocError> {
    let Some((event, rest)) = split_at_byte(greeting, b' ') else {
        return Ok(());
    };
    match split_at_byte(rest, b' ') {
        Some((conn, mechanism)) => push_greeting_with(lines, event, conn, mechanism),
        None => push_greeting_with(lines, event, rest, b"PLAIN\tplaintext"),
    }
}

fn push_greeting_with(
    lines: &mut Vec<u8>,
    event: &[u8],
    conn: &[u8],
    mechanism: &[u8],
) -> Result<(), AllocError> {
    push_sent(lines, event, conn, b"VERSION\t1\t", b"2")?;
    push_sent(lines, event, conn, b"MECH\t", mechanism)?;
    push_sent(lines, event, conn, b"SPID\t", b"1")?;
    push_sent(lines, event, conn, b"CUID\t", conn)?;
    push_sent(
        lines,
        event,
        conn,
        b"COOKIE\t",
        b"00000000000000000000000000000000",
    )?;
    push_sent(lines, event, conn, b"DONE", b"")
}

fn push_sent(
    lines: &mut Vec<u8>,
    event: &[u8],
    conn: &[u8],
    word: &[u8],
    value: &[u8],
) -> Result<(), AllocError> {
    lines.extend_from_slice(event)?;
    lines.extend_from_slice(b" > ")?;
    lines.extend_from_slice(conn)?;
    lines.extend_from_slice(b" ")?;
    lines.extend_from_slice(word)?;
    lines.extend_from_slice(value)?;
    lines.extend_from_slice(b"\n")
}
