// What is read and written over readers and writers that fail, stop short or come in pieces.

use da_outside::{Files, GetFault, Rand, Sink, Source};
use da_unix::{Deadline, Disk, Held, Input, Output, Patient, Random, Unlimited, read_whole};
use std::alloc::Global;
use std::io::{self, ErrorKind, PipeReader, PipeWriter, Read, Write, pipe};
use std::os::fd::AsRawFd;
use std::process::Command;
use std::test::Fail;
use std::time::Clock;

/// What one read gives.
#[derive(Clone, Copy)]
enum Step {
    Gives(&'static [u8]),
    Fails(ErrorKind),
}

/// A reader whose reads give this, and then the end.
#[derive(Drop)]
struct Scripted {
    steps: &'static [Step],
}

impl Read for Scripted {
    fn read(&mut self, buf: &mut [u8]) -> io::Result<usize> {
        let Some((step, rest)) = self.steps.split_first() else {
            return Ok(0);
        };
        self.steps = rest;
        match step {
            Step::Gives(text) => {
                let count = text.len().min(buf.len());
                buf[..count].copy_from_slice(&text[..count]);
                Ok(count)
            }
            Step::Fails(kind) => Err(io::Error::from(*kind)),
        }
    }
}

// A read whole, or a fault where there is none.
fn is_whole(alloc: Global, steps: &'static [Step], text: Option<&[u8]>) -> bool {
    let mut reader = Scripted { steps };
    match (read_whole(alloc, &mut reader, 6), text) {
        (Ok(bytes), Some(text)) => bytes.as_slice() == text,
        (Err(GetFault::Failed), None) => true,
        _ => false,
    }
}

const BREAKS: &[Step] = &[Step::Gives(b"alice:"), Step::Fails(ErrorKind::Other)];

const INTERRUPTED: &[Step] = &[
    Step::Gives(b"ali"),
    Step::Fails(ErrorKind::Interrupted),
    Step::Gives(b"ce"),
];

#[test]
fn a_file_that_breaks_off_is_no_file(rt: HostRuntime) -> Result<(), Fail> {
    let alloc = rt.alloc();
    assert!(rt; is_whole(alloc, BREAKS, None));
    assert!(rt; is_whole(alloc, INTERRUPTED, Some(b"alice")));
    Ok(())
}

// What a link would receive of such reads: `Ok` is a line, and an error a fault.
fn is_received(alloc: Global, steps: &'static [Step], lines: &[Option<&[u8]>]) -> bool {
    let mut reader = Scripted { steps };
    let mut held = Held::new(alloc);
    for line in lines {
        let is_right = match (held.next_line(alloc, &mut reader), *line) {
            (Ok(got), Some(line)) => got.as_slice() == line,
            (Err(GetFault::Failed), None) => true,
            _ => false,
        };
        if !is_right {
            return false;
        }
    }
    true
}

const PIECES: &[Step] = &[
    Step::Gives(b"FOUND\t5"),
    Step::Fails(ErrorKind::Interrupted),
    Step::Gives(b"\t{PLAIN}pw\nFOU"),
    Step::Gives(b"ND\t6\t{PLAIN}"),
];

#[test]
fn a_line_is_whole_in_pieces_and_no_line_without_its_end(rt: HostRuntime) -> Result<(), Fail> {
    let lines = [Some(b"FOUND\t5\t{PLAIN}pw".as_slice()), None, None];
    assert!(rt; is_received(rt.alloc(), PIECES, &lines));
    Ok(())
}

#[test]
fn a_read_that_a_signal_interrupts_is_no_fault(rt: HostRuntime) -> Result<(), Fail> {
    let steps: &'static [Step] = INTERRUPTED;
    let mut input = Input::over(Patient::new(Scripted { steps }, -1, Unlimited));
    let mut buf = [0; 8];
    assert!(rt; matches!(input.read(&mut buf), Ok(3)));
    assert!(rt; matches!(input.read(&mut buf), Ok(2)));
    assert!(rt; matches!(input.read(&mut buf), Ok(0)));
    Ok(())
}

// A pipe whose ends answer `WouldBlock`, with so many bytes in it.
fn filled(rt: &HostRuntime, bytes: usize) -> io::Result<(PipeReader, PipeWriter)> {
    let (from, mut to) = pipe(rt)?;
    let _ = os::set_nonblocking(from.as_raw_fd(), true);
    let _ = os::set_nonblocking(to.as_raw_fd(), true);
    let piece = [b'a'; 4096];
    for _ in 0..bytes / 4096 {
        to.write_all(&piece)?;
    }
    Ok((from, to))
}

// The bytes that a pipe of Linux holds.
const PIPE: usize = 65_536;

#[test]
fn a_short_write_is_told_as_short(rt: HostRuntime) -> Result<(), Fail> {
    let (_from, to) = filled(&rt, PIPE - 4096)?;
    let mut output = Output::new(to.as_raw_fd());
    assert!(rt; matches!(output.write(&[b'b'; 8192]), Ok(4096)));
    Ok(())
}

#[test]
fn nothing_is_waited_for_beyond_the_limit(rt: HostRuntime) -> Result<(), Fail> {
    let (from, to) = filled(&rt, PIPE)?;
    let begin = rt.monotonic()?;
    let fd = to.as_raw_fd();
    let mut full = Patient::new(to, fd, Deadline::after(&rt, 50)?);
    assert!(rt; full.write(b"b").is_err());
    let mut buf = [0; 4096];
    let fd = from.as_raw_fd();
    let mut from = Patient::new(from, fd, Deadline::after(&rt, 50)?);
    for _ in 0..PIPE / 4096 {
        assert!(rt; from.read(&mut buf).is_ok());
    }
    assert!(rt; from.read(&mut buf).is_err());
    let took = rt.monotonic()?.saturating_sub(begin).as_millis();
    assert!(rt; (100..5000).contains(&took));
    Ok(())
}

#[test]
fn a_pipe_that_nobody_reads_is_a_fault_and_no_signal(rt: HostRuntime) -> Result<(), Fail> {
    let (from, to) = pipe(&rt)?;
    drop(from);
    let mut output = Output::new(to.as_raw_fd());
    assert!(rt; output.write(b"b").is_err());
    Ok(())
}

#[test]
fn random_bytes_differ(rt: HostRuntime) -> Result<(), Fail> {
    let mut random = Random::new(&rt)?;
    let mut forked = random.fork();
    let mut other = Random::new(&rt)?;
    let draws = [
        random.bytes(),
        random.bytes(),
        forked.bytes(),
        other.bytes(),
    ];
    for (at, draw) in draws.iter().enumerate() {
        assert!(rt; !draws[at + 1..].contains(draw));
    }
    Ok(())
}

// Whether a read of the file gives this, or a fault.
fn is_file(rt: &HostRuntime, piped: &[u8], path: &[u8], text: Option<&[u8]>) -> bool {
    let mut disk = Disk::new(rt, piped);
    match (disk.read(rt.alloc(), path, 100), text) {
        (Ok(bytes), Some(text)) => bytes.as_slice() == text,
        (Err(GetFault::Failed), None) => true,
        _ => false,
    }
}

#[test]
fn only_the_settings_come_through_a_pipe(rt: HostRuntime) -> Result<(), Fail> {
    let mut command = Command::new(rt.alloc(), "sh")?;
    command
        .arg("-c")?
        .arg("mkfifo fifo && (printf abc > fifo &)")?;
    assert!(rt; command.status(&rt)?.success());
    assert!(rt; is_file(&rt, b"settings.toml", b"fifo", None));
    assert!(rt; is_file(&rt, b"settings.toml", b"/", None));
    assert!(rt; is_file(&rt, b"fifo", b"fifo", Some(b"abc")));
    Ok(())
}
