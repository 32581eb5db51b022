// Children: each with pipes of ours at its standard input and output, with no environment but PATH, and with an end.

ghost use Rattle.std.specs.Prelude.{◌≡◌};

use crate::limits::{Deadline, Limit};
use da_outside::GetFault;
use std::alloc::{AllocError, Global};
use std::env::{self, VarError};
use std::io::{self, ErrorKind, PipeReader, PipeWriter, pipe};
use std::os::fd::AsRawFd;
use std::process::{Child, Command, ExitStatus, Processes};
use std::rt::{Env, Files};
use std::thread;
use std::time::{Clock, Duration};

/// What starting a child and waiting for it takes of the system.
pub trait Starts: Processes + Files + Env + Clock {}

impl<R: Processes + Files + Env + Clock> Starts for R {}

/// How long a child that was killed is waited for, in milliseconds.
const KILLED_LIMIT: u64 = 1000;

/// The longest rest between two looks whether a child has ended, in microseconds.
const LONGEST_REST: u64 = 20_000;

/// A child that was started. Where it is let go before it was waited for, it is killed and waited for.
pub struct Running<'a, R: Starts> {
    rt: &'a R,
    child: Child<R::Started>,
    ended: Option<ExitStatus>,
}

impl<'a, R: Starts> Running<'a, R> {
    /// How the child ended. An error where it hasn't ended in time.
    pub fn wait<L: Limit>(&mut self, limit: &L) -> io::Result<ExitStatus> {
        let status = await_end(self.rt, &mut self.child, limit)?;
        self.ended = Some(status);
        Ok(status)
    }
}

impl<'a, R: Starts> Drop for Running<'a, R> {
    fn drop(self) {
        let Running {
            rt,
            mut child,
            ended,
        } = self;
        if ended.is_none() {
            let _ = child.kill();
            let _ = end(rt, &mut child);
        }
    }
}

// Waits for a child that was killed. One that even so doesn't end is left alone after a while.
fn end<R: Starts>(rt: &R, child: &mut Child<R::Started>) -> io::Result<ExitStatus> {
    let limit = Deadline::after(rt, KILLED_LIMIT)?;
    await_end(rt, child, &limit)
}

fn await_end<R: Starts, L: Limit>(
    rt: &R,
    child: &mut Child<R::Started>,
    limit: &L,
) -> io::Result<ExitStatus> {
    let mut rest: u64 = 100;
    for _ in 0..u64::MAX {
        if let Some(status) = child.try_wait()? {
            return Ok(status);
        }
        let _ = limit.left()?;
        thread::sleep(rt, Duration::from_micros(rest));
        rest = rest.saturating_mul(2).min(LONGEST_REST);
    }
    Err(io::Error::from(ErrorKind::TimedOut))
}

/// A child, and our ends of its pipes. These answer `WouldBlock` where they would wait.
pub struct Started<'a, R: Starts> {
    pub running: Running<'a, R>,
    pub to: PipeWriter,
    pub from: PipeReader,
}

/// Starts a child by this command.
pub fn start<'a, R: Starts>(
    rt: &'a R,
    alloc: Global,
    command: &mut Command,
) -> io::Result<Started<'a, R>> {
    let (theirs_to_read, to) = pipe(rt)?;
    let (from, theirs_to_write) = pipe(rt)?;
    never_wait(to.as_raw_fd())?;
    never_wait(from.as_raw_fd())?;
    only_path(rt, alloc, command)?;
    command.stdin(theirs_to_read).stdout(theirs_to_write);
    let child = command.spawn(rt)?;
    Ok(Started {
        running: Running {
            rt,
            child,
            ended: None,
        },
        to,
        from,
    })
}

fn never_wait(fd: i32) -> io::Result<()> {
    if os::set_nonblocking(fd, true) != 0 {
        return Err(io::Error::from_raw_os_error(os::errno()));
    }
    Ok(())
}

// Leaves the child no environment but PATH, where there is one that is text.
fn only_path<R: Starts>(rt: &R, alloc: Global, command: &mut Command) -> io::Result<()> {
    command.env_clear();
    match env::var(&(rt, alloc), "PATH") {
        Ok(path) => {
            command.env("PATH", path.as_str())?;
            Ok(())
        }
        Err(VarError::OutOfMemory) => Err(io::Error::from(AllocError)),
        Err(_) => Ok(()),
    }
}

/// Why a child can't be started or talked to.
pub fn fault_of(error: io::Error) -> GetFault
    ensures { result ≡ GetFault.Long → ⊥ }
{
    if error.kind() == ErrorKind::OutOfMemory {
        GetFault::NoMemory
    } else {
        GetFault::Failed
    }
}
