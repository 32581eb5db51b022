// Reads and writes that are tried again where a signal came between, and wait where the other side isn't ready.

ghost use Rattle.std.specs.Io.{ReadsAtMost};
ghost use Rattle.std.specs.Io.KnownBytes.{ReadConsumes};

use crate::limits::{Limit, await_ready};
use libc::net::{POLLIN, POLLOUT};
use std::io::{self, ErrorKind, Read, Write};

/// A reader or a writer over a descriptor, which waits for no longer than a limit. No read and no write begins once the
/// time is up. Where there is a limit, the descriptor has to be one that answers `WouldBlock`.
#[derive(Drop)]
pub struct Patient<T, L> {
    inner: T,
    fd: i32,
    limit: L,
}

impl<T, L: Limit> Patient<T, L> {
    pub fn new(inner: T, fd: i32, limit: L) -> Self {
        Patient { inner, fd, limit }
    }

    // Whether the call is to be made again after this error; it is handed on where it isn't.
    fn rest(&self, error: io::Error, events: i16) -> io::Result<()> {
        match error.kind() {
            ErrorKind::Interrupted => Ok(()),
            ErrorKind::WouldBlock => await_ready(self.fd, events, &self.limit),
            _ => Err(error),
        }
    }
}

impl<T: Read, L: Limit> Read for Patient<T, L> {
    ghost remaining = { λ patient. T.remaining patient.inner };

    fn read(&mut self, buf: &mut [u8]) -> io::Result<usize> {
        for _ in 0..u64::MAX {
            let _ = self.limit.left()?;
            match self.inner.read(buf) {
                Ok(count) => return Ok(count),
                Err(error) => self.rest(error, POLLIN)?,
            }
        }
        Err(io::Error::from(ErrorKind::TimedOut))
    }
}

impl<T: Write, L: Limit> Write for Patient<T, L> {
    ghost contents = { λ patient. T.contents patient.inner };

    fn write(&mut self, buf: &[u8]) -> io::Result<usize> {
        for _ in 0..u64::MAX {
            let _ = self.limit.left()?;
            match self.inner.write(buf) {
                Ok(count) => return Ok(count),
                Err(error) => self.rest(error, POLLOUT)?,
            }
        }
        Err(io::Error::from(ErrorKind::TimedOut))
    }

    fn flush(&mut self) -> io::Result<()> {
        self.inner.flush()
    }
}

/// What writes to an open file of the system by its number. Where nobody reads any more, that is an error and no signal.
#[derive(Clone, Copy)]
pub struct Quiet {
    fd: i32,
}

impl Quiet {
    pub fn new(fd: i32) -> Quiet {
        Quiet { fd }
    }
}

impl Write for Quiet {
    fn write(&mut self, buf: &[u8]) -> io::Result<usize> {
        match usize::try_from(os::write_no_sigpipe(self.fd, buf)) {
            Ok(count) if count <= buf.len() => Ok(count),
            _ => Err(io::Error::from_raw_os_error(os::errno())),
        }
    }

    fn flush(&mut self) -> io::Result<()> {
        Ok(())
    }
}

/// One read, tried again where a signal came between.
pub fn read_on<R: Read>(from: &mut R, buf: &mut [u8]) -> io::Result<usize>
    ensures bound { ReadsAtMost result buf.new }
    ensures bytes { ReadConsumes (R.remaining from.old) (R.remaining from.new) result buf.new }
{
    for _ in 0..u64::MAX {
        match from.read(buf) {
            Err(error) if error.kind() == ErrorKind::Interrupted => {}
            ended => return ended,
        }
    }
    Err(io::Error::from(ErrorKind::TimedOut))
}
