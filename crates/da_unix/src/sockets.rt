// Unix sockets. A connection is one descriptor, which its reader and its writer share.

ghost use Rattle.std.specs.Prelude.{◌≡◌, ◌<◌, None, IfOk, IsErrOf, length};
ghost use Rattle.std.specs.Io.{WritesAtMost};

use crate::patient::read_on;
use da_outside::{Failed, GetFault, Listen, Sink, Source};
use std::alloc::{AllocError, Global};
use std::io::{ErrorKind, Write};
use std::net::{Net, Shutdown};
use std::os::fd::{AsFd, AsRawFd, OwnedFd};
use std::os::unix::fs::FileTypeExt;
use std::os::unix::net::{SocketAddr, UnixListener, UnixStream};
use std::rt::Files;
use std::sync::Arc;
use std::time::Duration;
use std::{fs, io, str};

/// Who may connect: the owner and the group of the socket's file.
const MODE: u32 = 0o660;

/// How many connections may wait until they are accepted: as many as the system allows.
const BACKLOG: i32 = -1;

/// How long an accept waits for a connection, in milliseconds. Then it fails, so that whoever accepts can look whether to
/// go on.
const ACCEPT_LIMIT: u64 = 1000;

/// How long a write waits until some of it is taken, in seconds.
const WRITE_LIMIT: u64 = 30;

/// The half of a connection that reads.
#[derive(Drop)]
pub struct Reads {
    stream: Arc<UnixStream>,
    faults: u64,
}

/// The half of a connection that writes. Where it is let go the connection ends both ways.
pub struct Writes {
    stream: Arc<UnixStream>,
    faults: u64,
}

impl Drop for Writes {
    fn drop(self) {
        let Self { stream, faults: _ } = self;
        let _ = stream.shutdown(Shutdown::Both);
    }
}

impl Source for Reads {
    ghost state = { λ reads. record { left = None; faults = reads.faults } };

    fn read(&mut self, buf: &mut [u8]) -> Result<usize, Failed> {
        match read_on(&mut &*self.stream, buf) {
            Ok(count) => Ok(count),
            Err(_) => {
                self.faults = self.faults.saturating_add(1);
                Err(Failed)
            }
        }
    }
}

// One write, tried again where a signal came between: one that stops the process and lets it go on does, since the write
// has a limit. A write that takes nothing is an error.
fn write_on(stream: &UnixStream, piece: &[u8]) -> io::Result<usize>
    ensures bound { WritesAtMost result piece.now }
    ensures some { IfOk result (λ count. 0 < length piece.now → 0 < count) }
{
    for _ in 0..u64::MAX {
        match (&mut &*stream).write(piece) {
            Ok(count) if count > 0 || piece.is_empty() => return Ok(count),
            Ok(_) => return Err(io::Error::from(ErrorKind::WriteZero)),
            Err(error) if error.kind() == ErrorKind::Interrupted => {}
            Err(error) => return Err(error),
        }
    }
    Err(io::Error::from(ErrorKind::TimedOut))
}

impl Sink for Writes {
    ghost state = { λ writes. record { contents = None; faults = writes.faults } };

    fn write(&mut self, piece: &[u8]) -> Result<usize, Failed> {
        match write_on(&self.stream, piece) {
            Ok(count) => Ok(count),
            Err(_) => {
                self.faults = self.faults.saturating_add(1);
                Err(Failed)
            }
        }
    }
}

/// A socket that is bound, and the path of its file.
#[derive(Drop)]
struct Bound {
    listener: UnixListener,
    path: String,
}

/// A socket of the system that connections come in at.
#[derive(Drop)]
pub struct Socket<'a, R> {
    rt: &'a R,
    bound: Option<Bound>,
    faults: u64,
}

impl<'a, R: Files + Net> Socket<'a, R> {
    /// A socket that isn't bound yet.
    pub fn new(rt: &'a R) -> Self {
        Socket {
            rt,
            bound: None,
            faults: 0,
        }
    }

    /// Removes the file of the socket, where it was bound.
    pub fn close(self) {
        let Socket { rt, bound, .. } = self;
        if let Some(bound) = bound {
            let _ = fs::remove_file(rt, bound.path.as_str());
        }
    }
}

fn checked(status: i32) -> io::Result<()> {
    if status != 0 {
        return Err(io::Error::from_raw_os_error(os::errno()));
    }
    Ok(())
}

// The file of a socket has the socket's own mode without the bits of the umask, so it is never open to more than `MODE`
// says.
fn bind_at<R: Files + Net>(rt: &R, path: &str) -> io::Result<UnixListener> {
    remove_stale(rt, path)?;
    let socket = UnixStream::from(rt.unix_socket()?);
    socket.set_read_timeout(Some(Duration::from_millis(ACCEPT_LIMIT)))?;
    checked(libc::fchmod(socket.as_raw_fd(), MODE))?;
    rt.bind_unix(socket.as_fd(), &SocketAddr::from_pathname(path)?)?;
    if let Err(error) = let_in(&socket, path) {
        let _ = fs::remove_file(rt, path);
        return Err(error);
    }
    Ok(UnixListener::from(OwnedFd::from(socket)))
}

// Gives the file the bits that the umask took, and listens.
fn let_in(socket: &UnixStream, path: &str) -> io::Result<()> {
    checked(os::chmod(path.as_bytes(), MODE))?;
    checked(libc::net::listen(socket.as_raw_fd(), BACKLOG))
}

fn is_socket<R: Files>(rt: &R, path: &str) -> io::Result<bool> {
    Ok(fs::symlink_metadata(rt, path)?.file_type().is_socket())
}

// Removes the file of a socket at which nobody listens any more. An error where somebody does.
fn remove_stale<R: Files + Net>(rt: &R, path: &str) -> io::Result<()> {
    match UnixStream::connect(rt, path) {
        Ok(_) => Err(io::Error::from(ErrorKind::AddrInUse)),
        Err(error) if error.kind() == ErrorKind::ConnectionRefused && is_socket(rt, path)? => {
            fs::remove_file(rt, path)
        }
        Err(_) => Ok(()),
    }
}

fn bound_at<R: Files + Net>(rt: &R, alloc: Global, path: &[u8]) -> Result<Bound, GetFault>
    ensures never_long { IsErrOf result GetFault.Long → ⊥ }
{
    let Ok(path) = str::from_utf8(path) else {
        return Err(GetFault::Failed);
    };
    let path = String::from_str(alloc, path)?;
    match bind_at(rt, path.as_str()) {
        Ok(listener) => Ok(Bound { listener, path }),
        Err(_) => Err(GetFault::Failed),
    }
}

fn halves(alloc: Global, stream: UnixStream) -> Result<(Reads, Writes), AllocError> {
    let reads = Arc::new(alloc, stream)?;
    let writes = Arc::try_clone(&reads)?;
    Ok((
        Reads {
            stream: reads,
            faults: 0,
        },
        Writes {
            stream: writes,
            faults: 0,
        },
    ))
}

fn accepted(alloc: Global, bound: &Option<Bound>) -> Result<(Reads, Writes), GetFault>
    ensures never_long { IsErrOf result GetFault.Long → ⊥ }
{
    let Some(bound) = bound else {
        return Err(GetFault::Failed);
    };
    let Ok((stream, _)) = bound.listener.accept() else {
        return Err(GetFault::Failed);
    };
    let limit = Duration::from_secs(WRITE_LIMIT);
    if stream.set_write_timeout(Some(limit)).is_err() {
        return Err(GetFault::Failed);
    }
    Ok(halves(alloc, stream)?)
}

impl<'a, R: Files + Net> Listen for Socket<'a, R> {
    type Source = Reads;

    type Sink = Writes;

    ghost state = { λ socket. record { left = None; faults = socket.faults } };

    /// The file of a socket at which nobody listens any more is replaced. It fails where somebody listens.
    fn bind(&mut self, alloc: Global, path: &[u8]) -> Result<(), GetFault> {
        match bound_at(self.rt, alloc, path) {
            Ok(bound) => {
                self.bound = Some(bound);
                Ok(())
            }
            Err(GetFault::NoMemory) => Err(GetFault::NoMemory),
            Err(_) => {
                self.faults = self.faults.saturating_add(1);
                Err(GetFault::Failed)
            }
        }
    }

    fn accept(&mut self, alloc: Global) -> Result<(Reads, Writes), GetFault> {
        let answer = accepted(alloc, &self.bound);
        if let Err(GetFault::Failed) = answer {
            self.faults = self.faults.saturating_add(1);
        }
        answer
    }
}
