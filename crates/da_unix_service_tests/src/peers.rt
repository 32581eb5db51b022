// The other ends of the service's sockets, for tests. None waits longer than a limit.

use std::alloc::Global;
use std::io::{self, ErrorKind, Read, Write};
use std::net::{Net, Shutdown};
use std::os::unix::net::UnixStream;
use std::thread;
use std::time::{Clock, Duration};

/// How long a peer waits for what it is sent, in seconds.
const LIMIT: u64 = 10;

/// How often a peer tries to connect.
const TRIES: u32 = 500;

/// The rest between two tries, in milliseconds.
const REST: u64 = 10;

/// The longest text that a peer hears, in bytes.
const LONGEST: usize = 65_536;

/// A connection to the service, and what came over it.
#[derive(Drop)]
pub struct Peer {
    stream: UnixStream,
    got: Vec<u8>,
}

impl Peer {
    /// Connects once somebody listens.
    pub fn connect<R: Net + Clock>(rt: &R, alloc: Global, path: &str) -> io::Result<Peer> {
        let stream = connected(rt, path)?;
        stream.set_read_timeout(Some(Duration::from_secs(LIMIT)))?;
        Ok(Peer {
            stream,
            got: Vec::new(alloc),
        })
    }

    /// Sends this text.
    pub fn say(&self, text: &[u8]) -> io::Result<()> {
        (&mut &self.stream).write_all(text)
    }

    /// Takes so many lines more. An error where fewer come.
    pub fn hear(&mut self, lines: usize) -> io::Result<()> {
        for _ in 0..lines {
            self.hear_line()?;
        }
        Ok(())
    }

    fn hear_line(&mut self) -> io::Result<()> {
        for _ in 0..LONGEST {
            match self.hear_byte()? {
                Some(b'\n') => return Ok(()),
                Some(_) => {}
                None => return Err(io::Error::from(ErrorKind::UnexpectedEof)),
            }
        }
        Err(io::Error::from(ErrorKind::InvalidData))
    }

    fn hear_byte(&mut self) -> io::Result<Option<u8>> {
        let mut byte = [0; 1];
        if (&mut &self.stream).read(&mut byte)? == 0 {
            return Ok(None);
        }
        self.got.push(byte[0])?;
        Ok(Some(byte[0]))
    }

    /// Ends what it sends, and takes what comes until the other end does so, too.
    pub fn leave(&mut self) -> io::Result<()> {
        self.stream.shutdown(Shutdown::Write)?;
        self.hear_end()
    }

    /// Takes what comes until the other end has ended.
    pub fn hear_end(&mut self) -> io::Result<()> {
        for _ in 0..LONGEST {
            if self.hear_byte()?.is_none() {
                return Ok(());
            }
        }
        Err(io::Error::from(ErrorKind::InvalidData))
    }

    /// What came so far.
    pub fn got(&self) -> &[u8] {
        &self.got
    }

    /// Ends the connection at once. What came until then.
    pub fn abandon(self) -> Vec<u8> {
        let Peer { stream, got } = self;
        drop(stream);
        got
    }
}

fn connected<R: Net + Clock>(rt: &R, path: &str) -> io::Result<UnixStream> {
    for _ in 0..TRIES {
        if let Ok(stream) = UnixStream::connect(rt, path) {
            return Ok(stream);
        }
        thread::sleep(rt, Duration::from_millis(REST));
    }
    UnixStream::connect(rt, path)
}

/// A client that has been greeted, and has told its number as a process.
pub fn client<R: Net + Clock>(
    rt: &R,
    alloc: Global,
    path: &str,
    process: &[u8],
) -> io::Result<Peer> {
    let mut client = Peer::connect(rt, alloc, path)?;
    client.hear(6)?;
    client.say(b"VERSION\t1\t1\nCPID\t")?;
    client.say(process)?;
    client.say(b"\n")?;
    Ok(client)
}

/// Connects so often to this socket and leaves, so that a service whose peers failed meets its goal.
pub fn come_and_go<R: Net>(rt: &R, path: &str, times: u32) {
    for _ in 0..times {
        let _ = UnixStream::connect(rt, path);
    }
}
