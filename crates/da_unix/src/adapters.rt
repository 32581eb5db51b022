// The outside as the system has it: each adapter counts its faults. What its reader or writer tells of bytes, it tells.

ghost use Rattle.std.specs.Prelude.{None, IfOk, OnOk, ◌≡◌, ◌≤◌, ◌<◌, IsErrOf, vec_len};
ghost use Rattle.std.specs.Io.KnownBytes.{Consumes, IsAtEnd};
ghost use Rattle.da_outside.specs.Causes.{Rose};
ghost use Rattle.da_unix.specs.Reads.{HasMore};

use crate::limits::Unlimited;
use crate::patient::{Patient, Quiet, read_on};
use da_outside::{Failed, Files, GetFault, Sink, Source};
use std::alloc::Global;
use std::fs::{self, File};
use std::io::{self, ErrorKind, Read, Write};
use std::os::fd::AsRawFd;
use std::rt;

/// A reader as a source.
#[derive(Drop)]
pub struct Input<R> {
    reader: R,
    faults: u64,
}

impl<R: Read> Input<R> {
    /// What this reader gives.
    pub fn over(reader: R) -> Self {
        Input { reader, faults: 0 }
    }
}

impl<R: Read + AsRawFd> Input<Patient<R, Unlimited>> {
    /// An open file of the system, as standard input.
    pub fn new(reader: R) -> Self {
        let fd = reader.as_raw_fd();
        Input::over(Patient::new(reader, fd, Unlimited))
    }
}

impl<R: Read> Source for Input<R> {
    ghost state = { λ input. record { left = R.remaining input.reader; faults = input.faults } };

    fn read(&mut self, buf: &mut [u8]) -> Result<usize, Failed> {
        match self.reader.read(buf) {
            Ok(count) => Ok(count),
            Err(_) => {
                self.faults = self.faults.saturating_add(1);
                Err(Failed)
            }
        }
    }
}

/// A writer as a sink.
#[derive(Drop)]
pub struct Output<W> {
    writer: W,
    faults: u64,
}

impl<W: Write> Output<W> {
    /// What goes to this writer.
    pub fn over(writer: W) -> Self {
        Output { writer, faults: 0 }
    }

    fn fail(&mut self) -> Failed
        ensures rose { Rose self.old.faults self.new.faults }
        ensures later { self.old.faults ≤ self.new.faults }
        ensures writer { self.new.writer ≡ self.old.writer }
    {
        self.faults = self.faults.saturating_add(1);
        Failed
    }
}

impl Output<Patient<Quiet, Unlimited>> {
    /// An open file of the system by its number, as that of standard output. A pipe that nobody reads any more is a
    /// fault, and no signal.
    pub fn new(fd: i32) -> Self {
        Output::over(Patient::new(Quiet::new(fd), fd, Unlimited))
    }
}

impl<W: Write> Sink for Output<W> {
    ghost state = { λ output. record { contents = W.contents output.writer; faults = output.faults } };

    fn write(&mut self, piece: &[u8]) -> Result<usize, Failed> {
        match self.writer.write(piece) {
            Ok(count) if count > 0 || piece.is_empty() => Ok(count),
            Ok(_) => Err(self.fail()),
            Err(_) => Err(self.fail()),
        }
    }
}

/// All that this reader gives until its end. `Long` where that is more than `max` bytes, of which no more is read then
/// than a chunk.
pub fn read_whole<R: Read>(alloc: Global, file: &mut R, max: usize) -> Result<Vec<u8>, GetFault>
    ensures short { IfOk result (λ bytes. vec_len bytes ≤ max) }
    ensures whole { OnOk result (IsAtEnd (R.remaining file.new)) }
    ensures bytes { IfOk result (λ bytes.
        Consumes (R.remaining file.old) (R.remaining file.new) bytes.items) }
    ensures long { IsErrOf result GetFault.Long →
        HasMore max (R.remaining file.old) (R.remaining file.new) }
{
    let mut bytes = Vec::new(alloc);
    let mut chunk = [0; 4096];
    while bytes.len() <= max {
        match read_on(file, &mut chunk) {
            Ok(0) => return Ok(bytes),
            Ok(count) => bytes.extend_from_slice(&chunk[..count])?,
            Err(_) => return Err(GetFault::Failed),
        }
    }
    Err(GetFault::Long)
}

/// The files of the system. But for the one file that may come through a pipe, only a regular file is read, and nothing
/// else is opened, so that no read waits.
#[derive(Drop)]
pub struct Disk<'a, R> {
    rt: &'a R,
    piped: &'a [u8],
    faults: u64,
}

impl<'a, R: rt::Files> Disk<'a, R> {
    /// `piped` is the path of the file that may come through a pipe.
    pub fn new(rt: &'a R, piped: &'a [u8]) -> Self {
        Disk {
            rt,
            piped,
            faults: 0,
        }
    }

    fn open(&self, path: &str) -> io::Result<R::File> {
        if path.as_bytes() != self.piped && !fs::metadata(self.rt, path)?.is_file() {
            return Err(io::Error::from(ErrorKind::InvalidInput));
        }
        File::open(self.rt, path)
    }

    fn look(&self, alloc: Global, path: &[u8], max: usize) -> Result<Vec<u8>, GetFault>
        ensures { IfOk result (λ bytes. vec_len bytes ≤ max) }
    {
        let Ok(path) = str::from_utf8(path) else {
            return Err(GetFault::Failed);
        };
        match self.open(path) {
            Ok(mut file) => read_whole(alloc, &mut file, max),
            Err(_) => Err(GetFault::Failed),
        }
    }
}

impl<'a, R: rt::Files> Files for Disk<'a, R> {
    ghost state = { λ disk. record { held = None; past = None; faults = disk.faults } };

    fn read(&mut self, alloc: Global, path: &[u8], max: usize) -> Result<Vec<u8>, GetFault> {
        let answer = self.look(alloc, path, max);
        if let Err(GetFault::Failed) = answer {
            self.faults = self.faults.saturating_add(1);
        }
        answer
    }
}
