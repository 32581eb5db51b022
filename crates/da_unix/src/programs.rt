// Checkpassword programs, each run by the shell.

ghost use Rattle.std.specs.Prelude.{◌≡◌, ◌≤◌, None, IfOk, IfSome, IsErrOf, OnOk, pos, vec_len, length};
ghost use Rattle.std.specs.Io.KnownBytes.{IsAtEnd};
ghost use Rattle.std.specs.Process.{exit_code};
ghost use Rattle.da_unix.specs.Reads.{IsFrontOfAll, WritesFront};

use crate::children::{Started, Starts, fault_of, start};
use crate::limits::{Deadline, Limit};
use crate::patient::{Patient, Quiet, read_on};
use da_outside::{Bytes, Exit, GetFault, Runner};
use std::alloc::{AllocError, Global};
use std::io::{self, ErrorKind, PipeReader, PipeWriter, Read, Write};
use std::os::fd::AsRawFd;
use std::process::{Command, ExitStatus};
use std::str;

/// What the shell runs for a program, which is its `$0`. The program has its input on descriptor 3 and replies on
/// descriptor 4; its own standard output goes to standard error. A program to which the password is right runs its
/// arguments, which reply with the home that it has set.
const SCRIPT: &str = "exec 3<&0 4>&1 0</dev/null 1>&2; \
exec \"$0\" sh -c 'printf \"userdb_home=%s\\n\" \"$HOME\" >&4'";

/// The status of a program that ended without one, as by a signal.
const NO_STATUS: u32 = 256;

/// The longest reply that is kept, in bytes.
const LONGEST_REPLY: usize = 8194;

/// The programs of the system. The input is written before the reply is read, so it has to fit a pipe. A run fails where
/// the path is no text, the shell can't be started, its pipes or its end fail, or it isn't over within the limit; then no
/// child is left.
#[derive(Drop)]
pub struct Programs<'a, R> {
    rt: &'a R,
    limit: u64,
    faults: u64,
}

impl<'a, R: Starts> Programs<'a, R> {
    /// Each run may take so many milliseconds.
    pub fn new(rt: &'a R, limit: u64) -> Self {
        Programs {
            rt,
            limit,
            faults: 0,
        }
    }
}

impl<'a, R: Starts> Runner for Programs<'a, R> {
    ghost state = { λ programs. record { left = None; past = None; faults = programs.faults } };

    fn run(&mut self, alloc: Global, program: &[u8], input: &[u8]) -> Result<Exit, GetFault> {
        let answer = run_program(self.rt, alloc, self.limit, program, input);
        if let Err(GetFault::Failed) = answer {
            self.faults = self.faults.saturating_add(1);
        }
        answer
    }
}

fn run_program<R: Starts>(
    rt: &R,
    alloc: Global,
    limit: u64,
    program: &[u8],
    input: &[u8],
) -> Result<Exit, GetFault>
    ensures short { IfOk result (λ exit. length exit.reply ≤ 8194) }
    ensures never_long { IsErrOf result GetFault.Long → ⊥ }
{
    let deadline = Deadline::after(rt, limit).map_err(fault_of)?;
    let Started {
        mut running,
        to,
        from,
    } = start_program(rt, alloc, program)?;
    let reply = Bytes::new(talk(alloc, to, from, input, &deadline)?);
    let status = running.wait(&deadline).map_err(fault_of)?;
    Ok(Exit {
        status: number_of(status),
        reply,
    })
}

fn start_program<'a, R: Starts>(
    rt: &'a R,
    alloc: Global,
    program: &[u8],
) -> Result<Started<'a, R>, GetFault>
    ensures never_long { IsErrOf result GetFault.Long → ⊥ }
{
    let Ok(program) = str::from_utf8(program) else {
        return Err(GetFault::Failed);
    };
    let mut command = shell(alloc, program)?;
    start(rt, alloc, &mut command).map_err(fault_of)
}

fn shell(alloc: Global, program: &str) -> Result<Command, AllocError> {
    let mut command = Command::new(alloc, "sh")?;
    command.arg("-c")?.arg(SCRIPT)?.arg(program)?;
    Ok(command)
}

// Tells the program its input, and gives its reply. Both pipes are closed then.
fn talk<L: Limit>(
    alloc: Global,
    to: PipeWriter,
    from: PipeReader,
    input: &[u8],
    limit: &L,
) -> Result<Vec<u8>, GetFault>
    ensures short { IfOk result (λ reply. vec_len reply ≤ 8194) }
    ensures never_long { IsErrOf result GetFault.Long → ⊥ }
{
    let fd = to.as_raw_fd();
    tell(&mut Patient::new(Quiet::new(fd), fd, limit), input)?;
    drop(to);
    let fd = from.as_raw_fd();
    hear(alloc, &mut Patient::new(from, fd, limit))
}

// Writes the input. A program that ends without having read all of it is no fault.
fn tell<W: Write>(to: &mut W, input: &[u8]) -> Result<(), GetFault>
    ensures front { WritesFront (W.contents to.old) (W.contents to.new) input.now }
    ensures never_long { IsErrOf result GetFault.Long → ⊥ }
{
    let mut rest = input;
    while !rest.is_empty() {
        match to.write(rest) {
            Ok(0) => return Err(GetFault::Failed),
            Ok(count) => rest = &rest[count..],
            Err(error) if error.kind() == ErrorKind::BrokenPipe => return Ok(()),
            Err(error) => return Err(fault_of(error)),
        }
    }
    Ok(())
}

// The front of what comes. All of it is read, so that no program waits for a reader.
fn hear<R: Read>(alloc: Global, from: &mut R) -> Result<Vec<u8>, GetFault>
    ensures short { IfOk result (λ reply. vec_len reply ≤ 8194) }
    ensures whole { OnOk result (IsAtEnd (R.remaining from.new)) }
    ensures bytes { IfOk result (λ reply.
        IsFrontOfAll (R.remaining from.old) (R.remaining from.new) reply.items) }
    ensures never_long { IsErrOf result GetFault.Long → ⊥ }
{
    let mut reply = Vec::new(alloc);
    let mut chunk = [0; 4096];
    for _ in 0..u64::MAX {
        match read_on(from, &mut chunk) {
            Ok(0) => return Ok(reply),
            Ok(count) => {
                let kept = count.min(LONGEST_REPLY - reply.len());
                reply.extend_from_slice(&chunk[..kept])?;
            }
            Err(error) => return Err(fault_of(error)),
        }
    }
    Err(GetFault::Failed)
}

// A signal has no status, and that is none that a program could end with.
fn number_of(status: ExitStatus) -> u32
    ensures code { IfSome (exit_code status) (λ code. pos result ≡ code) }
    ensures signal { exit_code status ≡ None → result ≡ 256 }
{
    match status.code() {
        Some(code) => code.unsigned_abs(),
        None => NO_STATUS,
    }
}
