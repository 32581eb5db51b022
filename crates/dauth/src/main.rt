//! The program: it gives the words, the files and the standard streams of the system to the command that the words name,
//! and ends with the code of the command's status, whose words stand on standard error.
#![tactic(auto)]

mod complaints;
#[cfg(test)]
mod tests;
mod usage;

ghost use Rattle.std.specs.Prelude.{◌≡◌};
ghost use Rattle.std.specs.Process.{exit_status};
ghost use Rattle.da_command.specs.Statuses.{status_code};

use complaints::{complain, tell};
use da_app::{Command, Status, command, run_check, run_drive, run_pw, run_serve, run_worker};
use da_outside::{Sink, Source};
use da_unix::{Disk, Input, Nap, Now, Output, QueryLimit, Random, SettingsFiles, Socket, Staff};
use std::alloc::Global;
use std::os::fd::AsRawFd;
use std::process::ExitCode;
use std::random::RandomSource;
use std::rt::{Env, Files};
use std::{env, io};

/// The exit code where the program can't begin its work.
const CANNOT_START: u8 = 70;

/// The arguments after the program's name.
fn words<R: Env + AllocGlobal>(rt: &R) -> io::Result<Vec<String>> {
    let mut words = env::args(rt)?;
    let _name = words.next();
    Ok(words.collect(rt.alloc())?)
}

/// The word after a command's name, which of those that read settings is the path of these.
fn path(words: &[String]) -> &[u8] {
    match words {
        [_, path, ..] => path.as_bytes(),
        _ => b"",
    }
}

/// Makes the call of the command that the words name. An error where the random source can't be had.
fn run<R: Files + RandomSource, S: Source, K: Sink>(
    rt: &R,
    alloc: Global,
    words: &[String],
    input: &mut S,
    output: &mut K,
) -> io::Result<Status> {
    let mut files = Disk::new(rt, path(words));
    match command(words) {
        Some(Command::Check) => Ok(run_check(alloc, words, &mut files, output)),
        Some(Command::Worker) => Ok(run_worker(alloc, words, &mut files, input, output)),
        Some(Command::Pw) => {
            let mut rand = Random::new(rt)?;
            Ok(run_pw(alloc, words, input, output, &mut rand))
        }
        Some(Command::Drive | Command::Serve) | None => {
            Ok(run_drive(alloc, words, &mut files, input, output))
        }
    }
}

/// Runs a command that needs no threads.
fn start(rt: &HostRuntime, words: &[String]) -> io::Result<Status> {
    let mut input = Input::new(rt.stdin());
    let mut output = Output::new(rt.stdout().as_raw_fd());
    run(rt, rt.alloc(), words, &mut input, &mut output)
}

fn end(status: &Status) -> ExitCode
    ensures { exit_status result ≡ status_code status.now }
{
    ExitCode::from(status.code())
}

/// Tells a status, and ends with its code.
fn told_end<K: Sink>(alloc: Global, errors: &mut K, status: &Status) -> ExitCode
    ensures { exit_status result ≡ status_code status.now }
{
    tell(alloc, errors, status);
    end(status)
}

/// The end where the program can't begin its work, which it tells.
fn cannot_start<K: Sink>(errors: &mut K) -> ExitCode {
    let _ = complain(errors, b"cannot start");
    ExitCode::from(CANNOT_START)
}

fn main(rt: HostRuntime) -> ExitCode {
    let alloc = rt.alloc();
    let mut errors = Output::new(rt.stderr().as_raw_fd());
    let Ok(words) = words(&rt) else {
        return cannot_start(&mut errors);
    };
    let Some(Command::Serve) = command(&words) else {
        return match start(&rt, &words) {
            Ok(status) => told_end(alloc, &mut errors, &status),
            Err(_) => cannot_start(&mut errors),
        };
    };
    let Ok(mut rand) = Random::new(&rt) else {
        return cannot_start(&mut errors);
    };
    let limit = QueryLimit::new();
    let mut clients = Socket::new(&rt);
    let mut masters = Socket::new(&rt);
    // `main` alone may hand on the leave to start threads.
    let status = run_serve(
        &rt,
        alloc,
        &words,
        &mut SettingsFiles::of_disk(&rt, path(&words), &limit),
        &mut clients,
        &mut masters,
        &mut Staff::new(&rt, &limit),
        &Now::new(&rt),
        &mut rand,
        &Nap::new(&rt),
        &mut Output::new(rt.stdout().as_raw_fd()),
    );
    clients.close();
    masters.close();
    told_end(alloc, &mut errors, &status)
}
