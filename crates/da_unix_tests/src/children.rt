// Programs and workers that do what they should not. None costs more than its limit, and none is left.

use da_outside::{Exit, GetFault, Link, Runner, Spawner};
use da_unix::{Programs, Starts, Workers};
use std::alloc::Global;
use std::fs::{self, Permissions};
use std::io;
use std::os::unix::fs::PermissionsExt;
use std::rt::Files;
use std::test::Fail;
use std::time::Clock;

// So many milliseconds may a program and a worker take that do as they should.
const LIMIT: u64 = 20_000;

// And so many those that don't.
const SHORT: u64 = 200;

// A program at this path, which is a script of the shell.
fn write_program<R: Files>(rt: &R, alloc: Global, path: &str, script: &str) -> io::Result<()> {
    let mut text = String::from_str(alloc, "#!/bin/sh\n")?;
    text.push_str(script)?;
    fs::write(rt, path, text.as_str())?;
    fs::set_permissions(rt, path, Permissions::from_mode(0o755))
}

fn ran<R: Starts>(rt: &R, alloc: Global, limit: u64, program: &str) -> Result<Exit, GetFault> {
    let mut programs = Programs::new(rt, limit);
    programs.run(alloc, program.as_bytes(), b"alice\0pw\0\0")
}

fn is_exit(exit: &Result<Exit, GetFault>, status: u32, reply: &[u8]) -> bool {
    match exit {
        Ok(exit) => exit.status == status && exit.reply.bytes() == reply,
        Err(_) => false,
    }
}

// The children that this process hasn't waited for.
fn left(rt: &HostRuntime) -> io::Result<String> {
    fs::read_to_string(rt, "/proc/thread-self/children")
}

#[test]
fn a_signal_is_no_status(rt: HostRuntime) -> Result<(), Fail> {
    write_program(
        &rt,
        rt.alloc(),
        "./killed",
        "printf 'x=1\\n' >&4\nkill -KILL $$\n",
    )?;
    let exit = ran(&rt, rt.alloc(), LIMIT, "./killed");
    assert!(rt; is_exit(&exit, 256, b"x=1\n"));
    Ok(())
}

#[test]
fn a_program_has_no_environment_but_path(rt: HostRuntime) -> Result<(), Fail> {
    // `env` runs its arguments with the environment that it was given
    let exit = ran(&rt, rt.alloc(), LIMIT, "env");
    assert!(rt; is_exit(&exit, 0, b"userdb_home=\n"));
    write_program(
        &rt,
        rt.alloc(),
        "./tells",
        "printf '%s\\n' \"$LANG$TMPDIR${PATH:+path}\" >&4\n",
    )?;
    let exit = ran(&rt, rt.alloc(), LIMIT, "./tells");
    assert!(rt; is_exit(&exit, 0, b"path\n"));
    Ok(())
}

const HOSTILE_PROGRAMS: [&str; 5] = [
    // hangs
    "exec sleep 60\n",
    // writes without end
    "exec yes >&4\n",
    // leaves a process behind that keeps its output open
    "sleep 3 &\nexit 0\n",
    // closes its pipes, and hangs
    "exec 3<&- 4>&-\nexec sleep 60\n",
    // can't be ended by less than SIGKILL
    "trap '' TERM INT HUP\nwhile :; do :; done\n",
];

// Whether the run failed in time.
fn fails_in_time<R: Starts>(rt: &R, alloc: Global, script: &str) -> Result<bool, Fail> {
    write_program(rt, alloc, "./hostile", script)?;
    let begin = rt.monotonic()?;
    let exit = ran(rt, alloc, SHORT, "./hostile");
    let took = rt.monotonic()?.saturating_sub(begin);
    Ok(matches!(exit, Err(GetFault::Failed)) && took.as_millis() < 2500)
}

#[test]
fn a_hostile_program_costs_its_limit(rt: HostRuntime) -> Result<(), Fail> {
    for script in HOSTILE_PROGRAMS {
        assert!(rt; fails_in_time(&rt, rt.alloc(), script)?);
    }
    assert_eq!(rt; left(&rt)?.as_str(), "");
    Ok(())
}

fn words(alloc: Global, script: &str) -> Result<Vec<Vec<u8>>, Fail> {
    let mut words = Vec::new(alloc);
    for word in ["sh", "-c", script] {
        words.push(Vec::from_slice(alloc, word.as_bytes())?)?;
    }
    Ok(words)
}

// Whether a worker takes the line and answers this; no answer is a fault.
fn answers<R: Starts>(
    workers: &mut Workers<'_, R>,
    alloc: Global,
    script: &str,
    line: &[u8],
    answer: Option<&[u8]>,
) -> Result<bool, Fail> {
    let Ok(mut link) = workers.start(alloc, &words(alloc, script)?) else {
        return Ok(false);
    };
    let sent = link.send(line);
    let received = link.receive(alloc);
    workers.finish(link);
    Ok(match (received, answer) {
        (Ok(received), Some(answer)) => sent.is_ok() && received.as_slice() == answer,
        (Err(GetFault::Failed), None) => true,
        _ => false,
    })
}

#[test]
fn a_worker_answers_a_whole_line_or_has_failed(rt: HostRuntime) -> Result<(), Fail> {
    let mut workers = Workers::new(&rt, LIMIT);
    let cases: [(&str, Option<&[u8]>); 4] = [
        ("read line; printf 'FOUND\\t5\\t{PLAIN}'", None),
        (
            "read line; printf 'FOUND'; sleep 0.1; printf '\\t5\\n'",
            Some(b"FOUND\t5"),
        ),
        ("read line; exit 0", None),
        ("exec cat", Some(b"PASS\t5\t1\talice")),
    ];
    for (script, answer) in cases {
        assert!(rt;
            answers(
                &mut workers,
                rt.alloc(),
                script,
                b"PASS\t5\t1\talice",
                answer
            )?
        );
    }
    assert_eq!(rt; left(&rt)?.as_str(), "");
    Ok(())
}

#[test]
fn a_worker_that_takes_its_time_is_waited_for(rt: HostRuntime) -> Result<(), Fail> {
    let mut workers = Workers::new(&rt, LIMIT);
    // longer than a pipe holds
    let line = [b'a'; 70_000];
    let script = "sleep 0.2; head -c 70000 >/dev/null; echo done";
    assert!(rt; answers(&mut workers, rt.alloc(), script, &line, Some(b"done"))?);
    Ok(())
}

#[test]
fn a_hostile_worker_costs_its_limit(rt: HostRuntime) -> Result<(), Fail> {
    let mut workers = Workers::new(&rt, SHORT);
    let line = [b'a'; 70_000];
    let scripts = [
        "exec sleep 60",
        "exec 0<&- 1>&-; exec sleep 60",
        "while :; do printf a; sleep 0.01; done",
    ];
    for script in scripts {
        let begin = rt.monotonic()?;
        assert!(rt; answers(&mut workers, rt.alloc(), script, &line, None)?);
        let took = rt.monotonic()?.saturating_sub(begin);
        assert!(rt; took.as_millis() < 2500);
    }
    assert_eq!(rt; left(&rt)?.as_str(), "");
    Ok(())
}

#[test]
fn a_link_that_is_let_go_is_ended(rt: HostRuntime) -> Result<(), Fail> {
    let mut workers = Workers::new(&rt, LIMIT);
    let link = workers.start(rt.alloc(), &words(rt.alloc(), "exec sleep 60")?);
    assert!(rt; link.is_ok());
    drop(link);
    assert_eq!(rt; left(&rt)?.as_str(), "");
    Ok(())
}
