// Queries to check a password, which a program does.

use crate::service::{Job, answers_of, bytes_of, worked};
use da_outside::{Bytes, Exit, MemRunner, MemSpawner};
use std::alloc::Global;
use std::process::Abort;
use std::sync::Wait;

// A client with two requests, alice's and bob's. The history is full once their queries are taken and answered.
const JOB: Job<'static> = Job {
    settings: b"failure_delay = 0\nhistory_entries = 9\n[[passdb]]\ndriver = \"checkpassword\"\nargs = \"/bin/check\"\n",
    lines: &[
        b"VERSION\t1\t1",
        b"CPID\t7",
        b"AUTH\t1\tPLAIN\tservice=imap\tresp=AGFsaWNlAHB3",
        b"AUTH\t2\tPLAIN\tservice=imap\tresp=AGJvYgBwdw==",
    ],
    skipped: 0,
};

fn exit_of<R: Abort>(rt: &R, alloc: Global, status: u32, reply: &[u8]) -> Exit {
    Exit {
        status,
        reply: Bytes::new(bytes_of(rt, alloc, reply)),
    }
}

// A runner that gives this exit, and then status 1. It fails at this of its calls, counted from 1; 0 for none.
fn runner_of<R: Abort>(rt: &R, alloc: Global, status: u32, reply: &[u8], fails: u64) -> MemRunner {
    let mut exits = Vec::new(alloc);
    exits
        .push(exit_of(rt, alloc, status, reply))
        .expect(rt, "memory");
    exits.push(exit_of(rt, alloc, 1, b"")).expect(rt, "memory");
    let fail = Vec::from_slice(alloc, &[fails]).expect(rt, "memory");
    MemRunner::new(alloc, exits, fail)
}

// The history of a worker over this runner, and a spawner that starts no link.
fn history_of<R: Wait + Abort>(rt: &R, alloc: Global, runner: &mut MemRunner) -> Vec<u8> {
    let mut spawner = MemSpawner::new(alloc, Vec::new(alloc), Vec::new(alloc));
    worked(rt, alloc, &JOB, &mut spawner, runner)
}

// Whether two runs were made, the first of them for alice.
fn were_run(runner: &MemRunner) -> bool {
    let Some((first, others)) = runner.past().split_first() else {
        return false;
    };
    others.len() == 1
        && first.program.bytes() == b"/bin/check".as_slice()
        && first.input.bytes() == b"alice\0pw\0\0".as_slice()
}

// Whether this is the answer to alice's query, and the next is that bob's password is wrong.
fn is_answer<R: Wait + Abort>(rt: &R, alloc: Global, runner: &mut MemRunner, one: &[u8]) -> bool {
    let history = history_of(rt, alloc, runner);
    let wanted = answers_of(rt, alloc, one, b"MISMATCH\t2");
    history.ends_with(&wanted)
}

fn means<R: Wait + Abort>(
    rt: &R,
    alloc: Global,
    status: u32,
    reply: &[u8],
    fails: u64,
    one: &[u8],
) -> bool {
    let mut runner = runner_of(rt, alloc, status, reply, fails);
    is_answer(rt, alloc, &mut runner, one) && were_run(&runner)
}

#[test]
fn the_end_of_a_program_is_the_answer(rt: HostRuntime) {
    let home = b"PASSED\t1\tuserdb_home=/h";
    assert!(rt; means(&rt, rt.alloc(), 0, b"userdb_home=/h\n", 0, home));
    assert!(rt; means(&rt, rt.alloc(), 0, b"", 0, b"INTERNAL\t1\tmalformed"));
    assert!(rt; means(&rt, rt.alloc(), 1, b"", 0, b"MISMATCH\t1"));
    assert!(rt; means(&rt, rt.alloc(), 2, b"", 0, b"INTERNAL\t1\texit\t2"));
    assert!(rt; means(&rt, rt.alloc(), 3, b"", 0, b"UNKNOWN\t1"));
    assert!(rt; means(&rt, rt.alloc(), 111, b"", 0, b"INTERNAL\t1\texit\t111"));
}

#[test]
fn a_run_that_fails_is_dead_and_the_next_check_is_run(rt: HostRuntime) {
    assert!(rt; means(&rt, rt.alloc(), 1, b"", 1, b"INTERNAL\t1\tdied"));
}
