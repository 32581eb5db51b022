use crate::memory::bytes_of;
use da_child::*;
use da_fields::{Answer, Why};
use da_outside::{Bytes, Exit, MemRunner};
use std::alloc::Global;
use std::process::Abort;

// A status, a reply, and the answer that they mean by its first letter: Passed, Wrong, Unknown, malFormed, Exit.
const ENDS: &[(u32, &[u8], u8)] = &[
    (0, b"userdb_home=/h\n", b'P'),
    (0, b"\n", b'P'),
    (0, b"", b'F'),
    (0, b"a=b", b'F'),
    (0, b"a=b\nc=d\n", b'F'),
    (0, b"a\ta\n", b'F'),
    (0, b"=b\n", b'F'),
    (1, b"a=b\n", b'W'),
    (3, b"", b'U'),
    (2, b"", b'E'),
    (111, b"a=b\n", b'E'),
    (256, b"", b'E'),
];

fn letter(answer: &Answer) -> u8 {
    match answer {
        Answer::Passed { .. } => b'P',
        Answer::Mismatch => b'W',
        Answer::Unknown => b'U',
        Answer::Found { .. } => b'?',
        Answer::Internal(Why::Malformed) => b'F',
        Answer::Internal(Why::Exit(_)) => b'E',
        Answer::Internal(_) => b'D',
    }
}

fn runner<R: Abort>(rt: &R, alloc: Global, status: u32, reply: &[u8]) -> MemRunner {
    let reply = Bytes::new(bytes_of(rt, alloc, reply));
    let mut exits = Vec::new(alloc);
    exits.push(Exit { status, reply }).expect(rt, "memory");
    MemRunner::new(alloc, exits, Vec::new(alloc))
}

fn means<R: Abort>(rt: &R, alloc: Global, status: u32, reply: &[u8], wanted: u8) -> bool {
    let mut runner = runner(rt, alloc, status, reply);
    let answer = check(alloc, &mut runner, b"program", b"alice", b"pw").expect(rt, "memory");
    letter(&answer) == wanted
}

#[test]
fn an_end_means_its_answer(rt: HostRuntime) {
    for (status, reply, wanted) in ENDS {
        assert!(rt; means(&rt, rt.alloc(), *status, reply, *wanted));
    }
}

// A runner that was told this name and this password.
fn told<R: Abort>(rt: &R, alloc: Global, user: &[u8], password: &[u8]) -> MemRunner {
    let mut runner = runner(rt, alloc, 1, b"");
    let _ = check(alloc, &mut runner, b"program", user, password).expect(rt, "memory");
    runner
}

#[test]
fn the_program_is_told_the_name_and_the_password(rt: HostRuntime) {
    let runner = told(&rt, rt.alloc(), b"alice", b"pw");
    let Some(run) = runner.past().first() else {
        panic!(rt; "no run");
    };
    assert!(rt; run.program.bytes() == b"program".as_slice());
    assert!(rt; run.input.bytes() == b"alice\0pw\0\0".as_slice());
}

// How many runs are made for a name and a password.
fn runs<R: Abort>(rt: &R, alloc: Global, user: &[u8], password: &[u8]) -> usize {
    told(rt, alloc, user, password).past().len()
}

#[test]
fn what_cannot_be_told_is_not_run(rt: HostRuntime) {
    let long = [b'a'; 510];
    assert!(rt; runs(&rt, rt.alloc(), b"a\0b", b"pw") == 0);
    assert!(rt; runs(&rt, rt.alloc(), b"alice", b"p\0w") == 0);
    assert!(rt; runs(&rt, rt.alloc(), b"", &long) == 0);
    assert!(rt; runs(&rt, rt.alloc(), b"", &long[..509]) == 1);
}
