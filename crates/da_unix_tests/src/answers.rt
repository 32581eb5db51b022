// Programs and workers of the system that do as they should.

use da_child::check;
use da_fields::{Answer, Why};
use da_outside::{Link, Spawner};
use da_unix::{Programs, Starts, Workers};
use std::alloc::{AllocError, Global};
use std::test::Fail;
use std::{fs, io};

// So many milliseconds may a program and a worker take.
const LIMIT: u64 = 10_000;

// A program that sets the user's home, and then runs its arguments.
const SETS_HOME: &[u8] =
    b"cat <&3 >/dev/null\nHOME=/home/alice\nexport HOME\nexec /bin/sh \"$@\"\n";

fn answer_of<R: Starts>(
    alloc: Global,
    programs: &mut Programs<'_, R>,
    program: &[u8],
) -> Result<Answer, AllocError> {
    check(alloc, programs, program, b"alice", b"pw")
}

// Whether a login passed with this one field.
fn has_passed_with(answer: &Answer, key: &[u8], value: &[u8]) -> bool {
    match answer {
        Answer::Passed { fields } => fields.pairs().len() == 1 && fields.get(key) == Some(value),
        _ => false,
    }
}

#[test]
fn a_program_says_whether_the_password_is_right(rt: HostRuntime) -> Result<(), Fail> {
    let alloc = rt.alloc();
    fs::write(&rt, "sh", SETS_HOME)?;
    let mut programs = Programs::new(&rt, LIMIT);
    // Its option is none of `cat`.
    let wrong = answer_of(alloc, &mut programs, b"cat")?;
    assert!(rt; matches!(wrong, Answer::Mismatch));
    let silent = answer_of(alloc, &mut programs, b"echo")?;
    assert!(rt; matches!(silent, Answer::Internal(Why::Malformed)));
    let right = answer_of(alloc, &mut programs, b"sh")?;
    fs::remove_file(&rt, "sh")?;
    assert!(rt; has_passed_with(&right, b"userdb_home", b"/home/alice"));
    Ok(())
}

// How many descriptors this process has open, and the children that it hasn't waited for.
fn left_open(rt: &HostRuntime) -> io::Result<(usize, String)> {
    let descriptors = fs::read_dir(rt, "/proc/self/fd")?.count();
    let children = fs::read_to_string(rt, "/proc/thread-self/children")?;
    Ok((descriptors, children))
}

#[test]
fn a_thousand_programs_leave_nothing(rt: HostRuntime) -> Result<(), Fail> {
    let before = left_open(&rt)?;
    let mut programs = Programs::new(&rt, LIMIT);
    for _ in 0..1000 {
        let silent = answer_of(rt.alloc(), &mut programs, b"true")?;
        assert!(rt; matches!(silent, Answer::Internal(Why::Malformed)));
    }
    let after = left_open(&rt)?;
    assert_eq!(rt; after.0, before.0);
    assert_eq!(rt; after.1.as_str(), "");
    Ok(())
}

// Whether a worker that the command starts answers this line with the same line.
fn is_repeated<R: Starts>(
    alloc: Global,
    workers: &mut Workers<'_, R>,
    command: &[Vec<u8>],
    line: &[u8],
) -> bool {
    let Ok(mut link) = workers.start(alloc, command) else {
        return false;
    };
    let sent = link.send(line);
    let answer = link.receive(alloc);
    workers.finish(link);
    let Ok(answer) = answer else {
        return false;
    };
    sent.is_ok() && answer.as_slice() == line
}

#[test]
fn a_worker_is_sent_a_line_and_answers(rt: HostRuntime) -> Result<(), Fail> {
    let alloc = rt.alloc();
    let mut workers = Workers::new(&rt, LIMIT);
    let cat = vec![in alloc; Vec::from_slice(alloc, b"cat")?]?;
    let query = b"PASS\t1\t1\talice".as_slice();
    assert!(rt; is_repeated(alloc, &mut workers, &cat, query));
    assert!(rt; !is_repeated(alloc, &mut workers, &[], query));
    Ok(())
}
