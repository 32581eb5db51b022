// What is recorded of what a worker says, or doesn't.

ghost use Rattle.da_outside.specs.Spawner.{IsUnused};

use crate::service::{Job, answers_of, bytes_of, worked};
use da_outside::{MemLink, MemRunner, MemSpawner};
use std::alloc::Global;
use std::process::Abort;
use std::sync::Wait;

// A client whose fifth and sixth requests are alice's and bob's. The history is full once both are taken and answered.
const JOB: Job<'static> = Job {
    settings: b"failure_delay = 0\nhistory_entries = 17\n",
    lines: &[
        b"VERSION\t1\t1",
        b"CPID\t7",
        b"AUTH\t1\tPLAIN\tservice=imap\tresp=AGFsaWNlAHB3",
        b"AUTH\t2\tPLAIN\tservice=imap\tresp=AGFsaWNlAHB3",
        b"AUTH\t3\tPLAIN\tservice=imap\tresp=AGFsaWNlAHB3",
        b"AUTH\t4\tPLAIN\tservice=imap\tresp=AGFsaWNlAHB3",
        b"AUTH\t5\tPLAIN\tservice=imap\tresp=AGFsaWNlAHB3",
        b"AUTH\t6\tPLAIN\tservice=imap\tresp=AGJvYgBwdw==",
    ],
    skipped: 4,
};

/// What comes in over the first link, and which calls fail, counted from 1; 0 for none.
#[derive(Clone, Copy, Drop)]
struct Case<'a> {
    bytes: &'a [u8],
    link_fails: u64,
    start_fails: u64,
}

fn only<R: Abort>(rt: &R, alloc: Global, number: u64) -> Vec<u64> {
    Vec::from_slice(alloc, &[number]).expect(rt, "memory")
}

fn link_of<R: Abort>(rt: &R, alloc: Global, bytes: &[u8], fails: u64) -> MemLink
    ensures { IsUnused result }
{
    MemLink::new(alloc, bytes_of(rt, alloc, bytes), only(rt, alloc, fails))
}

// The first link, and a second one that answers bob's query.
fn spawner_of<R: Abort>(rt: &R, alloc: Global, case: Case<'_>) -> MemSpawner {
    let mut links = Vec::new(alloc);
    let first = link_of(rt, alloc, case.bytes, case.link_fails);
    links.push(first).expect(rt, "memory");
    let second = link_of(rt, alloc, b"FOUND\t6\t{PLAIN}two\n", 0);
    links.push(second).expect(rt, "memory");
    MemSpawner::new(alloc, links, only(rt, alloc, case.start_fails))
}

// The history of a worker over these links, and no program.
fn history_of<R: Wait + Abort>(rt: &R, alloc: Global, case: Case<'_>) -> Vec<u8> {
    let mut spawner = spawner_of(rt, alloc, case);
    let mut runner = MemRunner::new(alloc, Vec::new(alloc), Vec::new(alloc));
    worked(rt, alloc, &JOB, &mut spawner, &mut runner)
}

// Whether the two answers recorded are these.
fn are_answers<R: Wait + Abort>(
    rt: &R,
    alloc: Global,
    case: Case<'_>,
    five: &[u8],
    six: &[u8],
) -> bool {
    let history = history_of(rt, alloc, case);
    let wanted = answers_of(rt, alloc, five, six);
    history.ends_with(&wanted)
}

fn comes(bytes: &[u8]) -> Case<'_> {
    Case {
        bytes,
        link_fails: 0,
        start_fails: 0,
    }
}

const BY_THE_SAME: &[u8] = b"FOUND\t6\t{PLAIN}one";

const BY_ANOTHER: &[u8] = b"FOUND\t6\t{PLAIN}two";

// Whether what comes in over the first link is malformed. The link is handed back then.
fn is_malformed<R: Wait + Abort>(rt: &R, alloc: Global, bytes: &[u8]) -> bool {
    let five = b"INTERNAL\t5\tmalformed";
    are_answers(rt, alloc, comes(bytes), five, BY_ANOTHER)
}

// Whether the first link's worker is dead. The link is handed back then.
fn is_dead<R: Wait + Abort>(rt: &R, alloc: Global, case: Case<'_>) -> bool {
    are_answers(rt, alloc, case, b"INTERNAL\t5\tdied", BY_ANOTHER)
}

// Whether this comes of what comes in over the first link, and the link is kept.
fn is_kept<R: Wait + Abort>(rt: &R, alloc: Global, bytes: &[u8], five: &[u8]) -> bool {
    are_answers(rt, alloc, comes(bytes), five, BY_THE_SAME)
}

const MALFORMED: &[&[u8]] = &[
    b"FOUND\t6\t{PLAIN}pw\n",
    b"FOUND\t5\n",
    b"PASSED\t5\n",
    b"MISMATCH\t5\n",
    b"INTERNAL\t5\tsaid\n",
    b"\n",
];

const DEAD: &[&[u8]] = &[b"FOU", b""];

#[test]
fn what_is_no_answer_is_malformed_and_the_next_query_has_another_link(rt: HostRuntime) {
    for bytes in MALFORMED {
        assert!(rt; is_malformed(&rt, rt.alloc(), *bytes));
    }
    for bytes in DEAD {
        assert!(rt; is_dead(&rt, rt.alloc(), comes(*bytes)));
    }
}

#[test]
fn what_a_worker_says_is_its_answer_and_its_link_is_kept(rt: HostRuntime) {
    let said = b"FAIL\t5\tdisk\nFOUND\t6\t{PLAIN}one\n";
    assert!(rt; is_kept(&rt, rt.alloc(), said, b"INTERNAL\t5\tsaid"));
    let unknown = b"UNKNOWN\t5\nFOUND\t6\t{PLAIN}one\n";
    assert!(rt; is_kept(&rt, rt.alloc(), unknown, b"UNKNOWN\t5"));
    let found = b"FOUND\t5\t{PLAIN}pw\tnodelay\nFOUND\t6\t{PLAIN}one\n";
    assert!(rt; is_kept(&rt, rt.alloc(), found, b"FOUND\t5\t{PLAIN}pw\tnodelay"));
}

#[test]
fn a_worker_that_fails_is_dead_and_the_next_query_has_another_link(rt: HostRuntime) {
    for link_fails in 1..3 {
        let case = Case {
            bytes: b"UNKNOWN\t5\n",
            link_fails,
            start_fails: 0,
        };
        assert!(rt; is_dead(&rt, rt.alloc(), case));
    }
}

// The next link is the first one.
#[test]
fn a_worker_that_does_not_start_is_dead_and_the_next_query_starts_one(rt: HostRuntime) {
    let case = Case {
        bytes: b"FOUND\t6\t{PLAIN}one\n",
        link_fails: 0,
        start_fails: 1,
    };
    assert!(rt; are_answers(&rt, rt.alloc(), case, b"INTERNAL\t5\tdied", BY_THE_SAME));
}

const ANSWER: &[u8] = b"UNKNOWN\t5";

// Whether these bytes and an LF are malformed.
fn is_malformed_line<R: Wait + Abort>(rt: &R, alloc: Global, bytes: &[u8]) -> bool {
    let mut line = bytes_of(rt, alloc, bytes);
    line.push(b'\n').expect(rt, "memory");
    is_malformed(rt, alloc, &line)
}

#[test]
fn no_part_of_an_answer_is_one(rt: HostRuntime) {
    for count in 0..ANSWER.len() {
        assert!(rt; is_malformed_line(&rt, rt.alloc(), &ANSWER[..count]));
    }
}

#[test]
fn an_answer_that_is_cut_is_none(rt: HostRuntime) {
    for count in 0..ANSWER.len() + 1 {
        assert!(rt; is_dead(&rt, rt.alloc(), comes(&ANSWER[..count])));
    }
}

fn letters_of<R: Abort>(rt: &R, alloc: Global, count: usize) -> Vec<u8> {
    let mut letters = Vec::new(alloc);
    letters.resize(count, b'x').expect(rt, "memory");
    letters
}

#[test]
fn a_line_that_is_too_long_is_malformed(rt: HostRuntime) {
    let letters = letters_of(&rt, rt.alloc(), 8193);
    assert!(rt; is_malformed(&rt, rt.alloc(), &letters));
}
