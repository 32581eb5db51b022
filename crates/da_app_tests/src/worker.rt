// Runs of a worker over files, an input and an output in memory.

use crate::runs::{input_of, output_of, two_files, words_of};
use da_app::{Status, run_worker};
use da_outside::MemSink;
use std::alloc::Global;
use std::process::Abort;

const SETTINGS: &[u8] = b"passdb = [\n\
{driver = \"passwd-file\", args = \"users\"},\n\
{driver = \"passwd-file\", args = \"missing\"},\n\
{driver = \"worker\", args = \"users\"},\n\
{driver = \"passwd-file\"},\n\
]\n\
userdb = [{driver = \"passwd-file\", args = \"users\"}, {driver = \"prefetch\", args = \"users\"}]\n";

const USERS: &[u8] = b"# users\nalice:{PLAIN}pw:1000:1000::/home/alice::userdb_quota=1G nodelay\n";

const QUERIES: &[u8] = b"PASS\t1\t1\talice\nUSER\t2\t1\talice\nPASS\t3\t1\tcarol\n\
PASS\t4\t2\talice\nPASS\t5\t3\talice\nPASS\t6\t4\talice\nUSER\t7\t2\talice\nCHECK\t8\t1\talice\tpw\n";

const ANSWERS: &[u8] = b"FOUND\t1\t{PLAIN}pw\tuserdb_quota=1G\tnodelay\n\
FOUND\t2\t\tuid=1000\tgid=1000\thome=/home/alice\tquota=1G\nUNKNOWN\t3\nFAIL\t4\tfile\n\
FAIL\t5\tdriver\nFAIL\t6\tdriver\nFAIL\t7\tdriver\nFAIL\t8\tdriver\n";

/// A run whose files, input and output fail at these calls.
#[derive(Clone, Copy)]
struct Run<'a> {
    words: &'a [&'a str],
    settings: &'a [u8],
    input: &'a [u8],
    file_fails: u64,
    read_fails: u64,
    write_fails: u64,
}

fn a_run<'a>() -> Run<'a> {
    Run {
        words: &["worker", "settings"],
        settings: SETTINGS,
        input: QUERIES,
        file_fails: 0,
        read_fails: 0,
        write_fails: 0,
    }
}

fn work<R: Abort>(rt: &R, alloc: Global, run: &Run<'_>) -> (Status, MemSink) {
    let words = words_of(rt, alloc, run.words);
    let mut files = two_files(rt, alloc, run.settings, USERS, run.file_fails);
    let mut input = input_of(rt, alloc, run.input, run.read_fails);
    let mut output = output_of(rt, alloc, run.write_fails);
    let status = run_worker(alloc, &words, &mut files, &mut input, &mut output);
    (status, output)
}

#[test]
fn each_query_is_answered_by_the_file_of_its_database(rt: HostRuntime) {
    let (status, output) = work(&rt, rt.alloc(), &a_run());
    assert!(rt; status.code() == 0);
    assert!(rt; output.bytes() == ANSWERS);
}

fn ends_so<R: Abort>(rt: &R, alloc: Global, run: &Run<'_>, wanted: &[u8], written: &[u8]) -> bool {
    let (status, output) = work(rt, alloc, run);
    let words = status.words(alloc).expect(rt, "memory");
    words.as_slice() == wanted && output.bytes() == written
}

#[test]
fn words_and_settings_that_are_refused_are_told(rt: HostRuntime) {
    let usage = Run {
        words: &["worker"],
        ..a_run()
    };
    let missing = Run {
        words: &["worker", "other"],
        ..a_run()
    };
    let unread = Run {
        file_fails: 1,
        ..a_run()
    };
    let unknown = Run {
        settings: b"colour = 1",
        ..a_run()
    };
    assert!(rt; ends_so(&rt, rt.alloc(), &usage, b"usage", b""));
    assert!(rt; ends_so(&rt, rt.alloc(), &missing, b"no settings", b""));
    assert!(rt; ends_so(&rt, rt.alloc(), &unread, b"no settings", b""));
    assert!(rt;
        ends_so(
            &rt,
            rt.alloc(),
            &unknown,
            b"bad settings at colour: unknown",
            b""
        )
    );
}

#[test]
fn each_end_of_a_worker_has_its_status(rt: HostRuntime) {
    let cut = Run {
        input: b"PASS\t3\t1\tcarol\nPASS\t1\t1\talice",
        ..a_run()
    };
    let read = Run {
        input: b"PASS\t3\t1\tcarol\n",
        read_fails: 2,
        ..a_run()
    };
    let write = Run {
        write_fails: 1,
        ..a_run()
    };
    let file = Run {
        input: b"PASS\t9\t1\talice\n",
        file_fails: 2,
        ..a_run()
    };
    assert!(rt; ends_so(&rt, rt.alloc(), &cut, b"bad input", b"UNKNOWN\t3\n"));
    assert!(rt; ends_so(&rt, rt.alloc(), &read, b"read fault", b"UNKNOWN\t3\n"));
    assert!(rt; ends_so(&rt, rt.alloc(), &write, b"write fault", b""));
    assert!(rt; ends_so(&rt, rt.alloc(), &file, b"", b"FAIL\t9\tfile\n"));
}
