// Runs of a worker over files, an input and an output in memory.

use crate::memory::{bytes_of, calls_of};
use da_fields::Text;
use da_outside::{MemFiles, MemSink, MemSource};
use da_worker::{WorkerStatus, answer_all};
use std::alloc::Global;
use std::process::Abort;

const USERS: &[u8] = b"# users\nalice:{PLAIN}pw:1000:1000::/home/alice::userdb_quota=1G nodelay\n";

const FOUND: &[u8] = b"FOUND\t1\t{PLAIN}pw\tuserdb_quota=1G\tnodelay\n";

// Queries of the databases: 1 is the file, 2 is missing, 3 is of another driver, and 4 is a file that is too long.
const QUERIES: &[u8] =
    b"PASS\t1\t1\talice\nUSER\t2\t1\talice\nPASS\t3\t1\tcarol\nPASS\t4\t2\talice\n\
PASS\t5\t3\talice\nPASS\t6\t4\talice\nPASS\t7\t5\talice\nPASS\t8\t0\talice\nUSER\t9\t2\talice\n\
CHECK\t10\t1\talice\tpw\nPASS\t1\t1\talice\n";

const ANSWERS: &[u8] = b"FOUND\t1\t{PLAIN}pw\tuserdb_quota=1G\tnodelay\n\
FOUND\t2\t\tuid=1000\tgid=1000\thome=/home/alice\tquota=1G\nUNKNOWN\t3\nFAIL\t4\tfile\n\
FAIL\t5\tdriver\nFAIL\t6\tlong\nFAIL\t7\tdriver\nFAIL\t8\tdriver\nFAIL\t9\tdriver\n\
FAIL\t10\tdriver\nFOUND\t1\t{PLAIN}pw\tuserdb_quota=1G\tnodelay\n";

// The numbers of the calls that fail; none where it is 0.
#[derive(Clone, Copy)]
struct Faults {
    file: u64,
    read: u64,
    write: u64,
}

const SOUND: Faults = Faults {
    file: 0,
    read: 0,
    write: 0,
};

fn paths<R: Abort>(rt: &R, alloc: Global, list: &[&[u8]]) -> Vec<Text> {
    let mut paths = Vec::new(alloc);
    for path in list {
        let path = Text::new(bytes_of(rt, alloc, path));
        paths.push(path).expect(rt, "memory");
    }
    paths
}

// The file, and a file that is too long.
fn files<R: Abort>(rt: &R, alloc: Global, file: &[u8], fails: u64) -> MemFiles {
    let mut held = Vec::new(alloc);
    let one = (bytes_of(rt, alloc, b"file"), bytes_of(rt, alloc, file));
    held.push(one).expect(rt, "memory");
    let long = vec![in alloc; b'#'; 4_194_305].expect(rt, "memory");
    held.push((bytes_of(rt, alloc, b"long"), long))
        .expect(rt, "memory");
    MemFiles::new(held, calls_of(rt, alloc, &[fails]))
}

// The run over a file, by which password and user database 1 answer, and an input.
fn run<R: Abort>(
    rt: &R,
    alloc: Global,
    file: &[u8],
    input: &[u8],
    faults: Faults,
) -> (WorkerStatus, MemSink, MemFiles) {
    let pass = paths(rt, alloc, &[b"file", b"missing", b"", b"long"]);
    let users = paths(rt, alloc, &[b"file"]);
    let mut files = files(rt, alloc, file, faults.file);
    let input = bytes_of(rt, alloc, input);
    let mut source = MemSource::new(input, calls_of(rt, alloc, &[faults.read]));
    let mut sink = MemSink::new(alloc, calls_of(rt, alloc, &[faults.write]));
    let status = answer_all(alloc, &pass, &users, &mut files, &mut source, &mut sink);
    (status, sink, files)
}

#[test]
fn each_query_is_answered_in_order(rt: HostRuntime) {
    let (status, sink, files) = run(&rt, rt.alloc(), USERS, QUERIES, SOUND);
    assert!(rt; status == WorkerStatus::Done);
    assert!(rt; sink.bytes() == ANSWERS);
    assert!(rt; files.past().len() == 6);
}

// A file, and the answer to its query 1 for the password, and to query 2 for the fields, of the user `alice`.
const FILES: &[(&[u8], &[u8])] = &[
    (b"", b"UNKNOWN\t1\nUNKNOWN\t2\n"),
    (b"alic:a\nalicea:b\n\n:c\n", b"UNKNOWN\t1\nUNKNOWN\t2\n"),
    (b"alice", b"FOUND\t1\t\nFOUND\t2\t\n"),
    (b"alice:a\nalice:b\n", b"FOUND\t1\ta\nFOUND\t2\t\n"),
    (
        b"#alice:a\nbob:b\nalice:c:1",
        b"FOUND\t1\tc\nFOUND\t2\t\tuid=1\n",
    ),
    (
        b"alice:a::2:g::/sh\nbob:b",
        b"FOUND\t1\ta\nFOUND\t2\t\tgid=2\n",
    ),
    (
        b"alice:a:::::: k=1 m  k=2 =z n=\n",
        b"FOUND\t1\ta\tk=2\tm\tn\nFOUND\t2\t\n",
    ),
    (
        b"alice:a:1:2:g:/h:/sh:k=b:c userdb_uid=7 userdb_x=1 userdb_=3\n",
        b"FOUND\t1\ta\tk=b:c\tuserdb_uid=7\tuserdb_x=1\tuserdb_=3\nFOUND\t2\t\tuid=7\tgid=2\thome=/h\tx=1\n",
    ),
    (b"alice:a\tb\x01", b"FOUND\t1\ta\x01tb\x011\nFOUND\t2\t\n"),
];

// Whether the run over a file and an input has this status and these answers.
fn ends_so<R: Abort>(
    rt: &R,
    alloc: Global,
    file: &[u8],
    input: &[u8],
    faults: Faults,
    end: (WorkerStatus, &[u8]),
) -> bool {
    let (status, sink, _) = run(rt, alloc, file, input, faults);
    status == end.0 && sink.bytes() == end.1
}

const TWO_QUERIES: &[u8] = b"PASS\t1\t1\talice\nUSER\t2\t1\talice\n";

#[test]
fn the_first_line_of_the_user_answers(rt: HostRuntime) {
    for (file, answers) in FILES {
        let end = (WorkerStatus::Done, *answers);
        assert!(rt; ends_so(&rt, rt.alloc(), file, TWO_QUERIES, SOUND, end));
    }
}

fn ends_with<R: Abort>(
    rt: &R,
    alloc: Global,
    input: &[u8],
    faults: Faults,
    status: WorkerStatus,
) -> bool {
    ends_so(rt, alloc, USERS, input, faults, (status, FOUND))
}

const QUERY: &[u8] = b"PASS\t1\t1\talice\n";

const TWICE: &[u8] = b"PASS\t1\t1\talice\nPASS\t1\t1\talice\n";

// Inputs whose second line is no query, or is cut.
const BAD: [&[u8]; 3] = [
    b"PASS\t1\t1\talice\nPASS\t2\n",
    b"PASS\t1\t1\talice\n\n",
    b"PASS\t1\t1\talice\nPASS\t2\t1\talice",
];

#[test]
fn each_end_has_its_status(rt: HostRuntime) {
    let alloc = rt.alloc();
    let empty = (WorkerStatus::Done, b"".as_slice());
    let read = Faults { read: 2, ..SOUND };
    let write = Faults { write: 2, ..SOUND };
    assert!(rt; ends_so(&rt, alloc, USERS, b"", SOUND, empty));
    assert!(rt; ends_with(&rt, alloc, QUERY, SOUND, WorkerStatus::Done));
    assert!(rt; ends_with(&rt, alloc, QUERY, read, WorkerStatus::ReadFault));
    assert!(rt; ends_with(&rt, alloc, TWICE, write, WorkerStatus::WriteFault));
}

#[test]
fn an_input_that_is_bad_has_its_line(rt: HostRuntime) {
    for input in BAD {
        let bad = WorkerStatus::BadInput { line: 2 };
        assert!(rt; ends_with(&rt, rt.alloc(), input, SOUND, bad));
    }
}

// The status for an input whose second line is a query of nine bytes and so many more.
fn status_at<R: Abort>(rt: &R, alloc: Global, more: usize) -> WorkerStatus {
    let mut input = bytes_of(rt, alloc, b"PASS\t1\t1\talice\nPASS\t2\t1\t");
    let mut name = vec![in alloc; b'x'; more].expect(rt, "memory");
    input.append(&mut name).expect(rt, "memory");
    input.push(b'\n').expect(rt, "memory");
    run(rt, alloc, USERS, &input, SOUND).0
}

#[test]
fn a_line_has_at_most_8192_bytes(rt: HostRuntime) {
    assert!(rt; status_at(&rt, rt.alloc(), 8183) == WorkerStatus::Done);
    assert!(rt; status_at(&rt, rt.alloc(), 8184) == WorkerStatus::BadInput { line: 2 });
}

const FILE_FAULT: &[u8] = b"FAIL\t9\tfile\nFOUND\t1\t{PLAIN}pw\tuserdb_quota=1G\tnodelay\n";

#[test]
fn a_fault_of_the_files_does_not_end_the_run(rt: HostRuntime) {
    let first = Faults { file: 1, ..SOUND };
    let input = b"PASS\t9\t1\talice\nPASS\t1\t1\talice\n";
    let end = (WorkerStatus::Done, FILE_FAULT);
    assert!(rt; ends_so(&rt, rt.alloc(), USERS, input, first, end));
}
