// The whole command in memory, over one client that introduces itself and goes, where a call to the outside fails.

use crate::one_client::{HELLO, only};
use da_outside::{MemFiles, MemListen, MemSink, MemSource, NoPause, SetClock, SetRand, SoundCrew};
use da_serve::run_serve;
use std::alloc::Global;
use std::process::Abort;
use std::sync::Wait;
use std::thread::Threads;

/// The settings, and which calls fail, counted from 1; 0 for none.
#[derive(Clone, Copy, Drop)]
struct Outside {
    settings: &'static [u8],
    files: u64,
    clients: u64,
    masters: u64,
    reads: u64,
    writes: u64,
    output: u64,
}

const SOUND: Outside = Outside {
    settings: b"failure_delay = 0\n",
    files: 0,
    clients: 0,
    masters: 0,
    reads: 0,
    writes: 0,
    output: 0,
};

fn words<R: Abort>(rt: &R, alloc: Global) -> Vec<String> {
    let mut words = Vec::new(alloc);
    for word in ["serve", "settings", "1", "0"] {
        let word = String::from_str(alloc, word).expect(rt, "memory");
        words.push(word).expect(rt, "memory");
    }
    words
}

fn bytes_of<R: Abort>(rt: &R, alloc: Global, bytes: &[u8]) -> Vec<u8> {
    Vec::from_slice(alloc, bytes).expect(rt, "memory")
}

fn files_of<R: Abort>(rt: &R, alloc: Global, outside: &Outside) -> MemFiles {
    let file = (
        bytes_of(rt, alloc, b"settings"),
        bytes_of(rt, alloc, outside.settings),
    );
    let mut files = Vec::new(alloc);
    files.push(file).expect(rt, "memory");
    MemFiles::new(files, only(rt, alloc, outside.files))
}

fn client_of<R: Abort>(rt: &R, alloc: Global, outside: &Outside) -> (MemSource, MemSink) {
    let bytes = bytes_of(rt, alloc, HELLO);
    let source = MemSource::new(bytes, only(rt, alloc, outside.reads));
    (source, MemSink::new(alloc, only(rt, alloc, outside.writes)))
}

fn clients_of<R: Abort>(rt: &R, alloc: Global, outside: &Outside) -> MemListen {
    let mut conns = Vec::new(alloc);
    conns
        .push(client_of(rt, alloc, outside))
        .expect(rt, "memory");
    MemListen::new(conns, only(rt, alloc, outside.clients))
}

fn masters_of<R: Abort>(rt: &R, alloc: Global, outside: &Outside) -> MemListen {
    MemListen::new(Vec::new(alloc), only(rt, alloc, outside.masters))
}

// The code of the command's status, and what it writes.
fn run<R: Threads + Wait + Abort + Sync>(
    rt: &R,
    alloc: Global,
    outside: &Outside,
) -> (u8, MemSink) {
    let words = words(rt, alloc);
    let mut files = files_of(rt, alloc, outside);
    let mut clients = clients_of(rt, alloc, outside);
    let mut masters = masters_of(rt, alloc, outside);
    let clock = SetClock::new(only(rt, alloc, 5));
    let mut output = MemSink::new(alloc, only(rt, alloc, outside.output));
    let status = run_serve(
        rt,
        alloc,
        &words,
        &mut files,
        &mut clients,
        &mut masters,
        &mut SoundCrew::new(alloc),
        &clock,
        &mut SetRand::new(&[]),
        &NoPause,
        &mut output,
    );
    (status.code(), output)
}

// Whether the command ends with this code, and writes this.
fn ends_so<R: Threads + Wait + Abort + Sync>(
    rt: &R,
    alloc: Global,
    outside: &Outside,
    code: u8,
    written: &[u8],
) -> bool {
    let (status, output) = run(rt, alloc, outside);
    status == code && output.bytes() == written
}

const WHOLE: &[u8] = b"5 open client -\n\
5 line 1 - VERSION\t1\t1\n\
5 line 1 - CPID\t7\n\
5 gone 1\n";

const OPENED: &[u8] = b"5 open client -\n\
5 gone 1\n";

const FULL: &[u8] = b"5 open client -\n\
5 line 1 - VERSION\t1\t1\n\
5 line 1 - CPID\t7\n";

const FULL_AT_ONCE: &[u8] = b"5 open client -\n";

// A listener's first call is the one that binds it. The client's bytes come at the first read, and their end at the second.
const ENDS: [(Outside, u8, &[u8]); 12] = [
    (SOUND, 0, WHOLE),
    (Outside { files: 1, ..SOUND }, 66, b""),
    (
        Outside {
            clients: 1,
            ..SOUND
        },
        69,
        b"",
    ),
    (
        Outside {
            masters: 1,
            ..SOUND
        },
        69,
        b"",
    ),
    (
        Outside {
            clients: 2,
            ..SOUND
        },
        0,
        WHOLE,
    ),
    (
        Outside {
            masters: 2,
            ..SOUND
        },
        0,
        WHOLE,
    ),
    (Outside { reads: 1, ..SOUND }, 0, OPENED),
    (Outside { reads: 2, ..SOUND }, 0, WHOLE),
    (Outside { writes: 1, ..SOUND }, 0, WHOLE),
    (Outside { output: 1, ..SOUND }, 74, b""),
    (
        Outside {
            settings: b"failure_delay = 0\nhistory_entries = 3\n",
            ..SOUND
        },
        75,
        FULL,
    ),
    (
        Outside {
            settings: b"failure_delay = 0\nhistory_entries = 1\n",
            ..SOUND
        },
        75,
        FULL_AT_ONCE,
    ),
];

#[test]
fn each_fault_has_its_end(rt: HostRuntime) {
    for (outside, code, written) in ENDS {
        assert!(rt; ends_so(&rt, rt.alloc(), &outside, code, written));
    }
}
