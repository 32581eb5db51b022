// Runs of `drive` over files, an input and an output in memory.

use crate::runs::{input_of, output_of, settings_of, words_of};
use da_app::{Status, run_drive};
use da_outside::MemSink;
use da_scripts::first_login::{GREETING, REPLIES, SCRIPT};
use std::alloc::Global;
use std::process::Abort;

const SETTINGS: &[u8] = b"failure_delay = 0\n";

/// A run over one file, `settings`, whose input and output fail at these calls.
#[derive(Clone, Copy)]
struct Run<'a> {
    words: &'a [&'a str],
    settings: &'a [u8],
    script: &'a [u8],
    read_fails: u64,
    write_fails: u64,
}

fn drive<R: Abort>(rt: &R, alloc: Global, run: &Run<'_>) -> (Status, MemSink) {
    let words = words_of(rt, alloc, run.words);
    let mut files = settings_of(rt, alloc, run.settings);
    let mut input = input_of(rt, alloc, run.script, run.read_fails);
    let mut output = output_of(rt, alloc, run.write_fails);
    let status = run_drive(alloc, &words, &mut files, &mut input, &mut output);
    (status, output)
}

fn a_run<'a>(script: &'a [u8]) -> Run<'a> {
    Run {
        words: &["drive", "settings"],
        settings: SETTINGS,
        script,
        read_fails: 0,
        write_fails: 0,
    }
}

fn ends_so<R: Abort>(rt: &R, alloc: Global, run: &Run<'_>, code: u8, written: &[u8]) -> bool {
    let (status, output) = drive(rt, alloc, run);
    status.code() == code && output.bytes() == written
}

#[test]
fn each_end_of_a_script_has_its_status_and_its_output(rt: HostRuntime) {
    let alloc = rt.alloc();
    let no_event = b"1000 open client -\n1001 line 1 - VERSION\t1\t1\n1002 ti\n";
    assert!(rt; ends_so(&rt, alloc, &a_run(SCRIPT), 0, REPLIES));
    assert!(rt; ends_so(&rt, alloc, &a_run(b""), 0, b""));
    assert!(rt; ends_so(&rt, alloc, &a_run(no_event), 65, GREETING));
    assert!(rt;
        ends_so(
            &rt,
            alloc,
            &a_run(b"1000 open client -\n1001 ti"),
            65,
            GREETING
        )
    );
}

#[test]
fn words_and_settings_that_are_refused_have_their_status(rt: HostRuntime) {
    let alloc = rt.alloc();
    let words = Run {
        words: &["drive"],
        ..a_run(SCRIPT)
    };
    let missing = Run {
        words: &["drive", "other"],
        ..a_run(SCRIPT)
    };
    let settings = Run {
        settings: b"failure_delay = 60001\n",
        ..a_run(SCRIPT)
    };
    assert!(rt; ends_so(&rt, alloc, &words, 64, b""));
    assert!(rt; ends_so(&rt, alloc, &missing, 66, b""));
    assert!(rt; ends_so(&rt, alloc, &settings, 78, b""));
}

#[test]
fn each_early_end_of_a_run_has_its_status_and_its_output(rt: HostRuntime) {
    let alloc = rt.alloc();
    let full = Run {
        settings: b"history_entries = 1\n",
        ..a_run(SCRIPT)
    };
    let read = Run {
        read_fails: 2,
        ..a_run(b"1000 open client -\n")
    };
    let write = Run {
        write_fails: 2,
        ..a_run(SCRIPT)
    };
    assert!(rt; ends_so(&rt, alloc, &full, 75, GREETING));
    assert!(rt; ends_so(&rt, alloc, &read, 74, GREETING));
    assert!(rt; ends_so(&rt, alloc, &write, 74, GREETING));
}

fn is_told<R: Abort>(rt: &R, alloc: Global, run: &Run<'_>, wanted: &[u8]) -> bool {
    let (status, _) = drive(rt, alloc, run);
    status.words(alloc).expect(rt, "memory").as_slice() == wanted
}

#[test]
fn the_words_name_the_line_and_the_fault(rt: HostRuntime) {
    let alloc = rt.alloc();
    let cut = a_run(b"1000 open client -\n1001 ti");
    let other = Run {
        settings: b"colour = 1",
        ..a_run(SCRIPT)
    };
    assert!(rt; is_told(&rt, alloc, &cut, b"line 2 is not an event"));
    assert!(rt; is_told(&rt, alloc, &other, b"bad settings at colour: unknown"));
}
