// Checks of a settings file in memory.

use crate::runs::{output_of, settings_of, words_of};
use da_app::run_check;
use std::alloc::Global;
use std::process::Abort;

/// How a check ends: its code, what is written, and its words.
#[derive(Clone, Copy)]
struct End<'a> {
    code: u8,
    written: &'a [u8],
    reported: &'a [u8],
}

// Whether a check of the file `settings`, whose output fails at this call, ends so.
fn ends_so<R: Abort>(
    rt: &R,
    alloc: Global,
    words: &[&str],
    settings: &[u8],
    write_fails: u64,
    end: End<'_>,
) -> bool {
    let words = words_of(rt, alloc, words);
    let mut files = settings_of(rt, alloc, settings);
    let mut output = output_of(rt, alloc, write_fails);
    let status = run_check(alloc, &words, &mut files, &mut output);
    let reported = status.words(alloc).expect(rt, "memory");
    status.code() == end.code
        && output.bytes() == end.written
        && reported.as_slice() == end.reported
}

const WORDS: &[&str] = &["check", "settings"];

fn is_good<R: Abort>(rt: &R, alloc: Global, settings: &[u8], written: &[u8]) -> bool {
    let end = End {
        code: 0,
        written,
        reported: b"",
    };
    ends_so(rt, alloc, WORDS, settings, 0, end)
}

fn is_bad<R: Abort>(rt: &R, alloc: Global, settings: &[u8], reported: &[u8]) -> bool {
    let end = End {
        code: 78,
        written: b"",
        reported,
    };
    ends_so(rt, alloc, WORDS, settings, 0, end)
}

const TWO_DATABASES: &[u8] = b"failure_delay = 0\n\
[[passdb]]\n\
driver = \"worker\"\n\
[[passdb]]\n\
driver = \"worker\"\n";

const TWO_USER_DATABASES: &[u8] = b"userdb = [{driver = \"prefetch\"}, {driver = \"worker\"}]";

#[test]
fn a_good_file_is_told_with_its_databases(rt: HostRuntime) {
    assert!(rt; is_good(&rt, rt.alloc(), TWO_DATABASES, b"ok 2 0\n"));
    assert!(rt; is_good(&rt, rt.alloc(), b"", b"ok 1 0\n"));
    assert!(rt; is_good(&rt, rt.alloc(), TWO_USER_DATABASES, b"ok 1 2\n"));
}

const UNKNOWN: &[u8] = b"bad settings at colour: unknown";

const RANGE: &[u8] = b"bad settings at failure_delay: range";

const NOT_TOML: &[u8] = b"bad settings at settings: not toml";

#[test]
fn a_bad_file_is_told_with_its_fault(rt: HostRuntime) {
    assert!(rt; is_bad(&rt, rt.alloc(), b"colour = \"red\"", UNKNOWN));
    assert!(rt; is_bad(&rt, rt.alloc(), b"failure_delay = 60001", RANGE));
    assert!(rt; is_bad(&rt, rt.alloc(), b"a =", NOT_TOML));
}

fn ends_early<R: Abort>(
    rt: &R,
    alloc: Global,
    words: &[&str],
    write_fails: u64,
    code: u8,
    reported: &[u8],
) -> bool {
    let end = End {
        code,
        written: b"",
        reported,
    };
    ends_so(rt, alloc, words, b"", write_fails, end)
}

#[test]
fn each_early_end_of_a_check_has_its_status(rt: HostRuntime) {
    assert!(rt; ends_early(&rt, rt.alloc(), &["check"], 0, 64, b"usage"));
    assert!(rt; ends_early(&rt, rt.alloc(), &["check", "other"], 0, 66, b"no settings"));
    assert!(rt; ends_early(&rt, rt.alloc(), WORDS, 1, 74, b"write fault"));
}
