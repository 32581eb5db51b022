// Runs of `pw` over an input and an output in memory.

use crate::runs::{input_of, output_of, words_of};
use da_app::{Command, Status, command, run_pw};
use da_outside::{MemSink, SetRand};
use da_schemes::{Scheme, Stored};
use std::alloc::Global;
use std::process::Abort;

const SALT: [u8; 16] = *b"0123456789abcdef";

/// A run whose input and output fail at these calls.
#[derive(Clone, Copy)]
struct Run<'a> {
    words: &'a [&'a str],
    input: &'a [u8],
    read_fails: u64,
    write_fails: u64,
}

fn pw<R: Abort>(rt: &R, alloc: Global, run: &Run<'_>) -> (Status, MemSink) {
    let words = words_of(rt, alloc, run.words);
    let mut input = input_of(rt, alloc, run.input, run.read_fails);
    let mut output = output_of(rt, alloc, run.write_fails);
    let mut rand = SetRand::new(&[SALT]);
    let status = run_pw(alloc, &words, &mut input, &mut output, &mut rand);
    (status, output)
}

fn a_run<'a>(words: &'a [&'a str], input: &'a [u8]) -> Run<'a> {
    Run {
        words,
        input,
        read_fails: 0,
        write_fails: 0,
    }
}

fn ends_so<R: Abort>(rt: &R, alloc: Global, run: &Run<'_>, code: u8, written: &[u8]) -> bool {
    let (status, output) = pw(rt, alloc, run);
    status.code() == code && output.bytes() == written
}

fn is_written<R: Abort>(rt: &R, alloc: Global, scheme: &str, input: &[u8], written: &[u8]) -> bool {
    ends_so(rt, alloc, &a_run(&["pw", scheme], input), 0, written)
}

const ABC_IN_SHA: &[u8] = b"{SHA}qZk+NkcGgWq6PiVxeFDCbJzQ2J0=\n";

const ABC_IN_MD5: &[u8] = b"{PLAIN-MD5}900150983cd24fb0d6963f7d28e17f72\n";

const ABC_IN_LDAP_MD5: &[u8] = b"{LDAP-MD5}kAFQmDzST7DWlj99KOF/cg==\n";

// The salted forms are those of Python's `hashlib`.
const ABC_SALTED: &[u8] = b"{SSHA256}eazufsBzRtTOOvdPxwGLyVFdji2qsoimoGhDO0hk/YcwMTIzNDU2Nw==\n";

const ABC_IN_SCRAM: &[u8] =
    b"{SCRAM-SHA-256}4096,MDEyMzQ1Njc4OWFiY2RlZg==,kX1uI0AJ7puUjaLrp5FzqOsta0swSpzqSaC1s1PHwcA=,/Bz5wDBsAmnEJIrIMePNI/1LBYEev3uPi18GcbnNtqk=\n";

#[test]
fn a_password_is_stored(rt: HostRuntime) {
    let alloc = rt.alloc();
    assert!(rt; is_written(&rt, alloc, "SHA", b"abc\n", ABC_IN_SHA));
    assert!(rt; is_written(&rt, alloc, "sha", b"abc\n", ABC_IN_SHA));
    assert!(rt; is_written(&rt, alloc, "PLAIN-MD5", b"abc\n", ABC_IN_MD5));
    assert!(rt; is_written(&rt, alloc, "LDAP-MD5", b"abc\n", ABC_IN_LDAP_MD5));
    assert!(rt; is_written(&rt, alloc, "PLAIN", b" a\tb \n", b"{PLAIN} a\tb \n"));
    assert!(rt; is_written(&rt, alloc, "SSHA256", b"abc\n", ABC_SALTED));
    assert!(rt; is_written(&rt, alloc, "Scram-Sha-256", b"abc\n", ABC_IN_SCRAM));
}

#[test]
fn an_input_is_one_line_without_zeros(rt: HostRuntime) {
    for input in b"|\n|abc|abc\nabc\n|a\0c\n".split(|byte| *byte == b'|') {
        assert!(rt; ends_so(&rt, rt.alloc(), &a_run(&["pw", "SHA"], input), 65, b""));
    }
}

fn is_usage<R: Abort>(rt: &R, alloc: Global, words: &[&str]) -> bool {
    ends_so(rt, alloc, &a_run(words, b"abc\n"), 64, b"")
}

#[test]
fn words_are_a_command_and_a_scheme(rt: HostRuntime) {
    assert!(rt; is_usage(&rt, rt.alloc(), &["pw", "CRYPT"]));
    assert!(rt; is_usage(&rt, rt.alloc(), &["pw"]));
    assert!(rt; is_usage(&rt, rt.alloc(), &["pw", "SHA", "SHA"]));
    assert!(rt; is_usage(&rt, rt.alloc(), &["drive", "SHA"]));
}

// The status's code for a password of so many bytes.
fn code_at<R: Abort>(rt: &R, alloc: Global, length: usize) -> u8 {
    let mut line = vec![in alloc; b'a'; length].expect(rt, "memory");
    line.push(b'\n').expect(rt, "memory");
    pw(rt, alloc, &a_run(&["pw", "SHA"], &line)).0.code()
}

#[test]
fn a_password_has_at_most_512_bytes(rt: HostRuntime) {
    assert!(rt; code_at(&rt, rt.alloc(), 511) == 0);
    assert!(rt; code_at(&rt, rt.alloc(), 512) == 0);
    assert!(rt; code_at(&rt, rt.alloc(), 513) == 65);
    assert!(rt; code_at(&rt, rt.alloc(), 5000) == 65);
}

// Whether nothing is written where these calls fail, and the words are these.
fn is_fault<R: Abort>(
    rt: &R,
    alloc: Global,
    read_fails: u64,
    write_fails: u64,
    wanted: &[u8],
) -> bool {
    let run = Run {
        words: &["pw", "SHA"],
        input: b"abc\n",
        read_fails,
        write_fails,
    };
    let (status, output) = pw(rt, alloc, &run);
    let words = status.words(alloc).expect(rt, "memory");
    words.as_slice() == wanted && output.bytes().is_empty()
}

#[test]
fn a_fault_is_told_and_nothing_is_written(rt: HostRuntime) {
    assert!(rt; is_fault(&rt, rt.alloc(), 1, 0, b"read fault"));
    assert!(rt; is_fault(&rt, rt.alloc(), 2, 0, b"read fault"));
    assert!(rt; is_fault(&rt, rt.alloc(), 0, 1, b"write fault"));
}

const NAMES: [&str; 13] = [
    "PLAIN",
    "CLEAR",
    "CLEARTEXT",
    "PLAIN-MD5",
    "LDAP-MD5",
    "SHA",
    "SHA256",
    "SHA512",
    "SMD5",
    "SSHA",
    "SSHA256",
    "SSHA512",
    "SCRAM-SHA-256",
];

// Whether a line is read as a password of this scheme, which this plaintext alone matches.
fn is_read(alloc: Global, name: &str, line: &[u8]) -> bool {
    let Some((end, text)) = line.split_last() else {
        return false;
    };
    let Ok(stored) = Stored::read(alloc, Scheme::Plain, text) else {
        return false;
    };
    *end == b'\n'
        && Scheme::read(name.as_bytes()) == Some(stored.scheme())
        && stored.matches(b"pass word")
        && !stored.matches(b"pass word\n")
}

fn is_stored<R: Abort>(rt: &R, alloc: Global, name: &str) -> bool {
    let (_, output) = pw(rt, alloc, &a_run(&["pw", name], b"pass word\n"));
    is_read(alloc, name, output.bytes())
}

#[test]
fn what_is_stored_is_read_as_its_scheme_and_matches(rt: HostRuntime) {
    for name in NAMES {
        assert!(rt; is_stored(&rt, rt.alloc(), name));
    }
}

fn is_named<R: Abort>(rt: &R, alloc: Global, words: &[&str], named: Option<Command>) -> bool {
    command(&words_of(rt, alloc, words)) == named
}

#[test]
fn the_first_word_names_the_command(rt: HostRuntime) {
    let alloc = rt.alloc();
    assert!(rt; is_named(&rt, alloc, &["drive", "settings"], Some(Command::Drive)));
    assert!(rt; is_named(&rt, alloc, &["check"], Some(Command::Check)));
    assert!(rt; is_named(&rt, alloc, &["worker", "settings"], Some(Command::Worker)));
    assert!(rt; is_named(&rt, alloc, &["pw"], Some(Command::Pw)));
    assert!(rt; is_named(&rt, alloc, &["pw", "", "-"], Some(Command::Pw)));
    assert!(rt; is_named(&rt, alloc, &["PW", "SHA"], None));
    assert!(rt; is_named(&rt, alloc, &["-", "pw"], None));
    assert!(rt; is_named(&rt, alloc, &[], None));
}
