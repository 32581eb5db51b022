// Each command by its words, with the code that the program ends with, and how the program is used.

use crate::complaints::tell;
use crate::run;
use da_app::Status;
use da_outside::{MemSink, MemSource};
use std::alloc::{AllocError, Global};
use std::test::Fail;
use std::{fs, io};

/// A command line, its input, the numbers of the read and of the write that fail, its code, and what it writes.
type Case = (&'static str, &'static [u8], u64, u64, u8, &'static [u8]);

const GREETING: &[u8] = b"1 > 1 VERSION\t1\t2\n\
1 > 1 MECH\tPLAIN\tplaintext\n\
1 > 1 SPID\t1\n\
1 > 1 CUID\t1\n\
1 > 1 COOKIE\t00000000000000000000000000000000\n\
1 > 1 DONE\n";

const OPEN: &[u8] = b"1000 open client -\n";

const TWICE: &[u8] = b"1000 open client -\n1001 open client -\n";

const CUT: &[u8] = b"1000 open client -\n1001 ti";

const QUERY: &[u8] = b"PASS\t1\t1\talice\n";

const CASES: [Case; 16] = [
    ("", b"", 0, 0, 64, b""),
    ("sing settings", b"", 0, 0, 64, b""),
    ("check settings", b"", 0, 0, 0, b"ok 1 1\n"),
    ("check settings", b"", 0, 1, 74, b""),
    ("check missing", b"", 0, 0, 66, b""),
    ("check bad", b"", 0, 0, 78, b""),
    ("worker settings", QUERY, 0, 0, 0, b"FOUND\t1\t{PLAIN}pw\n"),
    ("worker settings", b"PASS\n", 0, 0, 65, b""),
    ("worker settings", QUERY, 1, 0, 74, b""),
    (
        "pw SHA",
        b"abc\n",
        0,
        0,
        0,
        b"{SHA}qZk+NkcGgWq6PiVxeFDCbJzQ2J0=\n",
    ),
    ("pw SHA", b"abc", 0, 0, 65, b""),
    ("pw CRYPT", b"abc\n", 0, 0, 64, b""),
    ("drive settings", OPEN, 0, 0, 0, GREETING),
    ("drive settings", CUT, 0, 0, 65, GREETING),
    ("drive settings", OPEN, 1, 0, 74, b""),
    ("drive full", TWICE, 0, 0, 75, GREETING),
];

fn write_files(rt: &HostRuntime) -> io::Result<()> {
    let settings = "passdb = [{driver = \"passwd-file\", args = \"users\"}]\n\
userdb = [{driver = \"passwd-file\", args = \"users\"}]\n";
    fs::write(rt, "settings", settings)?;
    fs::write(rt, "users", "alice:{PLAIN}pw\n")?;
    fs::write(rt, "full", "history_entries = 1\n")?;
    fs::write(rt, "bad", "\"a\\u001B[2J\" = 1\n")
}

fn words_of(alloc: Global, line: &str) -> Result<Vec<String>, AllocError> {
    let mut words = Vec::new(alloc);
    for word in line.split(' ') {
        words.push(String::from_str(alloc, word)?)?;
    }
    Ok(words)
}

fn ended(rt: &HostRuntime, case: &Case) -> Result<(Status, MemSink), Fail> {
    let alloc = rt.alloc();
    let words = words_of(alloc, case.0)?;
    let bytes = Vec::from_slice(alloc, case.1)?;
    let mut input = MemSource::new(bytes, vec![in alloc; case.2]?);
    let mut output = MemSink::new(alloc, vec![in alloc; case.3]?);
    let status = run(rt, alloc, &words, &mut input, &mut output)?;
    Ok((status, output))
}

fn is_right(rt: &HostRuntime, case: &Case) -> Result<bool, Fail> {
    let (status, output) = ended(rt, case)?;
    Ok(status.code() == case.4 && output.bytes() == case.5)
}

#[test]
fn each_command_ends_with_its_code(rt: HostRuntime) -> Result<(), Fail> {
    write_files(&rt)?;
    for case in CASES {
        assert!(rt; is_right(&rt, &case)?);
    }
    Ok(())
}

// What is told of the end of this command line.
fn complaint(rt: &HostRuntime, line: &'static str) -> Result<MemSink, Fail> {
    let alloc = rt.alloc();
    let (status, _) = ended(rt, &(line, b"", 0, 0, 0, b""))?;
    let mut told = MemSink::new(alloc, Vec::new(alloc));
    tell(alloc, &mut told, &status);
    Ok(told)
}

#[test]
fn what_is_told_has_no_control_bytes(rt: HostRuntime) -> Result<(), Fail> {
    write_files(&rt)?;
    let told = complaint(&rt, "check bad")?;
    assert_eq!(rt;
        told.bytes(),
        b"dauth: bad settings at a?[2J: unknown\n".as_slice()
    );
    let told = complaint(&rt, "check settings")?;
    assert_eq!(rt; told.bytes(), b"".as_slice());
    Ok(())
}

// Whether the text has a line that begins with this word.
fn has_line_of(text: &[u8], word: &[u8]) -> bool {
    text.split(|byte| *byte == b'\n')
        .any(|line| line.trim_ascii_start().starts_with(word))
}

#[test]
fn the_usage_names_each_command(rt: HostRuntime) -> Result<(), Fail> {
    let alloc = rt.alloc();
    let mut told = MemSink::new(alloc, Vec::new(alloc));
    tell(alloc, &mut told, &Status::Usage);
    assert!(rt; told.bytes().starts_with(b"dauth: usage\n"));
    for name in b"drive|check|worker|pw|serve".split(|byte| *byte == b'|') {
        assert!(rt; has_line_of(told.bytes(), name));
    }
    assert!(rt;
        told.bytes()
            .split(|byte| *byte == b'\n')
            .all(|line| line.len() <= 80)
    );
    Ok(())
}
