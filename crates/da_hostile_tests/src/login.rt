// A first login by `drive`, over streams that fail.

use da_app::{Status, run_drive};
use da_outside::{MemFiles, MemSink, MemSource, SlowSink, SlowSource};
use da_scripts::first_login::{ASKED, GREETING, REPLIES, SCRIPT};
use std::alloc::Global;
use std::process::Abort;

/// How many lines these bytes end.
pub fn line_ends(bytes: &[u8]) -> u64 {
    let mut count = 0u64;
    for byte in bytes {
        if *byte == b'\n' {
            count = count.saturating_add(1);
        }
    }
    count
}

/// What is written for so many lines of the script.
pub fn replies_to(lines: u64) -> &'static [u8] {
    match lines {
        0 => b"",
        1..=4 => GREETING,
        5 => ASKED,
        _ => REPLIES,
    }
}

/// A play of a script whose input passes so many bytes a read at most, whose output takes so many a write, and which fail
/// at these of their calls, counted from 1; 0 for none, and 0 bytes for no limit.
#[derive(Clone, Copy, Drop)]
pub struct Play<'a> {
    pub script: &'a [u8],
    pub most: usize,
    pub read_fails: u64,
    pub write_fails: u64,
}

fn bytes_of<R: Abort>(rt: &R, alloc: Global, bytes: &[u8]) -> Vec<u8> {
    Vec::from_slice(alloc, bytes).expect(rt, "memory")
}

fn words_of<R: Abort>(rt: &R, alloc: Global) -> Vec<String> {
    let mut words = Vec::new(alloc);
    for word in ["drive", "settings"] {
        let word = String::from_str(alloc, word).expect(rt, "memory");
        words.push(word).expect(rt, "memory");
    }
    words
}

fn files_of<R: Abort>(rt: &R, alloc: Global) -> MemFiles {
    let file = (
        bytes_of(rt, alloc, b"settings"),
        bytes_of(rt, alloc, b"failure_delay = 0\n"),
    );
    let mut files = Vec::new(alloc);
    files.push(file).expect(rt, "memory");
    MemFiles::new(files, Vec::new(alloc))
}

fn only<R: Abort>(rt: &R, alloc: Global, number: u64) -> Vec<u64> {
    Vec::from_slice(alloc, &[number]).expect(rt, "memory")
}

fn input_of<R: Abort>(rt: &R, alloc: Global, play: &Play<'_>) -> SlowSource {
    let script = bytes_of(rt, alloc, play.script);
    SlowSource {
        inner: MemSource::new(script, only(rt, alloc, play.read_fails)),
        most: play.most,
    }
}

fn output_of<R: Abort>(rt: &R, alloc: Global, play: &Play<'_>) -> SlowSink {
    SlowSink {
        inner: MemSink::new(alloc, only(rt, alloc, play.write_fails)),
        most: play.most,
    }
}

/// Plays it, and tells how that ended and what was written.
pub fn played<R: Abort>(rt: &R, alloc: Global, play: &Play<'_>) -> (Status, SlowSink) {
    let words = words_of(rt, alloc);
    let mut files = files_of(rt, alloc);
    let mut input = input_of(rt, alloc, play);
    let mut output = output_of(rt, alloc, play);
    let status = run_drive(alloc, &words, &mut files, &mut input, &mut output);
    (status, output)
}

/// Whether the words of a status are these.
pub fn is_told<R: Abort>(rt: &R, alloc: Global, status: &Status, wanted: &[u8]) -> bool {
    status.words(alloc).expect(rt, "memory").as_slice() == wanted
}
