// What commands run over, in memory.

use da_outside::{MemFiles, MemSink, MemSource};
use std::alloc::Global;
use std::process::Abort;

pub fn words_of<R: Abort>(rt: &R, alloc: Global, list: &[&str]) -> Vec<String> {
    let mut words = Vec::new(alloc);
    for word in list {
        let word = String::from_str(alloc, word).expect(rt, "memory");
        words.push(word).expect(rt, "memory");
    }
    words
}

pub fn bytes_of<R: Abort>(rt: &R, alloc: Global, bytes: &[u8]) -> Vec<u8> {
    Vec::from_slice(alloc, bytes).expect(rt, "memory")
}

fn only<R: Abort>(rt: &R, alloc: Global, number: u64) -> Vec<u64> {
    Vec::from_slice(alloc, &[number]).expect(rt, "memory")
}

fn file<R: Abort>(rt: &R, alloc: Global, path: &[u8], text: &[u8]) -> (Vec<u8>, Vec<u8>) {
    (bytes_of(rt, alloc, path), bytes_of(rt, alloc, text))
}

/// The file `settings`.
pub fn settings_of<R: Abort>(rt: &R, alloc: Global, text: &[u8]) -> MemFiles {
    let mut held = Vec::new(alloc);
    held.push(file(rt, alloc, b"settings", text))
        .expect(rt, "memory");
    MemFiles::new(held, Vec::new(alloc))
}

/// The files `settings` and `users`, of which this call fails; none where it is 0.
pub fn two_files<R: Abort>(
    rt: &R,
    alloc: Global,
    settings: &[u8],
    users: &[u8],
    fails: u64,
) -> MemFiles {
    let mut held = Vec::new(alloc);
    held.push(file(rt, alloc, b"settings", settings))
        .expect(rt, "memory");
    held.push(file(rt, alloc, b"users", users))
        .expect(rt, "memory");
    MemFiles::new(held, only(rt, alloc, fails))
}

/// An input, of which this call fails; none where it is 0.
pub fn input_of<R: Abort>(rt: &R, alloc: Global, bytes: &[u8], fails: u64) -> MemSource {
    MemSource::new(bytes_of(rt, alloc, bytes), only(rt, alloc, fails))
}

/// An output, of which this call fails; none where it is 0.
pub fn output_of<R: Abort>(rt: &R, alloc: Global, fails: u64) -> MemSink {
    MemSink::new(alloc, only(rt, alloc, fails))
}
