// What is held in memory.

use std::alloc::Global;
use std::process::Abort;

pub fn bytes_of<R: Abort>(rt: &R, alloc: Global, bytes: &[u8]) -> Vec<u8> {
    Vec::from_slice(alloc, bytes).expect(rt, "memory")
}

/// The numbers of the calls that fail.
pub fn calls_of<R: Abort>(rt: &R, alloc: Global, calls: &[u64]) -> Vec<u64> {
    Vec::from_slice(alloc, calls).expect(rt, "memory")
}
