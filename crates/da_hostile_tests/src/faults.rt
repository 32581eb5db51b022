// A first login whose input or output fails at any of its calls.

use crate::login::{Play, is_told, line_ends, played, replies_to};
use da_scripts::first_login::{REPLIES, SCRIPT};
use std::alloc::Global;
use std::process::Abort;

// Whether a play whose input fails at this read, after so many bytes, ends by the fault with the replies to the lines before.
fn is_read_until<R: Abort>(rt: &R, alloc: Global, most: usize, read: u64, before: usize) -> bool {
    let play = Play {
        script: SCRIPT,
        most,
        read_fails: read,
        write_fails: 0,
    };
    let (status, output) = played(rt, alloc, &play);
    is_told(rt, alloc, &status, b"read fault")
        && output.inner.bytes() == replies_to(line_ends(&SCRIPT[..before.min(SCRIPT.len())]))
}

// Each read gives one byte. One read more finds that nothing comes after them.
#[test]
fn a_read_that_fails_ends_the_play_after_its_lines(rt: HostRuntime) {
    for before in 0..=SCRIPT.len() {
        let read = (before as u64).saturating_add(1);
        assert!(rt; is_read_until(&rt, rt.alloc(), 1, read, before));
    }
}

// The first read gives the whole script, and the second finds its end.
#[test]
fn a_block_that_cannot_be_read_ends_the_play(rt: HostRuntime) {
    assert!(rt; is_read_until(&rt, rt.alloc(), 0, 1, 0));
    assert!(rt; is_read_until(&rt, rt.alloc(), 0, 2, SCRIPT.len()));
}

// Whether a play whose output fails at this write ends by the fault, with so many bytes of its replies written.
fn is_written_until<R: Abort>(
    rt: &R,
    alloc: Global,
    most: usize,
    write: u64,
    before: usize,
) -> bool {
    let play = Play {
        script: SCRIPT,
        most,
        read_fails: 0,
        write_fails: write,
    };
    let (status, output) = played(rt, alloc, &play);
    let written = output.inner.bytes();
    is_told(rt, alloc, &status, b"write fault")
        && written.len() == before
        && REPLIES.starts_with(written)
}

// Each write takes one byte.
#[test]
fn a_write_that_fails_leaves_a_front_of_the_replies(rt: HostRuntime) {
    for before in 0..REPLIES.len() {
        let write = (before as u64).saturating_add(1);
        assert!(rt; is_written_until(&rt, rt.alloc(), 1, write, before));
    }
}

// Three events have replies, of which each is one write.
#[test]
fn a_reply_that_cannot_be_written_ends_the_play(rt: HostRuntime) {
    let mut write = 1u64;
    for events in [0, 1, 5] {
        let before = replies_to(events).len();
        assert!(rt; is_written_until(&rt, rt.alloc(), 0, write, before));
        write = write.saturating_add(1);
    }
}
