// A script that ends after any of its bytes.

use crate::login::{Play, line_ends, played, replies_to};
use da_app::Status;
use da_scripts::first_login::SCRIPT;
use std::alloc::Global;
use std::process::Abort;

// Whether the status is that of a script which ends so, with so many whole lines before.
fn is_end_of(script: &[u8], lines: u64, status: &Status) -> bool {
    let is_whole = script.is_empty() || script.ends_with(b"\n");
    match status {
        Status::Done => is_whole,
        Status::BadScript { line } => !is_whole && *line == lines.saturating_add(1),
        _ => false,
    }
}

// Whether the play of this script ends as its end says, with the replies to its whole lines.
fn is_cut_right<R: Abort>(rt: &R, alloc: Global, script: &[u8]) -> bool {
    let play = Play {
        script,
        most: 0,
        read_fails: 0,
        write_fails: 0,
    };
    let (status, output) = played(rt, alloc, &play);
    let lines = line_ends(script);
    is_end_of(script, lines, &status) && output.inner.bytes() == replies_to(lines)
}

#[test]
fn a_script_is_played_up_to_its_last_whole_line(rt: HostRuntime) {
    for count in 0..SCRIPT.len() + 1 {
        assert!(rt; is_cut_right(&rt, rt.alloc(), &SCRIPT[..count]));
    }
}
