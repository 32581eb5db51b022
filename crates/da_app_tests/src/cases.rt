// Scripts that `drive` plays.

use crate::runs::{output_of, settings_of, words_of};
use da_app::run_drive;
use da_outside::MemSource;
use da_scripts::{Case, expanded};
use std::alloc::{AllocError, Global};
use std::process::Abort;
use std::test::Fail;

fn is_as_told<R: Abort>(rt: &R, alloc: Global, case: &Case) -> bool {
    let words = words_of(rt, alloc, &["drive", "settings"]);
    let mut files = settings_of(rt, alloc, case.settings);
    let script = expanded(alloc, case.script).expect(rt, "memory");
    let mut input = MemSource::new(script, Vec::new(alloc));
    let mut output = output_of(rt, alloc, 0);
    let status = run_drive(alloc, &words, &mut files, &mut input, &mut output);
    let end = status.words(alloc).expect(rt, "memory");
    let wanted = expanded(alloc, case.output).expect(rt, "memory");
    output.bytes() == wanted.as_slice() && end.as_slice() == case.end
}

/// Whether each script is played as its case says.
pub fn are_as_told<R: Abort>(rt: &R, alloc: Global, cases: &[Case]) -> bool {
    let mut right = true;
    for case in cases {
        let told = is_as_told(rt, alloc, case);
        right = right && told;
    }
    right
}

const SHORT: &[u8] = b"I 1 20 3\n4 line 1 - ~x\n5 ti";

const LONG: &[u8] =
    b"1 open client -\n20 line 1 - VERSION\t1\t1\n3 line 1 - CPID\t4711\n4 line 1 - \tx\n5 ti";

const GREETING: &[u8] =
    b"3 > 12 VERSION\t1\t2\n3 > 12 MECH\tPLAIN\tplaintext\n3 > 12 SPID\t1\n3 > 12 CUID\t12\n\
3 > 12 COOKIE\t00000000000000000000000000000000\n3 > 12 DONE\n";

fn stands_for(alloc: Global, short: &[u8], long: &[u8]) -> Result<bool, AllocError> {
    Ok(expanded(alloc, short)?.as_slice() == long)
}

#[test]
fn short_lines_stand_for_their_lines(rt: HostRuntime) -> Result<(), Fail> {
    assert!(rt; stands_for(rt.alloc(), SHORT, LONG)?);
    assert!(rt; stands_for(rt.alloc(), b"H 3 12\n", GREETING)?);
    assert!(rt; stands_for(rt.alloc(), b"", b"")?);
    Ok(())
}
