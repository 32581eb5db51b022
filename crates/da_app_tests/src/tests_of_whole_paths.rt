// Runs of `drive` along paths that no other test takes: logins to their end by each mechanism, programs that check
// passwords, failures that are told by a reason, users looked up from the cache, and a history that is full by its bytes.

use crate::cases::are_as_told;
use da_scripts::whole_paths;

#[test]
fn logins_come_to_their_end(rt: HostRuntime) {
    let cases = &whole_paths::LOGINS_COME_TO_THEIR_END;
    assert!(rt; are_as_told(&rt, rt.alloc(), cases));
}

#[test]
fn programs_check_passwords(rt: HostRuntime) {
    let cases = &whole_paths::PROGRAMS_CHECK_PASSWORDS;
    assert!(rt; are_as_told(&rt, rt.alloc(), cases));
}

#[test]
fn failures_are_told_with_their_reason(rt: HostRuntime) {
    let cases = &whole_paths::FAILURES_ARE_TOLD_WITH_THEIR_REASON;
    assert!(rt; are_as_told(&rt, rt.alloc(), cases));
}

#[test]
fn users_are_looked_up(rt: HostRuntime) {
    let cases = &whole_paths::USERS_ARE_LOOKED_UP;
    assert!(rt; are_as_told(&rt, rt.alloc(), cases));
}

#[test]
fn a_history_is_full_by_its_bytes(rt: HostRuntime) {
    let cases = &whole_paths::A_HISTORY_IS_FULL_BY_ITS_BYTES;
    assert!(rt; are_as_told(&rt, rt.alloc(), cases));
}
