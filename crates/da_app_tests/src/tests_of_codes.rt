// Runs of `drive` in which failures are told with their codes.

use crate::cases::are_as_told;
use da_scripts::codes;

#[test]
fn a_failure_is_told_with_its_code(rt: HostRuntime) {
    let cases = &codes::A_FAILURE_IS_TOLD_WITH_ITS_CODE;
    assert!(rt; are_as_told(&rt, rt.alloc(), cases));
}

#[test]
fn a_master_login_has_the_first_code_that_applies(rt: HostRuntime) {
    let cases = &codes::A_MASTER_LOGIN_HAS_THE_FIRST_CODE_THAT_APPLIES;
    assert!(rt; are_as_told(&rt, rt.alloc(), cases));
}

#[test]
fn codes_are_for_clients_that_know_them(rt: HostRuntime) {
    let cases = &codes::CODES_ARE_FOR_CLIENTS_THAT_KNOW_THEM;
    assert!(rt; are_as_told(&rt, rt.alloc(), cases));
}
