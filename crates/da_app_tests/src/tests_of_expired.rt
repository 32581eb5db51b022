// Runs of `drive` in which passwords are expired.

use crate::cases::are_as_told;
use da_scripts::expired;

#[test]
fn an_expired_password_lets_nobody_in(rt: HostRuntime) {
    let cases = &expired::AN_EXPIRED_PASSWORD_LETS_NOBODY_IN;
    assert!(rt; are_as_told(&rt, rt.alloc(), cases));
}

#[test]
fn an_expired_password_is_told_after_the_delay(rt: HostRuntime) {
    let cases = &expired::AN_EXPIRED_PASSWORD_IS_TOLD_AFTER_THE_DELAY;
    assert!(rt; are_as_told(&rt, rt.alloc(), cases));
}

#[test]
fn only_an_end_with_success_is_expired(rt: HostRuntime) {
    let cases = &expired::ONLY_AN_END_WITH_SUCCESS_IS_EXPIRED;
    assert!(rt; are_as_told(&rt, rt.alloc(), cases));
}

#[test]
fn a_wrong_proof_is_not_told_as_expired(rt: HostRuntime) {
    let cases = &expired::A_WRONG_PROOF_IS_NOT_TOLD_AS_EXPIRED;
    assert!(rt; are_as_told(&rt, rt.alloc(), cases));
}

#[test]
fn an_expired_login_is_handed_to_nobody(rt: HostRuntime) {
    let cases = &expired::AN_EXPIRED_LOGIN_IS_HANDED_TO_NOBODY;
    assert!(rt; are_as_told(&rt, rt.alloc(), cases));
}

#[test]
fn an_expired_answer_is_used_again(rt: HostRuntime) {
    let cases = &expired::AN_EXPIRED_ANSWER_IS_USED_AGAIN;
    assert!(rt; are_as_told(&rt, rt.alloc(), cases));
}
