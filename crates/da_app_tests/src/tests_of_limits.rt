// Runs of `drive` in which logins take too long.

use crate::cases::are_as_told;
use da_scripts::limits;

#[test]
fn a_login_is_timed_out_at_its_limit(rt: HostRuntime) {
    let cases = &limits::A_LOGIN_IS_TIMED_OUT_AT_ITS_LIMIT;
    assert!(rt; are_as_told(&rt, rt.alloc(), cases));
}

#[test]
fn a_message_renews_no_limit(rt: HostRuntime) {
    let cases = &limits::A_MESSAGE_RENEWS_NO_LIMIT;
    assert!(rt; are_as_told(&rt, rt.alloc(), cases));
}

#[test]
fn an_event_at_the_limit_comes_too_late(rt: HostRuntime) {
    let cases = &limits::AN_EVENT_AT_THE_LIMIT_COMES_TOO_LATE;
    assert!(rt; are_as_told(&rt, rt.alloc(), cases));
}

#[test]
fn replies_stand_in_the_order_of_their_moments(rt: HostRuntime) {
    let cases = &limits::REPLIES_STAND_IN_THE_ORDER_OF_THEIR_MOMENTS;
    assert!(rt; are_as_told(&rt, rt.alloc(), cases));
}

#[test]
fn a_timed_out_login_is_handed_to_nobody(rt: HostRuntime) {
    let cases = &limits::A_TIMED_OUT_LOGIN_IS_HANDED_TO_NOBODY;
    assert!(rt; are_as_told(&rt, rt.alloc(), cases));
}

#[test]
fn a_masters_request_has_no_limit(rt: HostRuntime) {
    let cases = &limits::A_MASTERS_REQUEST_HAS_NO_LIMIT;
    assert!(rt; are_as_told(&rt, rt.alloc(), cases));
}

#[test]
fn the_answer_to_a_timed_out_login_is_used_again(rt: HostRuntime) {
    let cases = &limits::THE_ANSWER_TO_A_TIMED_OUT_LOGIN_IS_USED_AGAIN;
    assert!(rt; are_as_told(&rt, rt.alloc(), cases));
}
