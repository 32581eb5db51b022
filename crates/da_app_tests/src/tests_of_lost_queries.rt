// Runs of `drive` in which workers die.

use crate::cases::are_as_told;
use da_scripts::lost_queries;

#[test]
fn a_lost_query_is_asked_once_more(rt: HostRuntime) {
    let cases = &lost_queries::A_LOST_QUERY_IS_ASKED_ONCE_MORE;
    assert!(rt; are_as_told(&rt, rt.alloc(), cases));
}

#[test]
fn another_failure_counts_at_once(rt: HostRuntime) {
    let cases = &lost_queries::ANOTHER_FAILURE_COUNTS_AT_ONCE;
    assert!(rt; are_as_told(&rt, rt.alloc(), cases));
}

#[test]
fn a_lost_query_looks_at_the_cache(rt: HostRuntime) {
    let cases = &lost_queries::A_LOST_QUERY_LOOKS_AT_THE_CACHE;
    assert!(rt; are_as_told(&rt, rt.alloc(), cases));
}

#[test]
fn a_lost_query_of_a_login_that_is_over_is_not_asked_again(rt: HostRuntime) {
    let cases = &lost_queries::A_LOST_QUERY_OF_A_LOGIN_THAT_IS_OVER_IS_NOT_ASKED_AGAIN;
    assert!(rt; are_as_told(&rt, rt.alloc(), cases));
}
