// Runs of `drive` in which failures are held back, and answers come late.

use crate::cases::are_as_told;
use da_scripts::delays;

#[test]
fn a_failure_is_told_when_it_is_due(rt: HostRuntime) {
    let cases = &delays::A_FAILURE_IS_TOLD_WHEN_IT_IS_DUE;
    assert!(rt; are_as_told(&rt, rt.alloc(), cases));
}

#[test]
fn failures_due_at_once_stand_in_the_order_of_their_requests(rt: HostRuntime) {
    let cases = &delays::FAILURES_DUE_AT_ONCE_STAND_IN_THE_ORDER_OF_THEIR_REQUESTS;
    assert!(rt; are_as_told(&rt, rt.alloc(), cases));
}

#[test]
fn a_query_is_late_at_its_limit_and_its_answer_is_refused(rt: HostRuntime) {
    let cases = &delays::A_QUERY_IS_LATE_AT_ITS_LIMIT_AND_ITS_ANSWER_IS_REFUSED;
    assert!(rt; are_as_told(&rt, rt.alloc(), cases));
}
