// Runs of `drive` in which connections open, speak and end.

use crate::cases::are_as_told;
use da_scripts::connections;

#[test]
fn a_first_login_is_answered(rt: HostRuntime) {
    let cases = &connections::A_FIRST_LOGIN_IS_ANSWERED;
    assert!(rt; are_as_told(&rt, rt.alloc(), cases));
}

#[test]
fn an_input_that_ends_within_a_line_is_told(rt: HostRuntime) {
    let cases = &connections::AN_INPUT_THAT_ENDS_WITHIN_A_LINE_IS_TOLD;
    assert!(rt; are_as_told(&rt, rt.alloc(), cases));
}

#[test]
fn connections_are_closed_for_what_they_say(rt: HostRuntime) {
    let cases = &connections::CONNECTIONS_ARE_CLOSED_FOR_WHAT_THEY_SAY;
    assert!(rt; are_as_told(&rt, rt.alloc(), cases));
}

#[test]
fn a_used_number_of_a_request_or_process_closes_the_connection(rt: HostRuntime) {
    let cases = &connections::A_USED_NUMBER_OF_A_REQUEST_OR_PROCESS_CLOSES_THE_CONNECTION;
    assert!(rt; are_as_told(&rt, rt.alloc(), cases));
}

#[test]
fn refused_events_get_a_line_and_the_play_goes_on(rt: HostRuntime) {
    let cases = &connections::REFUSED_EVENTS_GET_A_LINE_AND_THE_PLAY_GOES_ON;
    assert!(rt; are_as_told(&rt, rt.alloc(), cases));
}

#[test]
fn a_full_history_ends_the_play_before_its_event(rt: HostRuntime) {
    let cases = &connections::A_FULL_HISTORY_ENDS_THE_PLAY_BEFORE_ITS_EVENT;
    assert!(rt; are_as_told(&rt, rt.alloc(), cases));
}
