// The scripts of all worked runs, played by both servers.

use crate::both::are_played_alike;
use da_scripts::{
    Case, codes, connections, databases, delays, expired, handovers, limits, lost_queries,
    mechanisms, the_cache, whole_paths,
};
use std::alloc::{AllocError, Global};
use std::test::Fail;

/// Whether both servers play the scripts of each of these tables alike.
fn are_all_alike(alloc: Global, tables: &[&[Case]]) -> Result<bool, AllocError> {
    for cases in tables {
        if !are_played_alike(alloc, cases)? {
            return Ok(false);
        }
    }
    Ok(true)
}

#[test]
fn scripts_of_connections_are_played_alike(rt: HostRuntime) -> Result<(), Fail> {
    let tables: [&[Case]; 6] = [
        &connections::A_FIRST_LOGIN_IS_ANSWERED,
        &connections::AN_INPUT_THAT_ENDS_WITHIN_A_LINE_IS_TOLD,
        &connections::CONNECTIONS_ARE_CLOSED_FOR_WHAT_THEY_SAY,
        &connections::A_USED_NUMBER_OF_A_REQUEST_OR_PROCESS_CLOSES_THE_CONNECTION,
        &connections::REFUSED_EVENTS_GET_A_LINE_AND_THE_PLAY_GOES_ON,
        &connections::A_FULL_HISTORY_ENDS_THE_PLAY_BEFORE_ITS_EVENT,
    ];
    assert!(rt; are_all_alike(rt.alloc(), &tables)?);
    Ok(())
}

#[test]
fn scripts_of_codes_are_played_alike(rt: HostRuntime) -> Result<(), Fail> {
    let tables: [&[Case]; 3] = [
        &codes::A_FAILURE_IS_TOLD_WITH_ITS_CODE,
        &codes::A_MASTER_LOGIN_HAS_THE_FIRST_CODE_THAT_APPLIES,
        &codes::CODES_ARE_FOR_CLIENTS_THAT_KNOW_THEM,
    ];
    assert!(rt; are_all_alike(rt.alloc(), &tables)?);
    Ok(())
}

#[test]
fn scripts_of_expired_passwords_are_played_alike(rt: HostRuntime) -> Result<(), Fail> {
    let tables: [&[Case]; 6] = [
        &expired::AN_EXPIRED_PASSWORD_LETS_NOBODY_IN,
        &expired::AN_EXPIRED_PASSWORD_IS_TOLD_AFTER_THE_DELAY,
        &expired::ONLY_AN_END_WITH_SUCCESS_IS_EXPIRED,
        &expired::A_WRONG_PROOF_IS_NOT_TOLD_AS_EXPIRED,
        &expired::AN_EXPIRED_LOGIN_IS_HANDED_TO_NOBODY,
        &expired::AN_EXPIRED_ANSWER_IS_USED_AGAIN,
    ];
    assert!(rt; are_all_alike(rt.alloc(), &tables)?);
    Ok(())
}

#[test]
fn scripts_of_databases_are_played_alike(rt: HostRuntime) -> Result<(), Fail> {
    let tables: [&[Case]; 4] = [
        &databases::A_DATABASE_THAT_FAILS_LEAVES_THE_LOGIN_OPEN,
        &databases::A_DATABASE_THAT_DENIES_OR_FAILS_TO_IS_THE_LAST,
        &databases::A_MASTER_LOGS_IN_FOR_A_USER_WHO_IS_THERE,
        &databases::A_LATER_MISMATCH_KEEPS_THE_SUCCESS_AND_ITS_FIELDS,
    ];
    assert!(rt; are_all_alike(rt.alloc(), &tables)?);
    Ok(())
}

#[test]
fn scripts_of_delays_are_played_alike(rt: HostRuntime) -> Result<(), Fail> {
    let tables: [&[Case]; 3] = [
        &delays::A_FAILURE_IS_TOLD_WHEN_IT_IS_DUE,
        &delays::FAILURES_DUE_AT_ONCE_STAND_IN_THE_ORDER_OF_THEIR_REQUESTS,
        &delays::A_QUERY_IS_LATE_AT_ITS_LIMIT_AND_ITS_ANSWER_IS_REFUSED,
    ];
    assert!(rt; are_all_alike(rt.alloc(), &tables)?);
    Ok(())
}

#[test]
fn scripts_of_handovers_are_played_alike(rt: HostRuntime) -> Result<(), Fail> {
    let tables: [&[Case]; 3] = [
        &handovers::A_USED_ID_IS_NOT_GRANTED_AGAIN,
        &handovers::A_LOGIN_THAT_IS_LATE_OR_GONE_IS_NOT_HANDED_OVER,
        &handovers::FIELDS_OF_THE_PASSWORD_DATABASE_ARE_HANDED_OVER,
    ];
    assert!(rt; are_all_alike(rt.alloc(), &tables)?);
    Ok(())
}

#[test]
fn scripts_of_limits_are_played_alike(rt: HostRuntime) -> Result<(), Fail> {
    let tables: [&[Case]; 7] = [
        &limits::A_LOGIN_IS_TIMED_OUT_AT_ITS_LIMIT,
        &limits::A_MESSAGE_RENEWS_NO_LIMIT,
        &limits::AN_EVENT_AT_THE_LIMIT_COMES_TOO_LATE,
        &limits::REPLIES_STAND_IN_THE_ORDER_OF_THEIR_MOMENTS,
        &limits::A_TIMED_OUT_LOGIN_IS_HANDED_TO_NOBODY,
        &limits::A_MASTERS_REQUEST_HAS_NO_LIMIT,
        &limits::THE_ANSWER_TO_A_TIMED_OUT_LOGIN_IS_USED_AGAIN,
    ];
    assert!(rt; are_all_alike(rt.alloc(), &tables)?);
    Ok(())
}

#[test]
fn scripts_of_lost_queries_are_played_alike(rt: HostRuntime) -> Result<(), Fail> {
    let tables: [&[Case]; 4] = [
        &lost_queries::A_LOST_QUERY_IS_ASKED_ONCE_MORE,
        &lost_queries::ANOTHER_FAILURE_COUNTS_AT_ONCE,
        &lost_queries::A_LOST_QUERY_LOOKS_AT_THE_CACHE,
        &lost_queries::A_LOST_QUERY_OF_A_LOGIN_THAT_IS_OVER_IS_NOT_ASKED_AGAIN,
    ];
    assert!(rt; are_all_alike(rt.alloc(), &tables)?);
    Ok(())
}

#[test]
fn scripts_of_mechanisms_are_played_alike(rt: HostRuntime) -> Result<(), Fail> {
    let tables: [&[Case]; 2] = [
        &mechanisms::LOGIN_ASKS_FOR_THE_NAME_AND_THE_PASSWORD,
        &mechanisms::SCRAM_GOES_ON_WITH_STORED_KEYS_ALONE,
    ];
    assert!(rt; are_all_alike(rt.alloc(), &tables)?);
    Ok(())
}

#[test]
fn scripts_of_the_cache_are_played_alike(rt: HostRuntime) -> Result<(), Fail> {
    let tables: [&[Case]; 1] = [&the_cache::AN_ANSWER_IS_USED_AGAIN_UNTIL_ITS_LIFE_ENDS];
    assert!(rt; are_all_alike(rt.alloc(), &tables)?);
    Ok(())
}

#[test]
fn scripts_of_whole_paths_are_played_alike(rt: HostRuntime) -> Result<(), Fail> {
    let tables: [&[Case]; 4] = [
        &whole_paths::PROGRAMS_CHECK_PASSWORDS,
        &whole_paths::FAILURES_ARE_TOLD_WITH_THEIR_REASON,
        &whole_paths::USERS_ARE_LOOKED_UP,
        &whole_paths::A_HISTORY_IS_FULL_BY_ITS_BYTES,
    ];
    assert!(rt; are_all_alike(rt.alloc(), &tables)?);
    Ok(())
}

#[test]
fn logins_that_come_to_their_end_are_played_alike(rt: HostRuntime) -> Result<(), Fail> {
    let cases = &whole_paths::LOGINS_COME_TO_THEIR_END;
    assert!(rt; are_played_alike(rt.alloc(), cases)?);
    Ok(())
}
