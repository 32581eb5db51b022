// Runs of `drive` over several password databases.

use crate::cases::are_as_told;
use da_scripts::databases;

#[test]
fn a_database_that_fails_leaves_the_login_open(rt: HostRuntime) {
    let cases = &databases::A_DATABASE_THAT_FAILS_LEAVES_THE_LOGIN_OPEN;
    assert!(rt; are_as_told(&rt, rt.alloc(), cases));
}

#[test]
fn a_database_that_denies_or_fails_to_is_the_last(rt: HostRuntime) {
    let cases = &databases::A_DATABASE_THAT_DENIES_OR_FAILS_TO_IS_THE_LAST;
    assert!(rt; are_as_told(&rt, rt.alloc(), cases));
}

#[test]
fn a_master_logs_in_for_a_user_who_is_there(rt: HostRuntime) {
    let cases = &databases::A_MASTER_LOGS_IN_FOR_A_USER_WHO_IS_THERE;
    assert!(rt; are_as_told(&rt, rt.alloc(), cases));
}

#[test]
fn a_later_mismatch_keeps_the_success_and_its_fields(rt: HostRuntime) {
    let cases = &databases::A_LATER_MISMATCH_KEEPS_THE_SUCCESS_AND_ITS_FIELDS;
    assert!(rt; are_as_told(&rt, rt.alloc(), cases));
}
