// Runs of `drive` by other mechanisms than PLAIN.

use crate::cases::are_as_told;
use da_scripts::mechanisms;

#[test]
fn login_asks_for_the_name_and_the_password(rt: HostRuntime) {
    let cases = &mechanisms::LOGIN_ASKS_FOR_THE_NAME_AND_THE_PASSWORD;
    assert!(rt; are_as_told(&rt, rt.alloc(), cases));
}

#[test]
fn cram_md5_sends_a_challenge(rt: HostRuntime) {
    let cases = &mechanisms::CRAM_MD5_SENDS_A_CHALLENGE;
    assert!(rt; are_as_told(&rt, rt.alloc(), cases));
}

#[test]
fn scram_goes_on_with_stored_keys_alone(rt: HostRuntime) {
    let cases = &mechanisms::SCRAM_GOES_ON_WITH_STORED_KEYS_ALONE;
    assert!(rt; are_as_told(&rt, rt.alloc(), cases));
}
