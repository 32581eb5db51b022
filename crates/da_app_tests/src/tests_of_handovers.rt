// Runs of `drive` in which a login is handed over to a mail process.

use crate::cases::are_as_told;
use da_scripts::handovers;

#[test]
fn a_used_id_is_not_granted_again(rt: HostRuntime) {
    let cases = &handovers::A_USED_ID_IS_NOT_GRANTED_AGAIN;
    assert!(rt; are_as_told(&rt, rt.alloc(), cases));
}

#[test]
fn a_login_that_is_late_or_gone_is_not_handed_over(rt: HostRuntime) {
    let cases = &handovers::A_LOGIN_THAT_IS_LATE_OR_GONE_IS_NOT_HANDED_OVER;
    assert!(rt; are_as_told(&rt, rt.alloc(), cases));
}

#[test]
fn fields_of_the_password_database_are_handed_over(rt: HostRuntime) {
    let cases = &handovers::FIELDS_OF_THE_PASSWORD_DATABASE_ARE_HANDED_OVER;
    assert!(rt; are_as_told(&rt, rt.alloc(), cases));
}
