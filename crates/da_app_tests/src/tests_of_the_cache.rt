// Runs of `drive` in which answers are used again.

use crate::cases::are_as_told;
use da_scripts::the_cache;

#[test]
fn an_answer_is_used_again_until_its_life_ends(rt: HostRuntime) {
    let cases = &the_cache::AN_ANSWER_IS_USED_AGAIN_UNTIL_ITS_LIFE_ENDS;
    assert!(rt; are_as_told(&rt, rt.alloc(), cases));
}
