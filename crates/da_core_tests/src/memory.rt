// A step that wants memory leaves the server as it was, so that the same step can be made again.

use crate::both::is_as_told;
use da_player::replies_of_core_again;
use da_scripts::{Case, delays, expanded};
use std::alloc::{AllocError, Global};
use std::test::Fail;

fn is_right(alloc: Global, case: &Case) -> Result<bool, AllocError> {
    let script = expanded(alloc, case.script)?;
    let replies = replies_of_core_again(alloc, case.settings, &script)?;
    is_as_told(alloc, case, &replies)
}

/// Whether something else than the case tells was given out. Where memory is wanted outside a step, nothing is.
fn is_wrong(alloc: Global, case: &Case) -> bool {
    matches!(is_right(alloc, case), Ok(false))
}

#[test]
fn a_step_that_wants_memory_can_be_made_again(rt: HostRuntime) -> Result<(), Fail> {
    for case in &delays::A_FAILURE_IS_TOLD_WHEN_IT_IS_DUE {
        assert!(rt; !is_wrong(rt.alloc(), case));
    }
    Ok(())
}
