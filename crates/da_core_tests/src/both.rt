// One script, played by both servers.

use da_player::{replies_of_core, replies_of_plain};
use da_scripts::{Case, expanded};
use std::alloc::{AllocError, Global};

/// Whether these are the replies that the case tells.
pub fn is_as_told(
    alloc: Global,
    case: &Case,
    replies: &Option<Vec<u8>>,
) -> Result<bool, AllocError> {
    let told = expanded(alloc, case.output)?;
    match replies {
        Some(replies) => Ok(replies.as_slice() == told.as_slice()),
        None => Ok(false),
    }
}

/// Whether both servers give out the same bytes for the case's script, which are those that it tells.
fn is_played_alike(alloc: Global, case: &Case) -> Result<bool, AllocError> {
    let script = expanded(alloc, case.script)?;
    let plain = replies_of_plain(alloc, case.settings, &script)?;
    let core = replies_of_core(alloc, case.settings, &script)?;
    Ok(plain == core && is_as_told(alloc, case, &core)?)
}

/// Whether they do for each of these cases.
pub fn are_played_alike(alloc: Global, cases: &[Case]) -> Result<bool, AllocError> {
    for case in cases {
        if !is_played_alike(alloc, case)? {
            return Ok(false);
        }
    }
    Ok(true)
}
