// Looks at a server that is lent.

use crate::server::core_of;
use da_core::{Core, Goal};
use std::alloc::{AllocError, Global};

/// What plays events with a server and looks at it.
pub trait Look {
    /// Whether the server is as it should be, each time.
    fn is_right(&self, alloc: Global, core: &mut Core) -> Result<bool, AllocError>;
}

/// Whether a new `Core` looks right. Without settings none does.
pub fn looks_right<L: Look>(
    alloc: Global,
    settings: &[u8],
    goal: Option<Goal>,
    look: &L,
) -> Result<bool, AllocError> {
    let mut core = core_of(alloc, settings, goal)?;
    is_core_right(alloc, &mut core, look)
}

fn is_core_right<L: Look>(
    alloc: Global,
    core: &mut Option<Core>,
    look: &L,
) -> Result<bool, AllocError> {
    match core {
        Some(core) => look.is_right(alloc, core),
        None => Ok(false),
    }
}
