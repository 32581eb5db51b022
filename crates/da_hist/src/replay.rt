// The replay of a history.

ghost use Rattle.std.specs.Prelude.{◌≡◌, ◌<◌, ◌-◌, ◌^◌, length, IfOk, reverse};
ghost use Rattle.da_entry.specs.Bridges.{IsReplayed};

use da_entry::Replayed;
use da_play::Entry;
use da_settings::Settings;
use std::alloc::{AllocError, Global};

/// Goes through the entries of a history, the oldest first.
pub(crate) fn replay(
    alloc: Global,
    settings: &Settings,
    entries: &[Entry],
) -> Result<Replayed, AllocError>
    requires { length entries.now < 2 ^ 32 - 1 }
    ensures { IfOk result (IsReplayed settings.now (reverse entries.now)) }
{
    let mut replayed = Replayed::new(alloc, settings);
    for entry in entries {
        replayed.pass(alloc, settings, entry)?;
    }
    Ok(replayed)
}
