// The settings file of a command.

ghost use Rattle.std.specs.Prelude.{◌≡◌, IfOk};
ghost use Rattle.da_config.specs.declared.fault.FaultKind.TheVariants.{Range};
ghost use Rattle.da_config.specs.SettingsText.{fault_at_all};
ghost use Rattle.da_command.specs.SettingsFile.{ReadsSettings, IsTooLong, fault_status};

use crate::status::Status;
use da_config::{ConfigFault, Fault, FaultKind};
use da_fields::Text;
use da_outside::{Files, GetFault};
use da_settings::Settings;
use std::alloc::{AllocError, Global};

/// The most bytes that a settings text may have.
const SETTINGS_MAX: usize = 1_048_576;

/// The settings of the file at this path, or the status of a command that gets none.
pub fn read_settings<F: Files>(
    alloc: Global,
    path: &[u8],
    files: &mut F,
) -> Result<Settings, Status>
    ensures { ReadsSettings path.now (F.state files.old) (F.state files.new) result }
{
    let text = match files.read(alloc, path, SETTINGS_MAX) {
        Ok(text) => text,
        Err(GetFault::Failed) => return Err(Status::NoSettings),
        Err(GetFault::Long) => return Err(long_text(alloc)),
        Err(GetFault::NoMemory) => return Err(Status::NoMemory),
    };
    match da_config::read(alloc, &text) {
        Ok(settings) => Ok(settings),
        Err(fault) => Err(status_of_fault(fault)),
    }
}

/// The status of a text that gave no settings.
fn status_of_fault(fault: ConfigFault) -> Status
    ensures { result ≡ fault_status fault }
{
    match fault {
        ConfigFault::Bad(fault) => Status::BadSettings { fault },
        ConfigFault::NoMemory => Status::NoMemory,
    }
}

/// The status of a text that is too long, or want of memory.
fn long_text(alloc: Global) -> Status
    ensures { IsTooLong result }
{
    match range_fault(alloc) {
        Ok(fault) => Status::BadSettings { fault },
        Err(_) => Status::NoMemory,
    }
}

/// The text as a whole is out of range.
fn range_fault(alloc: Global) -> Result<Fault, AllocError>
    ensures { IfOk result (λ fault. fault ≡ fault_at_all Range) }
{
    Ok(Fault {
        place: Text::from_slice(alloc, b"settings")?,
        kind: FaultKind::Range,
    })
}
