// The text of a settings file.
ghost use Rattle.std.specs.Prelude.{◌≡◌, option_map, IfOk};
ghost use Rattle.toml.specs.View.{table_view};
ghost use Rattle.da_config.specs.Reading.{IsRead, IsTold};
ghost use Rattle.da_config.specs.SettingsText.{document_of, fault_at_all, settings_of};

use crate::fault::{ConfigFault, Fault, FaultKind};
use crate::part::TomlTable;
use crate::server::settings;
use da_fields::Text;
use da_settings::Settings;
use std::alloc::{AllocError, Global};
use toml::Table;

/// The most bytes that a settings text may have.
const TEXT_MAX: usize = 1_048_576;

// A fault of the text as a whole, or want of memory.
fn fault(alloc: Global, kind: FaultKind) -> ConfigFault
    ensures { IsTold (fault_at_all kind) result }
{
    match Vec::from_slice(alloc, b"settings") {
        Ok(place) => ConfigFault::Bad(Fault {
            place: Text::new(place),
            kind,
        }),
        Err(AllocError) => ConfigFault::NoMemory,
    }
}

// The table that a text stands for, if it stands for one.
fn document(alloc: Global, text: &[u8]) -> Result<Option<Table>, AllocError>
    ensures { IfOk result (λ found. option_map table_view found ≡ document_of text.now) }
{
    let Ok(text) = std::str::from_utf8(text) else {
        return Ok(None);
    };
    match toml::table_from_str(alloc, text) {
        Ok(table) => Ok(Some(table)),
        Err(error) if error.is_memory() => Err(AllocError),
        Err(_) => Ok(None),
    }
}

/// The settings that a text stands for (TOML, version 1.1), or its first fault.
///
/// The text is TOML, each key is known and each value of its kind and in its range: `specs/Servers.antt` has the keys
/// of the document and `specs/Databases.antt` those of each database, with their ranges and what stands where a key is
/// missing. A text of more than 1,048,576 bytes is out of range.
#[tactic(auto, unfolding(crate::specs::SettingsText::settings_of))]
pub fn read(alloc: Global, text: &[u8]) -> Result<Settings, ConfigFault>
    ensures { IsRead (settings_of text.now) result }
{
    if text.len() > TEXT_MAX {
        return Err(fault(alloc, FaultKind::Range));
    }
    let Some(table) = document(alloc, text)? else {
        return Err(fault(alloc, FaultKind::NotToml));
    };
    let part = TomlTable {
        table: &table,
        front: b"",
    };
    settings(alloc, &part)
}
