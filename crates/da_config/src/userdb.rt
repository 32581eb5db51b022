// A user database, from a table of its own.
ghost use Rattle.std.specs.Prelude.{◌≡◌, true, IfOk};
ghost use Rattle.da_userdb.specs.UserChain.{is_valid_userdb};
ghost use Rattle.da_config.specs.Reading.{IsRead};
ghost use Rattle.da_config.specs.Parts.{part_of};
ghost use Rattle.da_config.specs.Databases.{user_driver_of, user_skip_of, userdb_of};

use crate::choices::{user_driver_called, user_skip_called};
use crate::fault::{ConfigFault, FaultKind};
use crate::fields::added_fields;
use crate::part::TomlTable;
use crate::rules::read_rules;
use da_userdb::{UserDriver, UserSkip, Userdb};
use std::alloc::Global;

const KEYS: [&str; 8] = [
    "driver",
    "args",
    "skip",
    "result_success",
    "result_failure",
    "result_internalfail",
    "default_fields",
    "override_fields",
];

fn driver(alloc: Global, part: &TomlTable<'_>) -> Result<UserDriver, ConfigFault>
    ensures { IsRead (user_driver_of (part_of part.now)) result }
{
    let text = part.needed(alloc, "driver")?;
    match user_driver_called(text.bytes()) {
        Some(driver) => Ok(driver),
        None => Err(part.fault(alloc, "driver", FaultKind::Range)),
    }
}

fn skip(alloc: Global, part: &TomlTable<'_>) -> Result<UserSkip, ConfigFault>
    ensures { IsRead (user_skip_of (part_of part.now)) result }
{
    let text = part.text(alloc, "skip", b"never")?;
    match user_skip_called(text.bytes()) {
        Some(skip) => Ok(skip),
        None => Err(part.fault(alloc, "skip", FaultKind::Range)),
    }
}

/// The user database of this number, from its table.
pub fn userdb(alloc: Global, part: &TomlTable<'_>, number: u32) -> Result<Userdb, ConfigFault>
    ensures read { IsRead (userdb_of number (part_of part.now)) result }
    ensures fit { IfOk result (λ db. (db.number ≡ number) × (is_valid_userdb db ≡ true)) }
{
    part.check_keys(alloc, &KEYS)?;
    let driver = driver(alloc, part)?;
    let args = part.text(alloc, "args", b"")?;
    let skip = skip(alloc, part)?;
    let rules = read_rules(alloc, part)?;
    let fields = added_fields(alloc, part)?;
    Ok(Userdb {
        number,
        driver,
        args,
        skip,
        result_success: rules.success,
        result_failure: rules.failure,
        result_internalfail: rules.internalfail,
        default_fields: fields.defaults,
        override_fields: fields.overrides,
    })
}
