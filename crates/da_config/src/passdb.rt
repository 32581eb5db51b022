// A password database, from a table of its own.
ghost use Rattle.std.specs.Prelude.{◌≡◌, true, IfOk};
ghost use Rattle.da_passdb.specs.LoginChain.{is_valid_passdb};
ghost use Rattle.da_config.specs.Reading.{IsRead};
ghost use Rattle.da_config.specs.Parts.{part_of};
ghost use Rattle.da_config.specs.Databases.{driver_of, passdb_of, scheme_of, skip_of};

use crate::choices::{driver_called, skip_called};
use crate::fault::{ConfigFault, FaultKind};
use crate::fields::added_fields;
use crate::part::TomlTable;
use crate::rules::read_rules;
use da_passdb::{Driver, Passdb, Skip};
use da_schemes::Scheme;
use std::alloc::Global;

const KEYS: [&str; 12] = [
    "driver",
    "args",
    "deny",
    "master",
    "skip",
    "result_success",
    "result_failure",
    "result_internalfail",
    "default_scheme",
    "username_filter",
    "default_fields",
    "override_fields",
];

fn driver(alloc: Global, part: &TomlTable<'_>) -> Result<Driver, ConfigFault>
    ensures { IsRead (driver_of (part_of part.now)) result }
{
    let text = part.needed(alloc, "driver")?;
    match driver_called(text.bytes()) {
        Some(driver) => Ok(driver),
        None => Err(part.fault(alloc, "driver", FaultKind::Range)),
    }
}

fn skip(alloc: Global, part: &TomlTable<'_>) -> Result<Skip, ConfigFault>
    ensures { IsRead (skip_of (part_of part.now)) result }
{
    let text = part.text(alloc, "skip", b"never")?;
    match skip_called(text.bytes()) {
        Some(skip) => Ok(skip),
        None => Err(part.fault(alloc, "skip", FaultKind::Range)),
    }
}

fn scheme(alloc: Global, part: &TomlTable<'_>) -> Result<Scheme, ConfigFault>
    ensures { IsRead (scheme_of (part_of part.now)) result }
{
    let text = part.text(alloc, "default_scheme", b"PLAIN")?;
    match Scheme::read(text.bytes()) {
        Some(scheme) => Ok(scheme),
        None => Err(part.fault(alloc, "default_scheme", FaultKind::Range)),
    }
}

/// The password database of this number, from its table.
pub fn passdb(alloc: Global, part: &TomlTable<'_>, number: u32) -> Result<Passdb, ConfigFault>
    ensures read { IsRead (passdb_of number (part_of part.now)) result }
    ensures fit { IfOk result (λ db. (db.number ≡ number) × (is_valid_passdb db ≡ true)) }
{
    part.check_keys(alloc, &KEYS)?;
    let driver = driver(alloc, part)?;
    let args = part.text(alloc, "args", b"")?;
    let deny = part.flag(alloc, "deny", false)?;
    let master = part.flag(alloc, "master", false)?;
    let skip = skip(alloc, part)?;
    let rules = read_rules(alloc, part)?;
    let default_scheme = scheme(alloc, part)?;
    let username_filter = part.text(alloc, "username_filter", b"")?;
    let fields = added_fields(alloc, part)?;
    Ok(Passdb {
        number,
        driver,
        args,
        deny,
        master,
        skip,
        result_success: rules.success,
        result_failure: rules.failure,
        result_internalfail: rules.internalfail,
        default_scheme,
        username_filter,
        default_fields: fields.defaults,
        override_fields: fields.overrides,
    })
}
