// What a database's outcomes lead to.
ghost use Rattle.da_config.specs.Reading.{IsRead};
ghost use Rattle.da_config.specs.Parts.{part_of};
ghost use Rattle.da_config.specs.Databases.{rule_of, rules_of};

use crate::choices::rule_called;
use crate::fault::{ConfigFault, FaultKind};
use crate::part::TomlTable;
use da_fields::Rule;
use std::alloc::Global;

/// The rules of a database.
#[derive(Clone, Copy, Drop)]
pub struct Rules {
    pub success: Rule,
    pub failure: Rule,
    pub internalfail: Rule,
}

// The rule at a key, and the one of this name where it is missing.
fn rule(alloc: Global, part: &TomlTable<'_>, key: &str, default: &[u8]) -> Result<Rule, ConfigFault>
    ensures { IsRead (rule_of (part_of part.now) key.now default.now) result }
{
    let text = part.text(alloc, key, default)?;
    match rule_called(text.bytes()) {
        Some(rule) => Ok(rule),
        None => Err(part.fault(alloc, key, FaultKind::Range)),
    }
}

/// The rules of a database, each with its default.
pub fn read_rules(alloc: Global, part: &TomlTable<'_>) -> Result<Rules, ConfigFault>
    ensures { IsRead (rules_of (part_of part.now)) result }
{
    Ok(Rules {
        success: rule(alloc, part, "result_success", b"return-ok")?,
        failure: rule(alloc, part, "result_failure", b"continue")?,
        internalfail: rule(alloc, part, "result_internalfail", b"continue")?,
    })
}
