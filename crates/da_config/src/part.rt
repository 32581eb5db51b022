// A table of the document, and the values in it by their kinds.
ghost use Rattle.std.specs.Prelude.{◌≡◌, ◌≤◌, map, option_map, bytes_eq, IfOk};
ghost use Rattle.std.specs.List.{list_any};
ghost use Rattle.toml.specs.View.{view, table_view};
ghost use Rattle.toml.specs.Data.{as_str};
ghost use Rattle.da_config.specs.Reading.{IsRead, IsReadBy, IsTold, fault_at};
ghost use Rattle.da_config.specs.Parts.{flag_of, known_of, natural_in, needed_of, number_of, of_kind, part_of, place, text_of, unknown_key, value_at};

use crate::fault::{ConfigFault, Fault, FaultKind};
use da_fields::Text;
use std::alloc::{AllocError, Global};
use toml::{Table, Value};

fn natural_in(low: u64, high: u64, number: i64) -> Option<u64>
    ensures { result ≡ natural_in low high number }
{
    match u64::try_from(number) {
        Ok(natural) if low <= natural && natural <= high => Some(natural),
        _ => None,
    }
}

/// A table of the document, and how the places in it begin.
#[derive(Clone, Copy)]
pub struct TomlTable<'a> {
    pub table: &'a Table,
    pub front: &'a [u8],
}

impl<'a> TomlTable<'a> {
    /// The place of a key.
    fn place(&self, alloc: Global, key: &str) -> Result<Text, AllocError>
        ensures { IfOk result (λ value. value ≡ place (part_of self.now) key.now) }
    {
        let mut place = Vec::from_slice(alloc, self.front)?;
        place.extend_from_slice(key.as_bytes())?;
        Ok(Text::new(place))
    }

    /// A fault of this kind at a key, or want of memory.
    pub fn fault(&self, alloc: Global, key: &str, kind: FaultKind) -> ConfigFault
        ensures { IsTold (fault_at (place (part_of self.now) key.now) kind) result }
    {
        match self.place(alloc, key) {
            Ok(place) => ConfigFault::Bad(Fault { place, kind }),
            Err(_) => ConfigFault::NoMemory,
        }
    }

    /// Nothing, where all keys are known.
    pub fn check_keys(&self, alloc: Global, known: &[&str]) -> Result<(), ConfigFault>
        ensures { IsReadBy (λ _. table_view self.now.table.now) (known_of (part_of self.now) (map (λ key. key.now) known.now)) result }
    {
        match unknown_key(self.table, known) {
            Some(key) => Err(self.fault(alloc, key, FaultKind::Unknown)),
            None => Ok(()),
        }
    }

    /// What stands at a key.
    pub fn get(&self, key: &str) -> Option<&'a Value>
        ensures { option_map (λ value. view value.now) result ≡ value_at (part_of self.now) key.now }
    {
        self.table.get(key)
    }

    /// A number from `low` to `high`, and `default` where the key is missing.
    pub fn number(
        &self,
        alloc: Global,
        key: &str,
        low: u64,
        high: u64,
        default: u64,
    ) -> Result<u64, ConfigFault>
        requires low { low ≤ default }
        requires high { default ≤ high }
        ensures read { IsRead (number_of (part_of self.now) key.now low high default) result }
        ensures within { IfOk result (λ n. (low ≤ n) × (n ≤ high)) }
    {
        let Some(value) = self.get(key) else {
            return Ok(default);
        };
        let Some(number) = value.as_integer() else {
            return Err(self.fault(alloc, key, FaultKind::Kind));
        };
        match natural_in(low, high, number) {
            Some(number) => Ok(number),
            None => Err(self.fault(alloc, key, FaultKind::Range)),
        }
    }

    /// A switch, and `default` where the key is missing.
    pub fn flag(&self, alloc: Global, key: &str, default: bool) -> Result<bool, ConfigFault>
        ensures { IsRead (flag_of (part_of self.now) key.now default) result }
    {
        let Some(value) = self.get(key) else {
            return Ok(default);
        };
        match value.as_bool() {
            Some(flag) => Ok(flag),
            None => Err(self.fault(alloc, key, FaultKind::Kind)),
        }
    }

    // The text that a value is.
    fn text_in(&self, alloc: Global, key: &str, value: &Value) -> Result<Text, ConfigFault>
        ensures { IsRead (of_kind (place (part_of self.now) key.now) (as_str (view value.now))) result }
    {
        match value.as_str() {
            Some(text) => Ok(Text::from_slice(alloc, text.as_bytes())?),
            None => Err(self.fault(alloc, key, FaultKind::Kind)),
        }
    }

    /// A text, and `default` where the key is missing.
    pub fn text(&self, alloc: Global, key: &str, default: &[u8]) -> Result<Text, ConfigFault>
        ensures { IsRead (text_of (part_of self.now) key.now default.now) result }
    {
        match self.get(key) {
            Some(value) => self.text_in(alloc, key, value),
            None => Ok(Text::from_slice(alloc, default)?),
        }
    }

    /// A text that must be there.
    pub fn needed(&self, alloc: Global, key: &str) -> Result<Text, ConfigFault>
        ensures { IsRead (needed_of (part_of self.now) key.now) result }
    {
        match self.get(key) {
            Some(value) => self.text_in(alloc, key, value),
            None => Err(self.fault(alloc, key, FaultKind::Kind)),
        }
    }
}

/// The first key of a table that isn't among the known ones.
fn unknown_key<'a>(table: &'a Table, known: &[&str]) -> Option<&'a str>
    ensures { option_map (λ key. key.now) result ≡ unknown_key (map (λ key. key.now) known.now) (table_view table.now) }
{
    for (key, _) in table.iter() {
        if !is_known(known, key.as_str()) {
            return Some(key.as_str());
        }
    }
    None
}

fn is_known(known: &[&str], key: &str) -> bool
    ensures { result ≡ list_any (bytes_eq key.now) (map (λ key. key.now) known.now) }
{
    for other in known {
        if key == *other {
            return true;
        }
    }
    false
}
