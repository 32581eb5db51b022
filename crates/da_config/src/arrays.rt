// Arrays of a table: of texts, and of tables.
ghost use Rattle.std.specs.Prelude.{◌≡◌, ◌≤◌, true, length, Some, option_map, option_and_then, IfOk, IfSome};
ghost use Rattle.toml.specs.Data.{as_array};
ghost use Rattle.toml.specs.View.{view, items_view};
ghost use Rattle.da_config.specs.Reading.{IsRead, IsReadBy};
ghost use Rattle.da_config.specs.Parts.{AreTables, are_few, are_tables, few_tables, only_tables, part_of, place, tables_in_data, tables_of, texts_in, texts_in_data, texts_of};

use crate::fault::{ConfigFault, FaultKind};
use crate::part::TomlTable;
use da_fields::Text;
use da_settings::Texts;
use std::alloc::{AllocError, Global};
use toml::Value;

/// The most tables that an array of databases may have.
const TABLES_MAX: usize = 16;

fn text_of(alloc: Global, text: &str) -> Result<Text, AllocError>
    ensures { IfOk result (λ copy. copy ≡ text.now) }
{
    Text::from_slice(alloc, text.as_bytes())
}

// The texts of the items, where each is one.
fn read_texts(alloc: Global, array: &[Value]) -> Result<Option<Texts>, AllocError>
    ensures { IfOk result (λ texts. texts ≡ texts_in (items_view array.now)) }
{
    let mut texts = Vec::new(alloc);
    for value in array {
        let Some(text) = value.as_str() else {
            return Ok(None);
        };
        texts.push(text_of(alloc, text)?)?;
    }
    Ok(Some(Texts::new(texts)))
}

fn are_tables(array: &[Value]) -> bool
    ensures { result ≡ are_tables (items_view array.now) }
{
    for value in array {
        if !value.is_table() {
            return false;
        }
    }
    true
}

fn are_few(low: usize, array: &[Value]) -> bool
    ensures test { result ≡ are_few low (items_view array.now) }
    ensures bounds { result ≡ true → (low ≤ length array.now) × (length array.now ≤ 16) }
{
    low <= array.len() && array.len() <= TABLES_MAX
}

// The items of an array of tables.
fn tables(value: &Value) -> Option<&[Value]>
    ensures items { option_map (λ values. items_view values.now) result ≡ option_and_then only_tables (as_array (view value.now)) }
    ensures tables { IfSome result (λ values. are_tables (items_view values.now) ≡ true) }
{
    let array = value.as_array()?;
    if are_tables(array) { Some(array) } else { None }
}

impl<'a> TomlTable<'a> {
    // The texts that a value is.
    fn texts_in(&self, alloc: Global, key: &str, value: &Value) -> Result<Texts, ConfigFault>
        ensures { IsRead (texts_in_data (place (part_of self.now) key.now) (view value.now)) result }
    {
        let Some(array) = value.as_array() else {
            return Err(self.fault(alloc, key, FaultKind::Kind));
        };
        match read_texts(alloc, array)? {
            Some(texts) => Ok(texts),
            None => Err(self.fault(alloc, key, FaultKind::Kind)),
        }
    }

    /// An array of texts, and `default` where the key is missing.
    pub fn texts(&self, alloc: Global, key: &str, default: Texts) -> Result<Texts, ConfigFault>
        ensures { IsRead (texts_of (part_of self.now) key.now default) result }
    {
        match self.get(key) {
            Some(value) => self.texts_in(alloc, key, value),
            None => Ok(default),
        }
    }

    // The items, where they are `low` to 16.
    fn few(
        &self,
        alloc: Global,
        key: &str,
        low: usize,
        array: &'a [Value],
    ) -> Result<&'a [Value], ConfigFault>
        ensures few { IfOk result (λ values. (low ≤ length values.now) × (length values.now ≤ 16)) }
        ensures same { IfOk result (λ values. values.now ≡ array.now) }
        ensures read { IsReadBy (λ values. Some (items_view values.now)) (few_tables (place (part_of self.now) key.now) low (items_view array.now)) result }
    {
        if are_few(low, array) {
            Ok(array)
        } else {
            Err(self.fault(alloc, key, FaultKind::Range))
        }
    }

    // The items of an array of `low` to 16 tables.
    fn tables_in(
        &self,
        alloc: Global,
        key: &str,
        low: usize,
        value: &'a Value,
    ) -> Result<&'a [Value], ConfigFault>
        ensures fit { IfOk result (AreTables low) }
        ensures read { IsReadBy (λ values. Some (items_view values.now)) (tables_in_data (place (part_of self.now) key.now) low (view value.now)) result }
    {
        match tables(value) {
            Some(array) => self.few(alloc, key, low, array),
            None => Err(self.fault(alloc, key, FaultKind::Kind)),
        }
    }

    /// The items of an array of `low` to 16 tables, where the key is there.
    pub fn tables(
        &self,
        alloc: Global,
        key: &str,
        low: usize,
    ) -> Result<Option<&'a [Value]>, ConfigFault>
        ensures fit { IfOk result (λ found. IfSome found (AreTables low)) }
        ensures read { IsReadBy (λ found. option_map (λ values. items_view values.now) found) (tables_of (part_of self.now) key.now low) result }
    {
        match self.get(key) {
            Some(value) => Ok(Some(self.tables_in(alloc, key, low, value)?)),
            None => Ok(None),
        }
    }
}
