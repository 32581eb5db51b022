// Fields, each written as a key, an equals sign and a template.
ghost use Rattle.std.specs.Prelude.{◌≡◌, [], true, false, MatchOption, is_some, IfOk, IfSome, OnOk};
ghost use Rattle.std.specs.List.{list_all};
ghost use Rattle.da_fields.specs.FieldList.{field, with_field};
ghost use Rattle.da_names.specs.Templates.{is_template_field};
ghost use Rattle.da_config.specs.Reading.{IsRead};
ghost use Rattle.da_config.specs.Parts.{part_of};
ghost use Rattle.da_config.specs.Databases.{IsFieldOf, added_fields_of, fields_after, fields_of, is_field_text};

use crate::fault::{ConfigFault, FaultKind};
use crate::part::TomlTable;
use da_fields::{Fields, Text};
use da_names::template_ok;
use da_settings::Texts;
use da_tabline::split_at_byte;
use std::alloc::{AllocError, Global};

// The key and the template of a text.
fn field_in(text: &[u8]) -> Option<(&[u8], &[u8])>
    ensures { MatchOption result (is_field_text text.now ≡ false) (λ p. IsFieldOf text.now p.0.now p.1.now) }
{
    let (key, value) = split_at_byte(text, b'=')?;
    if key.is_empty() || !template_ok(value) {
        return None;
    }
    Some((key, value))
}

fn has(fields: &Fields, key: &[u8]) -> bool
    ensures { result ≡ is_some (field key.now fields.now) }
{
    fields.get(key).is_some()
}

fn put(alloc: Global, fields: &mut Fields, key: &[u8], value: &[u8]) -> Result<(), AllocError>
    ensures { OnOk result (fields.new ≡ with_field key.now value.now fields.old) }
{
    let key = Text::from_slice(alloc, key)?;
    let value = Text::from_slice(alloc, value)?;
    fields.set(key, value)
}

// The fields that the texts write, each under a key of its own.
fn fields_in(alloc: Global, texts: &[Text]) -> Result<Option<Fields>, AllocError>
    ensures fields { IfOk result (λ fields. fields ≡ fields_after [] texts.now) }
    ensures fit { IfOk result (λ fields. IfSome fields (λ pairs. list_all is_template_field pairs ≡ true)) }
{
    let mut fields = Fields::new(alloc);
    for text in texts {
        let Some((key, value)) = field_in(text.bytes()) else {
            return Ok(None);
        };
        if has(&fields, key) {
            return Ok(None);
        }
        put(alloc, &mut fields, key, value)?;
    }
    Ok(Some(fields))
}

// The fields at a key, none where it is missing.
fn fields(alloc: Global, part: &TomlTable<'_>, key: &str) -> Result<Fields, ConfigFault>
    ensures read { IsRead (fields_of (part_of part.now) key.now) result }
    ensures fit { IfOk result (λ fields. list_all is_template_field fields ≡ true) }
{
    let texts = part.texts(alloc, key, Texts::new(Vec::new(alloc)))?;
    match fields_in(alloc, texts.all())? {
        Some(fields) => Ok(fields),
        None => Err(part.fault(alloc, key, FaultKind::Range)),
    }
}

/// The fields that a database adds. Their values are templates.
#[derive(Drop)]
pub struct AddedFields {
    /// Those that a request is given where it has none of the name.
    pub defaults: Fields,
    /// Those that come in place of others of the name.
    pub overrides: Fields,
}

/// The default and override fields of a database.
pub fn added_fields(alloc: Global, part: &TomlTable<'_>) -> Result<AddedFields, ConfigFault>
    ensures read { IsRead (added_fields_of (part_of part.now)) result }
    ensures defaults { IfOk result (λ added. list_all is_template_field added.defaults ≡ true) }
    ensures overrides { IfOk result (λ added. list_all is_template_field added.overrides ≡ true) }
{
    Ok(AddedFields {
        defaults: fields(alloc, part, "default_fields")?,
        overrides: fields(alloc, part, "override_fields")?,
    })
}
