// Fields whose values are templates.

ghost use Rattle.std.specs.Prelude.{◌≡◌, IfOk, IsTrue};
ghost use Rattle.std.specs.List.{list_all};
ghost use Rattle.da_fields.specs.FieldList.{merge};
ghost use Rattle.da_names.specs.Templates.{expand_fields, is_template_field};

use da_fields::{Fields, Text, merge};
use da_names::{Vars, expand, template_ok};
use std::alloc::{AllocError, Global};

fn is_template_field(key: &Text, template: &Text) -> bool
    ensures { result ≡ is_template_field (key.now, template.now) }
{
    !key.bytes().is_empty() && template_ok(template.bytes())
}

/// Whether each field has a key that isn't empty, and a template as its value. It takes no memory.
pub fn are_templates(fields: &Fields) -> bool
    ensures { result ≡ list_all is_template_field fields.now }
{
    for (key, template) in fields.pairs() {
        if !is_template_field(key, template) {
            return false;
        }
    }
    true
}

/// The fields with each value, a template, replaced by what it stands for.
pub fn expand_fields(alloc: Global, fields: &Fields, vars: &Vars) -> Result<Fields, AllocError>
    requires { IsTrue (list_all is_template_field fields.now) }
    ensures { IfOk result (λ expanded. expanded ≡ expand_fields vars.now fields.now) }
{
    let mut expanded = Fields::new(alloc);
    for (key, template) in fields.pairs() {
        let value = expand(alloc, template.bytes(), vars)?;
        expanded.set(key.copy(alloc)?, Text::new(value))?;
    }
    Ok(expanded)
}

/// The fields `before`, with those of a success: each of `default` whose key isn't there yet, then each of `found`, then
/// each of `over`. The values of `default` and `over` are templates.
pub fn merge_expanded(
    alloc: Global,
    before: &Fields,
    default: &Fields,
    found: &Fields,
    over: &Fields,
    vars: &Vars,
) -> Result<Fields, AllocError>
    requires default { IsTrue (list_all is_template_field default.now) }
    requires over { IsTrue (list_all is_template_field over.now) }
    ensures { IfOk result (λ fields. fields ≡ merge before.now (expand_fields vars.now default.now) found.now (expand_fields vars.now over.now)) }
{
    let default = expand_fields(alloc, default, vars)?;
    let over = expand_fields(alloc, over, vars)?;
    merge(alloc, before, &default, found, &over)
}
