// The parameters of a request.

ghost use Rattle.std.specs.Prelude.{◌≡◌, [], IfOk, option_map};
ghost use Rattle.da_msgs.specs.ClientMessages.{parameters_of};

use da_fields::{Fields, Text};
use da_tabline::{key_and_value, strip_front};
use std::alloc::{AllocError, Global};

// The parameters that stand before `resp=`, of equal names the last, and the text of `resp=`, where it is there.
#[derive(Drop)]
pub(crate) struct Parameters {
    pub(crate) params: Fields,
    pub(crate) resp: Option<Text>,
}

// `None` exactly where a parameter before `resp=` has no name.
pub(crate) fn parameters_of(
    alloc: Global,
    fields: &[Text],
) -> Result<Option<Parameters>, AllocError>
    ensures { IfOk result (λ found. option_map (λ p. (p.params, p.resp)) found ≡ parameters_of fields.now []) }
{
    let mut params = Fields::new(alloc);
    for field in fields {
        if let Some(text) = strip_front(field.bytes(), b"resp=") {
            let resp = Some(Text::from_slice(alloc, text)?);
            return Ok(Some(Parameters { params, resp }));
        }
        let (key, value) = key_and_value(field.bytes());
        if key.is_empty() {
            return Ok(None);
        }
        params.set(
            Text::from_slice(alloc, key)?,
            Text::from_slice(alloc, value)?,
        )?;
    }
    Ok(Some(Parameters { params, resp: None }))
}
