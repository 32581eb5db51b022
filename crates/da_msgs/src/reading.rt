// What the messages of clients and masters have in common.

ghost use Rattle.std.specs.Prelude.{◌≡◌, ◌∷◌, [], IfOk, MatchOption};
ghost use Rattle.da_base.specs.Words.{is_empty};
ghost use Rattle.da_tabline.specs.Escapes.{line_fields};
ghost use Rattle.da_msgs.specs.Lines.{fits_a_line};
ghost use Rattle.da_msgs.specs.ClientMessages.{version_of, one_number};

use da_fields::Text;
use da_tabline::{LONGEST_LINE, decimal_u32, unescaped_fields};
use std::alloc::{AllocError, Global};

pub(crate) fn fits_a_line(line: &[u8]) -> bool
    ensures { result ≡ fits_a_line line.now }
{
    line.len() <= LONGEST_LINE && !line.contains(&b'\n')
}

/// The texts of the fields of a line.
pub fn texts_of(alloc: Global, line: &[u8]) -> Result<Vec<Text>, AllocError>
    ensures { IfOk result (λ texts. texts.items ≡ line_fields line.now) }
{
    let mut texts = Vec::new(alloc);
    for field in unescaped_fields(alloc, line)? {
        texts.push(Text::new(field))?;
    }
    Ok(texts)
}

/// The first field, and those after it. `None` exactly where there is none.
pub fn first(fields: &[Text]) -> Option<(&Text, &[Text])>
    ensures { MatchOption result (fields.now ≡ []) (λ parts. fields.now ≡ parts.0.now ∷ parts.1.now) }
{
    fields.split_first()
}

// Two numbers, whatever follows them.
pub(crate) fn version_of(fields: &[Text]) -> Option<(u32, u32)>
    ensures { result ≡ version_of fields.now }
{
    let (major, rest) = first(fields)?;
    let (minor, _) = first(rest)?;
    let major = decimal_u32(major.bytes())?;
    let minor = decimal_u32(minor.bytes())?;
    Some((major, minor))
}

// A number, and nothing after it.
pub(crate) fn one_number(fields: &[Text]) -> Option<u32>
    ensures { result ≡ one_number fields.now }
{
    let (number, rest) = first(fields)?;
    if !rest.is_empty() {
        return None;
    }
    decimal_u32(number.bytes())
}
