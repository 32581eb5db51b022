// User names.

ghost use Rattle.std.specs.Prelude.{◌≡◌, ◌==◌, IfOk, option_map};
ghost use Rattle.std.specs.List.{list_any, list_all};
ghost use Rattle.da_names.specs.Names.{is_name, normal, split_name};

use da_tabline::split_at_byte;
use std::alloc::{AllocError, Global};

/// The most bytes of a user name.
const LONGEST_NAME: usize = 255;

fn has_only(chars: &[u8], name: &[u8]) -> bool
    ensures { result ≡ list_all (λ c. list_any (λ d. d == c) chars.now) name.now }
{
    name.iter().all(|c| chars.contains(c))
}

fn is_name(chars: &[u8], name: &[u8]) -> bool
    ensures { result ≡ is_name chars.now name.now }
{
    !name.is_empty() && name.len() <= LONGEST_NAME && has_only(chars, name)
}

/// The name made normal: itself, or with its ASCII letters in lower case. `None` where it is no valid user name, which
/// is empty, longer than 255 bytes, or has a byte that isn't among `chars`.
pub fn normal(
    alloc: Global,
    name: &[u8],
    chars: &[u8],
    lower: bool,
) -> Result<Option<Vec<u8>>, AllocError>
    ensures { IfOk result (λ made. option_map (λ bytes. bytes.items) made ≡ normal chars.now lower name.now) }
{
    if !is_name(chars, name) {
        return Ok(None);
    }
    let mut made = Vec::from_slice(alloc, name)?;
    if lower {
        made.make_ascii_lowercase();
    }
    Ok(Some(made))
}

/// The parts before and after the first separator, the user and the master. `None` where there is no separator.
pub fn split_master(name: &[u8], separator: u8) -> Option<(&[u8], &[u8])>
    ensures { option_map (λ parts. (parts.0.now, parts.1.now)) result ≡ split_name separator name.now }
{
    split_at_byte(name, separator)
}
