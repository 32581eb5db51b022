// Fields out of fields.

ghost use Rattle.std.specs.Prelude.{◌≡◌, IfOk};
ghost use Rattle.da_fields.specs.FieldList.{merge, visible, userdb_part, is_userdb_key, is_hidden};

use crate::fields::Fields;
use crate::text::Text;
use std::alloc::{AllocError, Global};

// What begins the key of a field for the user databases.
const PREFIX: &[u8] = b"userdb_";

/// The fields `before`, with each pair of `default` whose key isn't there yet, then each of `found`, then each of `over`.
/// A key that is there keeps its place.
pub fn merge(
    alloc: Global,
    before: &Fields,
    default: &Fields,
    found: &Fields,
    over: &Fields,
) -> Result<Fields, AllocError>
    ensures { IfOk result (λ fields. fields ≡ merge before.now default.now found.now over.now) }
{
    let mut fields = before.copy(alloc)?;
    fields.set_defaults(alloc, default)?;
    fields.set_all(alloc, found)?;
    fields.set_all(alloc, over)?;
    Ok(fields)
}

/// The fields that a client is told: those that aren't for the user databases and have none of the keys `allow_nets`,
/// `nodelay`, `password`, `user`, `reason`, `resp` and `expired`.
pub fn visible(alloc: Global, fields: &Fields) -> Result<Fields, AllocError>
    ensures { IfOk result (λ reported. reported ≡ visible fields.now) }
{
    let mut reported = Vec::new(alloc);
    for (key, value) in fields.pairs() {
        if !is_hidden(key.bytes()) {
            reported.push((key.copy(alloc)?, value.copy(alloc)?))?;
        }
    }
    Ok(Fields::of_distinct(reported))
}

/// The fields for the user databases, whose keys begin with `userdb_` and something after it, without that beginning.
pub fn userdb_part(alloc: Global, fields: &Fields) -> Result<Fields, AllocError>
    ensures { IfOk result (λ part. part ≡ userdb_part fields.now) }
{
    let mut part = Vec::new(alloc);
    for (key, value) in fields.pairs() {
        if is_userdb_key(key.bytes()) {
            let rest = Vec::from_slice(alloc, &key.bytes()[PREFIX.len()..])?;
            part.push((Text::new(rest), value.copy(alloc)?))?;
        }
    }
    Ok(Fields::of_distinct(part))
}

fn is_userdb_key(key: &[u8]) -> bool
    ensures { result ≡ is_userdb_key key.now }
{
    key.starts_with(PREFIX) && key.len() > PREFIX.len()
}

fn is_hidden(key: &[u8]) -> bool
    ensures { result ≡ is_hidden key.now }
{
    is_userdb_key(key)
        || key == b"allow_nets".as_slice()
        || key == b"nodelay".as_slice()
        || key == b"password".as_slice()
        || key == b"user".as_slice()
        || key == b"reason".as_slice()
        || key == b"resp".as_slice()
        || key == b"expired".as_slice()
}
