// Cases and fields written as text.

use da_fields::{Fields, Text};
use da_tabline::split_at_byte;
use std::alloc::{AllocError, Global};

/// What stands before the first such byte, and what stands behind it; all and nothing where there is none.
pub fn cut(text: &[u8], at: u8) -> (&[u8], &[u8]) {
    match split_at_byte(text, at) {
        Some(parts) => parts,
        None => (text, b""),
    }
}

pub fn text(alloc: Global, bytes: &[u8]) -> Result<Text, AllocError> {
    Text::from_slice(alloc, bytes)
}

fn put(alloc: Global, fields: &mut Fields, field: &[u8]) -> Result<(), AllocError> {
    let (key, value) = cut(field, b'=');
    fields.set(text(alloc, key)?, text(alloc, value)?)
}

/// The fields that a text lists, set one after another.
pub fn listed(alloc: Global, list: &[u8]) -> Result<Fields, AllocError> {
    let mut fields = Fields::new(alloc);
    for field in list.split(|byte| *byte == b';') {
        put(alloc, &mut fields, field)?;
    }
    Ok(fields)
}
