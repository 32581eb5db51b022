// Messages and stored passwords written as text.

use da_fields::Text;
use da_schemes::{Scheme, Stored};
use std::alloc::Global;
use std::process::Abort;

pub fn text<R: Abort>(rt: &R, alloc: Global, bytes: &[u8]) -> Text {
    Text::from_slice(alloc, bytes).expect(rt, "memory")
}

/// Texts with a `;` between them.
pub fn texts<R: Abort>(rt: &R, alloc: Global, case: &[u8]) -> Vec<Text> {
    let mut texts = Vec::new(alloc);
    for piece in case.split(|byte| *byte == b';') {
        texts.push(text(rt, alloc, piece)).expect(rt, "memory");
    }
    texts
}

pub fn stored_of<R: Abort>(rt: &R, alloc: Global, default: Scheme, text: &[u8]) -> Stored {
    Stored::read(alloc, default, text).expect(rt, "a stored password")
}
