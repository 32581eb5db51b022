// The fields of a line.

ghost use Rattle.std.specs.Prelude.{◌≡◌, map, IfOk};
ghost use Rattle.da_base.specs.Words.{pieces};

use std::alloc::{AllocError, Global};

/// The fields of a line: the pieces between its TABs, at least one. Escapes in them stay as they are.
pub fn fields(alloc: Global, line: &[u8]) -> Result<Vec<Vec<u8>>, AllocError>
    ensures { IfOk result (λ v. map (λ f. f.items) v.items ≡ pieces 9 line.now) }
{
    let mut fields = Vec::new(alloc);
    for piece in line.split(|byte| *byte == b'\t') {
        fields.push(Vec::from_slice(alloc, piece)?)?;
    }
    Ok(fields)
}
