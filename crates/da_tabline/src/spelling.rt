// Lines of fields, written one field after another.

ghost use Rattle.std.specs.Prelude.{◌≡◌, ◌++◌, ◌∷◌, [], ℕ, List, OnOk};
ghost use Rattle.da_tabline.specs.Escapes.{line_fields, spelled};
ghost use Rattle.da_tabline.specs.Parts.{Lacks};
ghost use Rattle.da_tabline.specs.Spelling.{more_fields};

use crate::escapes::push_escaped;
use std::alloc::AllocError;

/// One field more on a line, which begins as a field alone. Where memory is wanted, the line may end in a part of it.
pub fn push_field(line: &mut Vec<u8>, field: &[u8]) -> Result<(), AllocError>
    ensures { OnOk result (line.new.items ≡ line.old.items ++ more_fields (field.now ∷ [])) }
{
    line.push(b'\t')?;
    push_escaped(line, field)
}

/// A line that goes on is the line of all its fields.
pub fn a_line_goes_on()
    ensures { (first : List ℕ) (fields more : List (List ℕ)) → spelled (first ∷ fields) ++ more_fields more ≡ spelled (first ∷ (fields ++ more)) }
{}

/// The fields of a line that was written are the fields that it was written of, and it is one line.
pub fn a_written_line_is_read()
    ensures fields { (first : List ℕ) (fields : List (List ℕ)) → line_fields (spelled (first ∷ fields)) ≡ first ∷ fields }
    ensures one_line { (fields : List (List ℕ)) → Lacks 10 (spelled fields) }
{}
