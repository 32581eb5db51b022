// The fields of a line, read one after another.

ghost use Rattle.std.specs.Prelude.{◌≡◌, [], ◌∷◌, IfOk, MatchOption};
ghost use Rattle.da_base.specs.Words.{is_empty};
ghost use Rattle.da_tabline.specs.Escapes.{line_fields};

use da_fields::Text;
use da_tabline::{split_at_byte, unescape};
use std::alloc::{AllocError, Global};
use std::marker::Model;

// The fields of a line that were not read yet: nothing, or what stands behind the last TAB that was passed.
#[derive(Drop)]
pub(crate) struct FieldsLeft<'a> {
    rest: Option<&'a [u8]>,
}

impl<'a> Model for FieldsLeft<'a> {
    ghost use Rattle.std.specs.Prelude.{List, ℕ, option_copied};
    ghost use Rattle.da_query.specs.FieldsLeft.{fields_left};

    ghost Value = { List (List ℕ) };

    ghost view = { λ f. fields_left (option_copied f.rest) };
}

impl<'a> FieldsLeft<'a> {
    // All fields of the line.
    pub(crate) fn of(line: &'a [u8]) -> FieldsLeft<'a>
        ensures { result ≡ line_fields line.now }
    {
        FieldsLeft { rest: Some(line) }
    }

    // The next field, `None` exactly where there is none. Where memory is wanted, it is still the next.
    pub(crate) fn next(&mut self, alloc: Global) -> Result<Option<Text>, AllocError>
        ensures { IfOk result (λ field. MatchOption field (self.old ≡ []) (λ text. self.old ≡ text ∷ self.new)) }
    {
        let Some(rest) = self.rest else {
            return Ok(None);
        };
        match split_at_byte(rest, b'\t') {
            Some((field, more)) => {
                let text = unescape(alloc, field)?;
                self.rest = Some(more);
                Ok(Some(Text::new(text)))
            }
            None => {
                let text = unescape(alloc, rest)?;
                self.rest = None;
                Ok(Some(Text::new(text)))
            }
        }
    }

    pub(crate) fn is_at_end(&self) -> bool
        ensures { result ≡ is_empty self.now }
    {
        self.rest.is_none()
    }
}
