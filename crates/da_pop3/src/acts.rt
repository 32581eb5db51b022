// Lists of acts.

ghost use Rattle.std.specs.Prelude.{◌≡◌, ◌∷◌, [], IfOk};

use crate::event::Act;
use da_fields::Text;
use std::alloc::{AllocError, Global};

pub(crate) fn say(alloc: Global, text: &[u8]) -> Result<Act, AllocError>
    ensures { IfOk result (λ act. act ≡ Act.Say text.now) }
{
    Ok(Act::Say(Text::from_slice(alloc, text)?))
}

pub(crate) fn one(alloc: Global, act: Act) -> Result<Vec<Act>, AllocError>
    ensures { IfOk result (λ acts. acts.items ≡ act ∷ []) }
{
    let mut acts = Vec::new(alloc);
    acts.push(act)?;
    Ok(acts)
}

pub(crate) fn two(alloc: Global, act: Act, next: Act) -> Result<Vec<Act>, AllocError>
    ensures { IfOk result (λ acts. acts.items ≡ act ∷ next ∷ []) }
{
    let mut acts = one(alloc, act)?;
    acts.push(next)?;
    Ok(acts)
}

// One line to the client.
pub(crate) fn said(alloc: Global, text: &[u8]) -> Result<Vec<Act>, AllocError>
    ensures { IfOk result (λ acts. acts.items ≡ Act.Say text.now ∷ []) }
{
    one(alloc, say(alloc, text)?)
}

// A last line to the client, which is then left.
pub(crate) fn said_at_the_end(alloc: Global, text: &[u8]) -> Result<Vec<Act>, AllocError>
    ensures { IfOk result (λ acts. acts.items ≡ Act.Say text.now ∷ Act.End ∷ []) }
{
    two(alloc, say(alloc, text)?, Act::End)
}
