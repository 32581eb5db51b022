// One query over a link.

ghost use Rattle.std.specs.Prelude.{◌≡◌};
ghost use Rattle.da_workers.specs.Asking.{Asks};

use da_fields::{Answer, Query, Why};
use da_outside::{GetFault, Link};
use da_query::{print, read_answer};
use std::alloc::{AllocError, Global};

/// Sends the printed query, and answers what the line that then comes spells. `Internal(Malformed)` exactly where that line
/// is too long or no answer to this query, and `Internal(Died)` only where the link failed.
pub(crate) fn ask<L: Link>(alloc: Global, link: &mut L, query: &Query) -> Result<Answer, AllocError>
    ensures { Asks query.now (L.state link.old) (L.state link.new) result }
{
    let line = print(alloc, query)?;
    if link.send(&line).is_err() {
        return Ok(Answer::Internal(Why::Died));
    }
    match link.receive(alloc) {
        Ok(line) => read_answer(alloc, query, &line),
        Err(GetFault::Long) => Ok(Answer::Internal(Why::Malformed)),
        Err(GetFault::Failed) => Ok(Answer::Internal(Why::Died)),
        Err(GetFault::NoMemory) => Err(AllocError),
    }
}
