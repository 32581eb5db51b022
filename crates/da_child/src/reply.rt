// What the end of a checkpassword program means.

ghost use Rattle.std.specs.Prelude.{◌≡◌, IfOk, MatchOption};
ghost use Rattle.da_base.specs.Words.{Bytes};
ghost use Rattle.da_child.specs.Child.{ExitMeans, ReplyMeans, IsLine};
ghost use Rattle.da_child.specs.Child.{lacks};

use da_fields::{Answer, Why};
use da_query::read_fields;
use da_tabline::LONGEST_LINE;
use std::alloc::{AllocError, Global};

/// What a status and a reply mean.
pub(crate) fn meaning(alloc: Global, status: u32, reply: &[u8]) -> Result<Answer, AllocError>
    ensures { IfOk result (λ answer. ExitMeans (record { status = status; reply = reply.now }) answer) }
{
    match status {
        0 => of_reply(alloc, reply),
        1 => Ok(Answer::Mismatch),
        3 => Ok(Answer::Unknown),
        other => Ok(Answer::Internal(Why::Exit(other))),
    }
}

fn of_reply(alloc: Global, reply: &[u8]) -> Result<Answer, AllocError>
    ensures { IfOk result (λ answer. ReplyMeans reply.now answer) }
{
    let malformed = Answer::Internal(Why::Malformed);
    let Some(line) = line_of(reply) else {
        return Ok(malformed);
    };
    match read_fields(alloc, line)? {
        Some(fields) => Ok(Answer::Passed { fields }),
        None => Ok(malformed),
    }
}

/// Whether the byte is not in the text.
pub(crate) fn lacks(text: &[u8], byte: u8) -> bool
    ensures { result ≡ lacks byte text.now }
{
    text.iter().all(|other| *other != byte)
}

// The one line that the reply is, without its LF.
fn line_of(reply: &[u8]) -> Option<&[u8]>
    ensures { MatchOption result ((line : Bytes) → IsLine reply.now line → ⊥) (λ line. IsLine reply.now line.now) }
{
    let (last, line) = reply.split_last()?;
    if *last == b'\n' && line.len() <= LONGEST_LINE && lacks(line, b'\n') {
        Some(line)
    } else {
        None
    }
}
