// What a checkpassword program is told.

ghost use Rattle.std.specs.Prelude.{◌≡◌, ◌≤◌, ◌+◌, nat_le, length, IfOk};
ghost use Rattle.da_child.specs.Child.{can_be_told, child_input, Checks};

use crate::reply::{lacks, meaning};
use da_fields::{Answer, Why};
use da_outside::{GetFault, Runner};
use std::alloc::{AllocError, Global};

// The most bytes that a program is told.
const LONGEST: usize = 512;

/// Checks a user's password by a program: `Passed` with the fields of its reply at status 0, `Mismatch` at 1, `Unknown` at
/// 3, and `Internal` with any other status; `Internal(Malformed)` where the reply at status 0 is not one line of fields, and
/// `Internal(Died)` only where the run failed. A name or password that has a NUL, or is longer than the program can be told,
/// is a `Mismatch`, and nothing is run for it.
pub fn check<R: Runner>(
    alloc: Global,
    runner: &mut R,
    program: &[u8],
    user: &[u8],
    password: &[u8],
) -> Result<Answer, AllocError>
    ensures checks { IfOk result (λ answer. Checks program.now user.now password.now
        (R.state runner.old) (R.state runner.new) answer) }
    ensures faults { (R.state runner.old).faults ≤ (R.state runner.new).faults }
{
    if !can_be_told(user, password) {
        return Ok(Answer::Mismatch);
    }
    let input = child_input(alloc, user, password)?;
    match runner.run(alloc, program, &input) {
        Ok(exit) => meaning(alloc, exit.status, exit.reply.bytes()),
        Err(GetFault::NoMemory) => Err(AllocError),
        Err(GetFault::Failed) => Ok(Answer::Internal(Why::Died)),
        Err(GetFault::Long) => unreachable!(),
    }
}

fn is_short(user: &[u8], password: &[u8]) -> bool
    ensures { result ≡ nat_le (length user.now + length password.now + 3) 512 }
{
    user.len() <= LONGEST && password.len() <= LONGEST && user.len() + password.len() + 3 <= LONGEST
}

fn can_be_told(user: &[u8], password: &[u8]) -> bool
    ensures { result ≡ can_be_told user.now password.now }
{
    lacks(user, 0) && lacks(password, 0) && is_short(user, password)
}

// The user name, the password and an empty timestamp, each with a NUL after it.
fn child_input(alloc: Global, user: &[u8], password: &[u8]) -> Result<Vec<u8>, AllocError>
    ensures { IfOk result (λ input. input.items ≡ child_input user.now password.now) }
{
    let mut input = Vec::from_slice(alloc, user)?;
    input.push(0)?;
    input.extend_from_slice(password)?;
    input.push(0)?;
    input.push(0)?;
    Ok(input)
}
