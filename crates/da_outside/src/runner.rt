ghost use Rattle.std.specs.Prelude.{◌≡◌, ◌≤◌, ◌++◌, ◌∷◌, [], List, Option, None, Some, Err, IfOk, IsErrOf, IsOkAnd, IsTrue, MatchOption, MatchResult, is_none, length, map, false};
ghost use Rattle.std.specs.Result.{result_ok};
ghost use Rattle.da_outside.specs.declared.runner.Exit.{Exit};
ghost use Rattle.da_outside.specs.declared.runner.Run.{Run};
ghost use Rattle.da_outside.specs.Calls.{called, fails_next, no_calls};
ghost use Rattle.da_outside.specs.Causes.{HasGetCause};
ghost use Rattle.da_outside.specs.Past.{Recalls, Takes};
ghost use Rattle.da_outside.specs.Runner.{RunnerState, SoundRuns, cut_exit, ended, mem_runner, run_kept};

use crate::calls::Calls;
use crate::first::take_first;
use crate::{Bytes, GetFault};
use std::alloc::{AllocError, Global};
use std::marker::Model;

/// How a program ended: its status, and what it replied, cut at 8194 bytes.
#[derive(Debug, Drop)]
pub struct Exit {
    pub status: u32,
    pub reply: Bytes,
}

/// The longest reply, in bytes.
const LONGEST_REPLY: usize = 8194;

impl Exit {
    /// A copy with its reply cut.
    fn cut(&self, alloc: Global) -> Result<Exit, AllocError>
        ensures cut { IfOk result (λ exit. exit ≡ cut_exit self.now) }
        ensures short { IfOk result (λ exit. length exit.reply ≤ 8194) }
    {
        let reply = Bytes::new(self.reply.bytes().to_vec(alloc)?);
        Ok(Exit {
            status: self.status,
            reply: reply.cut(LONGEST_REPLY),
        })
    }
}

/// A run of a program on its input, and its exit. It has none where the run failed.
#[derive(Debug, Drop)]
pub struct Run {
    pub program: Bytes,
    pub input: Bytes,
    pub exit: Option<Exit>,
}

/// What runs programs.
pub trait Runner {
    /// What it tells: the exits to come; its runs, without those that wanted memory; and how often it failed.
    ghost state: { Self → RunnerState };

    /// Runs the program on this input. It is never `Long`.
    fn run(&mut self, alloc: Global, program: &[u8], input: &[u8]) -> Result<Exit, GetFault>
        ensures short { IfOk result (λ exit. length exit.reply ≤ 8194) }
        ensures never_long { IsErrOf result GetFault.Long → ⊥ }
        ensures left { Takes (state self.old).left (state self.new).left (result_ok result) }
        ensures past { Recalls (state self.old).past (state self.new).past (run_kept program.now input.now result) }
        ensures cause { HasGetCause (state self.old).faults (state self.new).faults result };
}

/// A runner that gives these exits, and some calls of which fail. It keeps its runs.
#[derive(Debug, Drop)]
pub struct MemRunner {
    exits: Vec<Exit>,
    past: Vec<Run>,
    calls: Calls,
}

impl Model for MemRunner {
    ghost use Rattle.std.specs.Prelude.{map};
    ghost use Rattle.da_outside.specs.Runner.{MemRunnerState, cut_exit};

    ghost Value = { MemRunnerState };

    ghost view = { λ runner. record { left = map cut_exit runner.exits.items; past = runner.past.items; calls = runner.calls } };
}

impl MemRunner {
    /// A runner that gives these exits. `fail` holds the numbers of the calls that fail, counted from 1.
    pub fn new(alloc: Global, exits: Vec<Exit>, fail: Vec<u64>) -> MemRunner
        ensures { result ≡ record { left = map cut_exit exits.items; past = []; calls = no_calls fail.items } }
    {
        MemRunner {
            exits,
            past: Vec::new(alloc),
            calls: Calls::new(fail),
        }
    }

    /// The runs made, in order.
    pub fn past(&self) -> &[Run]
        ensures { result.now ≡ self.now.past }
    {
        &self.past
    }
}

/// Keeps a run.
fn keep_run(
    past: &mut Vec<Run>,
    alloc: Global,
    program: &[u8],
    input: &[u8],
    exit: Option<Exit>,
) -> Result<(), AllocError>
    ensures { MatchResult result
        (λ _. past.new.items ≡ past.old.items ++ record { program = program.now; input = input.now; exit = exit } ∷ [])
        (λ _. past.new.items ≡ past.old.items) }
{
    let program = Bytes::new(program.to_vec(alloc)?);
    let input = Bytes::new(input.to_vec(alloc)?);
    past.push(Run {
        program,
        input,
        exit,
    })?;
    Ok(())
}

impl Runner for MemRunner {
    ghost state = { mem_runner };

    /// It fails exactly where `fail` holds the call's number or no exit is left. A call that wants memory changes
    /// nothing, and has no number.
    fn run(&mut self, alloc: Global, program: &[u8], input: &[u8]) -> Result<Exit, GetFault>
        ensures short { IfOk result (λ exit. length exit.reply ≤ 8194) }
        ensures never_long { IsErrOf result GetFault.Long → ⊥ }
        ensures left { Takes (Some self.old.left) (Some self.new.left) (result_ok result) }
        ensures past { Recalls (Some self.old.past) (Some self.new.past) (run_kept program.now input.now result) }
        ensures cause { HasGetCause self.old.calls.faults self.new.calls.faults result }
        ensures listed { IsTrue (fails_next self.old.calls) → IfOk result (λ _. ⊥) }
        ensures failed { IsErrOf result GetFault.Failed → fails_next self.old.calls ≡ false → self.old.left ≡ [] }
        ensures calls { MatchOption (ended result) (self.new ≡ self.old)
            (λ exit. self.new.calls ≡ called self.old.calls (is_none exit)) }
    {
        if self.calls.fails_next() || self.exits.is_empty() {
            keep_run(&mut self.past, alloc, program, input, None)?;
            self.calls.count(true);
            return Err(GetFault::Failed);
        }
        let first = &self.exits[0];
        let exit = first.cut(alloc)?;
        let kept = first.cut(alloc)?;
        keep_run(&mut self.past, alloc, program, input, Some(kept))?;
        self.calls.count(false);
        let _ = self.exits.remove(0);
        Ok(exit)
    }
}

/// A runner that gives these exits without a fault, and then status 0 with an empty reply.
#[derive(Debug, Drop)]
pub struct SoundRunner {
    exits: Vec<Exit>,
}

impl Model for SoundRunner {
    ghost use Rattle.std.specs.Prelude.{List};
    ghost use Rattle.da_outside.specs.declared.runner.Exit.{Exit};

    ghost Value = { List Exit };

    ghost view = { λ runner. runner.exits.items };
}

impl SoundRunner {
    /// A runner that gives these exits.
    pub fn new(exits: Vec<Exit>) -> SoundRunner
        ensures { result ≡ exits.items }
    {
        SoundRunner { exits }
    }
}

impl Runner for SoundRunner {
    ghost state = { λ _. record { left = None; past = None; faults = 0 } };

    fn run(&mut self, alloc: Global, _program: &[u8], _input: &[u8]) -> Result<Exit, GetFault>
        ensures short { IfOk result (λ exit. length exit.reply ≤ 8194) }
        ensures gives { IsOkAnd result (SoundRuns self.old self.new) }
    {
        let Some(Exit { status, reply }) = take_first(&mut self.exits) else {
            return Ok(Exit {
                status: 0,
                reply: Bytes::new(Vec::new(alloc)),
            });
        };
        Ok(Exit {
            status,
            reply: reply.cut(LONGEST_REPLY),
        })
    }
}
