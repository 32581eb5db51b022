// Workers, each a child whose standard streams are a link.

ghost use Rattle.std.specs.Prelude.{◌≡◌, None, IfOk, IsErrOf};
ghost use Rattle.da_outside.specs.Link.{Receives};

use crate::children::{Running, Started, Starts, fault_of, start};
use crate::limits::Deadline;
use crate::lines::{Held, write_line};
use crate::patient::{Patient, Quiet};
use da_outside::{Failed, GetFault, Link, Spawner};
use std::alloc::Global;
use std::io::{self, PipeReader, PipeWriter};
use std::os::fd::AsRawFd;
use std::process::Command;
use std::str;

/// A link to a child: lines go to its standard input and come from its standard output. An error of either pipe is a
/// fault, as is the end of what comes in, and a line that isn't taken or given in time. Where it is let go, the child is
/// killed and waited for.
#[derive(Drop)]
pub struct ChildLink<'a, R: Starts> {
    rt: &'a R,
    limit: u64,
    running: Running<'a, R>,
    to: PipeWriter,
    from: PipeReader,
    held: Held,
    deadline: Option<Deadline<'a, R>>,
    faults: u64,
}

impl<'a, R: Starts> ChildLink<'a, R> {
    // The line has to be taken within the limit, and what then comes has to come within what is left of it.
    fn tell(&mut self, line: &[u8]) -> io::Result<()>
        ensures { self.new.faults ≡ self.old.faults }
    {
        let deadline = Deadline::after(self.rt, self.limit)?;
        let fd = self.to.as_raw_fd();
        write_line(&mut Patient::new(Quiet::new(fd), fd, &deadline), line)?;
        self.deadline = Some(deadline);
        Ok(())
    }

    fn hear(&mut self, alloc: Global) -> Result<Vec<u8>, GetFault>
        ensures gives { Receives None None result }
        ensures faults { self.new.faults ≡ self.old.faults }
    {
        let deadline = match self.deadline.take() {
            Some(deadline) => deadline,
            None => Deadline::after(self.rt, self.limit).map_err(fault_of)?,
        };
        let fd = self.from.as_raw_fd();
        let mut from = Patient::new(&self.from, fd, deadline);
        self.held.next_untold(alloc, &mut from)
    }
}

impl<'a, R: Starts> Link for ChildLink<'a, R> {
    ghost state = { λ link. record { left = None; talk = None; faults = link.faults } };

    fn send(&mut self, line: &[u8]) -> Result<(), Failed> {
        if self.tell(line).is_err() {
            self.faults = self.faults.saturating_add(1);
            return Err(Failed);
        }
        Ok(())
    }

    fn receive(&mut self, alloc: Global) -> Result<Vec<u8>, GetFault> {
        let answer = self.hear(alloc);
        if let Err(GetFault::Failed) = answer {
            self.faults = self.faults.saturating_add(1);
        }
        answer
    }
}

/// What starts workers as children. A start fails where the command is empty or no text, or can't be run.
#[derive(Drop)]
pub struct Workers<'a, R> {
    rt: &'a R,
    limit: u64,
    faults: u64,
}

impl<'a, R: Starts> Workers<'a, R> {
    /// Each exchange over a link may take so many milliseconds.
    pub fn new(rt: &'a R, limit: u64) -> Self {
        Workers {
            rt,
            limit,
            faults: 0,
        }
    }
}

impl<'a, R: Starts> Spawner for Workers<'a, R> {
    type Link = ChildLink<'a, R>;

    ghost state = { λ workers. record { left = None; past = None; faults = workers.faults } };

    fn start(&mut self, alloc: Global, command: &[Vec<u8>]) -> Result<ChildLink<'a, R>, GetFault> {
        let answer = start_link(self.rt, alloc, self.limit, command);
        if let Err(GetFault::Failed) = answer {
            self.faults = self.faults.saturating_add(1);
        }
        answer
    }

    fn finish(&mut self, link: ChildLink<'a, R>) {
        if link.faults > 0 {
            self.faults = self.faults.saturating_add(1);
        }
        drop(link);
    }
}

fn start_link<'a, R: Starts>(
    rt: &'a R,
    alloc: Global,
    limit: u64,
    command: &[Vec<u8>],
) -> Result<ChildLink<'a, R>, GetFault>
    ensures never_long { IsErrOf result GetFault.Long → ⊥ }
    ensures fresh { IfOk result (λ link. link.faults ≡ 0) }
{
    let mut command = command_of(alloc, command)?;
    let Started { running, to, from } = start(rt, alloc, &mut command).map_err(fault_of)?;
    Ok(ChildLink {
        rt,
        limit,
        running,
        to,
        from,
        held: Held::new(alloc),
        deadline: None,
        faults: 0,
    })
}

fn command_of(alloc: Global, words: &[Vec<u8>]) -> Result<Command, GetFault>
    ensures { IsErrOf result GetFault.Long → ⊥ }
{
    let [program, arguments @ ..] = words else {
        return Err(GetFault::Failed);
    };
    let mut command = Command::new(alloc, text_of(program)?)?;
    for argument in arguments {
        command.arg(text_of(argument)?)?;
    }
    Ok(command)
}

fn text_of(word: &[u8]) -> Result<&str, GetFault>
    ensures { IsErrOf result GetFault.Long → ⊥ }
{
    str::from_utf8(word).map_err(|_| GetFault::Failed)
}
