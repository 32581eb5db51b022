// The end of the service: its history is printed.

ghost use Rattle.std.specs.Prelude.{◌≡◌, ◌++◌, ◌∷◌, [], reverse, IfOk, OnOk};
ghost use Rattle.da_play.specs.Legal.{IsLegal};
ghost use Rattle.da_port.specs.Terms.{terms_of};
ghost use Rattle.da_script.specs.Scripts.{script};
ghost use Rattle.da_finish.specs.Bridges.{TellsEnd, WritesAhead, WritesScript, entry_line};
ghost use Rattle.da_finish.specs.Printed.{Finishes, HasEnded, Prints, ends_full};
ghost use Rattle.da_stream.specs.Output.{Writes};
ghost use Rattle.da_turn.specs.Entries.{IsLater};
ghost use Rattle.da_turn.specs.Seats.{IsFree, IsOf, seen};

use da_command::Status;
use da_core::{Core, Entry};
use da_outside::{Failed, Sink};
use da_port::{Port, Seat};
use da_script::print_event;
use da_stream::write_all;
use std::alloc::{AllocError, Global};
use std::sync::Wait;

// A long history is written in pieces of about so many bytes.
const CHUNK: usize = 65_536;

/// How the write of a history ended.
#[derive(Clone, Copy, Drop)]
pub(crate) enum Written {
    Whole,
    /// The output failed.
    Fault,
    /// Memory was wanted.
    NoMemory,
}

fn push_entry(text: &mut Vec<u8>, alloc: Global, entry: &Entry) -> Result<(), AllocError>
    ensures { OnOk result (text.new.items ≡ text.old.items ++ entry_line entry.now) }
{
    let mut line = print_event(alloc, entry.moment, &entry.input)?;
    line.push(b'\n')?;
    text.extend_from_slice(&line)
}

// Writes the text once it is long, and goes on with an empty one.
fn write_ahead<K: Sink>(text: &mut Vec<u8>, output: &mut K) -> Result<(), Failed>
    ensures { WritesAhead text.old.items text.new.items (K.state output.old) (K.state output.new) result }
{
    if text.len() < CHUNK {
        return Ok(());
    }
    write_all(output, text)?;
    text.clear();
    Ok(())
}

// Writes what is left of a text.
fn write_rest<K: Sink>(text: &[u8], output: &mut K) -> Written
    ensures { WritesScript text.now (K.state output.old) (K.state output.new) result }
{
    match write_all(output, text) {
        Ok(()) => Written::Whole,
        Err(_) => Written::Fault,
    }
}

// Writes one event for each entry.
fn write_script<K: Sink>(alloc: Global, entries: &[Entry], output: &mut K) -> Written
    ensures { WritesScript (script (reverse entries.now)) (K.state output.old) (K.state output.new) result }
{
    let mut text = Vec::new(alloc);
    for entry in entries {
        let Ok(()) = push_entry(&mut text, alloc, entry) else {
            return Written::NoMemory;
        };
        let Ok(()) = write_ahead(&mut text, output) else {
            return Written::Fault;
        };
    }
    write_rest(&text, output)
}

// The status of a history that was written as a whole.
fn end_of(core: &Core) -> Status
    ensures { TellsEnd (ends_full (terms_of core.now) core.now.history) result }
{
    if core.is_full() && !core.is_over() {
        Status::Full
    } else {
        Status::Done
    }
}

// Writes the history of a core that has ended.
fn print_history<K: Sink>(alloc: Global, core: &Core, output: &mut K) -> Status
    requires { HasEnded (terms_of core.now) core.now.history }
    ensures { Prints (terms_of core.now) core.now.history (K.state output.old) (K.state output.new) result }
{
    match write_script(alloc, core.entries(), output) {
        Written::Whole => end_of(core),
        Written::Fault => Status::WriteFault,
        Written::NoMemory => Status::NoMemory,
    }
}

/// Closes the port, and writes the script of its history: one event for each entry, at the entry's own moment.
pub fn finish_serve<R: Wait, K: Sink>(
    rt: &R,
    alloc: Global,
    port: Port,
    seat: Seat,
    output: &mut K,
) -> Status
    requires own { IsOf port seat × IsFree seat }
    requires ended { HasEnded port.fixed (seen seat) }
    ensures { Finishes port.fixed (seen seat) (K.state output.old) (K.state output.new) result }
{
    let core = port.close(rt, seat);
    print_history(alloc, &core, output)
}
