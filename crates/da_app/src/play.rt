// The play of a script.

ghost use Rattle.std.specs.Prelude.{◌≡◌, ℕ, [], List, IfOk};
ghost use Rattle.da_app.specs.Play.{Plays, Ran, WritesReply, ending, status_of_end, status_of_stop};

use da_command::Status;
use da_core::{Core, Refused, Settings};
use da_outside::{Sink, Source};
use da_script::{print_outputs, print_refused, read_event};
use da_stream::{LineHandler, LinesEnd, run_lines, write_all};
use da_tabline::LONGEST_SCRIPT_LINE;
use std::alloc::{AllocError, Global};

/// Why a line ends the play.
#[derive(Clone, Copy, Drop)]
pub enum LineStop {
    /// It is no event.
    NotEvent,
    /// Its event meets a full history, and nothing was written.
    Full,
    /// The output failed.
    WriteFault,
    /// Memory was wanted, and nothing was written.
    NoMemory,
}

/// What plays the events of lines on a server, and writes the replies.
#[derive(Drop)]
struct Player<'a, K> {
    alloc: Global,
    server: &'a mut Core,
    output: &'a mut K,
}

impl<'a, K: Sink> LineHandler for Player<'a, K> {
    type Stop = LineStop;

    ghost same = { λ old new. (new.server.ghost_name ≡ old.server.ghost_name) × (new.output.ghost_name ≡ old.output.ghost_name) };

    ghost takes = { λ n line old new. PlaysEvent n line
        (record { server = old.server.now; output = K.state old.output.now })
        (record { server = new.server.now; output = K.state new.output.now }) };

    ghost stops = { λ n line old new stop. StopsAtEvent n line
        (record { server = old.server.now; output = K.state old.output.now })
        (record { server = new.server.now; output = K.state new.output.now })
        stop };

    ghost use Rattle.da_app.specs.Play.{PlaysEvent, StopsAtEvent};
    ghost use Rattle.std.proofs.Common.{rules};

    ghost same_as_itself = { λ x. Prim.search rules };

    ghost same_further = { λ x y z one two. Prim.search rules };

    /// Plays the event that the line spells.
    fn take(&mut self, number: u64, line: &[u8]) -> Result<(), LineStop> {
        play_line(self.alloc, self.server, number, line, self.output)
    }
}

fn play_line<K: Sink>(
    alloc: Global,
    server: &mut Core,
    number: u64,
    line: &[u8],
    output: &mut K,
) -> Result<(), LineStop>
    ensures { Plays number line.now
        (record { server = server.old; output = K.state output.old })
        (record { server = server.new; output = K.state output.new })
        result }
{
    let event = match read_event(alloc, line) {
        Ok(Some(event)) => event,
        Ok(None) => return Err(LineStop::NotEvent),
        Err(_) => return Err(LineStop::NoMemory),
    };
    match server.step(event.0, event.1) {
        Ok(outputs) => write_reply(print_outputs(alloc, number, &outputs), output),
        Err(refused) => match ending(refused) {
            Some(stop) => Err(stop),
            None => write_reply(print_refused(alloc, number, &refused), output),
        },
    }
}

/// Why the play ends at once, where an event is refused so. The other refusals are printed, and the play goes on.
fn ending(refused: Refused) -> Option<LineStop>
    ensures { result ≡ ending refused }
{
    match refused {
        Refused::HistoryFull => Some(LineStop::Full),
        Refused::NoMemory => Some(LineStop::NoMemory),
        Refused::ConnLimit { .. }
        | Refused::NoConn { .. }
        | Refused::NothingWaits
        | Refused::NotTaken { .. }
        | Refused::NotLate { .. } => None,
    }
}

/// Writes a printed reply, where there was memory to print it.
fn write_reply<K: Sink>(text: Result<Vec<u8>, AllocError>, output: &mut K) -> Result<(), LineStop>
    ensures { (reply : List ℕ) → IfOk text (λ t. t.items ≡ reply)
        → WritesReply reply (K.state output.old) (K.state output.new) result }
{
    let Ok(text) = text else {
        return Err(LineStop::NoMemory);
    };
    match write_all(output, &text) {
        Ok(()) => Ok(()),
        Err(_) => Err(LineStop::WriteFault),
    }
}

/// Plays the events of the input, one after another, and writes the reply to each before the next line is read. The
/// first event that meets a full history ends the play.
pub fn play_script<S: Source, K: Sink>(
    alloc: Global,
    settings: Settings,
    input: &mut S,
    output: &mut K,
) -> Status
    ensures { Ran settings (S.state input.old) (S.state input.new)
        (K.state output.old) (K.state output.new) result }
{
    let Ok(mut server) = Core::new(alloc, settings, None) else {
        return Status::NoMemory;
    };
    play_on(alloc, &mut server, input, output)
}

/// Plays the events of the input on a server that has no history yet.
fn play_on<S: Source, K: Sink>(
    alloc: Global,
    server: &mut Core,
    input: &mut S,
    output: &mut K,
) -> Status
    requires { server.old.history ≡ [] }
    ensures { Ran server.old.settings (S.state input.old) (S.state input.new)
        (K.state output.old) (K.state output.new) result }
{
    let mut player = Player {
        alloc,
        server,
        output,
    };
    play_lines(input, &mut player)
}

fn play_lines<S: Source, K: Sink>(input: &mut S, player: &mut Player<'_, K>) -> Status
    requires { player.old.server.now.history ≡ [] }
    ensures same_server { player.new.server.ghost_name ≡ player.old.server.ghost_name }
    ensures same_output { player.new.output.ghost_name ≡ player.old.output.ghost_name }
    ensures ran { Ran player.old.server.now.settings (S.state input.old) (S.state input.new)
        (K.state player.old.output.now) (K.state player.new.output.now) result }
{
    status_of_end(run_lines(player.alloc, LONGEST_SCRIPT_LINE, input, player))
}

fn status_of_end(end: LinesEnd<LineStop>) -> Status
    ensures { result ≡ status_of_end end }
{
    match end {
        LinesEnd::Done => Status::Done,
        LinesEnd::Cut { line } | LinesEnd::TooLong { line } => Status::BadScript { line },
        LinesEnd::LongInput => Status::LongScript,
        LinesEnd::ReadFault => Status::ReadFault,
        LinesEnd::NoMemory => Status::NoMemory,
        LinesEnd::Stopped { line, stop } => status_of_stop(line, stop),
    }
}

fn status_of_stop(line: u64, stop: LineStop) -> Status
    ensures { result ≡ status_of_stop line stop }
{
    match stop {
        LineStop::NotEvent => Status::BadScript { line },
        LineStop::Full => Status::Full,
        LineStop::WriteFault => Status::WriteFault,
        LineStop::NoMemory => Status::NoMemory,
    }
}
