// The run over an input line by line.

ghost use Rattle.std.specs.Prelude.{◌<◌, ◌≤◌};
ghost use Rattle.da_stream.specs.LineRuns.{RunsOver};

use crate::fill::{Fill, read_into};
use crate::handler::LineHandler;
use da_outside::Source;
use da_tabline::{LONGEST_INPUT, Lines};
use std::alloc::Global;

/// How a run over an input ended. Lines are counted from 1.
#[derive(Clone, Copy, Drop, PartialEq, Eq)]
pub enum LinesEnd<E> {
    /// The input ended after a whole line, and each line was taken.
    Done,
    /// The input ended within this line, and each line before it was taken.
    Cut { line: u64 },
    /// This line is too long, and each line before it was taken.
    TooLong { line: u64 },
    /// The input has more than 1,073,741,824 bytes.
    LongInput,
    /// The input failed.
    ReadFault,
    /// Memory was wanted.
    NoMemory,
    /// The handler ended the run at this line.
    Stopped { line: u64, stop: E },
}

/// Gives the lines of the input to the handler, in order, each before the next bytes are read. A line has at most
/// `line_max` bytes, and the input at most 1,073,741,824.
pub fn run_lines<S: Source, H: LineHandler>(
    alloc: Global,
    line_max: usize,
    input: &mut S,
    handler: &mut H,
) -> LinesEnd<H::Stop>
    requires least { 0 < line_max }
    requires most { line_max ≤ 16384 }
    ensures same { H.same handler.old handler.new }
    ensures runs { RunsOver H.takes H.stops line_max (S.state input.old) (S.state input.new)
        handler.old handler.new result }
{
    let mut lines = Lines::new(alloc, line_max);
    let mut number = 1;
    let mut budget = LONGEST_INPUT;
    let mut is_long = false;
    'read: loop {
        'lines: while let Some(line) = lines.next() {
            if let Err(stop) = handler.take(number, &line) {
                return LinesEnd::Stopped { line: number, stop };
            }
            number += 1;
        }
        if is_long {
            return LinesEnd::TooLong { line: number };
        }
        match read_into(input, &mut lines, budget) {
            Fill::Fed {
                count,
                is_long: long,
            } => {
                budget -= count;
                is_long = long;
            }
            Fill::End => return LinesEnd::Done,
            Fill::Cut => return LinesEnd::Cut { line: number },
            Fill::Much => return LinesEnd::LongInput,
            Fill::ReadFault => return LinesEnd::ReadFault,
            Fill::NoMemory => return LinesEnd::NoMemory,
        }
    }
}
