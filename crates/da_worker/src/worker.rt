// The run of a worker.

ghost use Rattle.std.specs.Prelude.{◌≡◌};
ghost use Rattle.da_worker.specs.Run.{Ran};
ghost use Rattle.da_worker.specs.Statuses.{status_of_end, status_of_stop};

use crate::answering::{Answerer, LineStop};
use da_fields::Text;
use da_outside::{Files, Sink, Source};
use da_stream::{LinesEnd, run_lines};
use da_tabline::LONGEST_LINE;
use std::alloc::Global;

/// How the run of a worker ended.
#[derive(Clone, Copy, Drop, PartialEq, Eq)]
pub enum WorkerStatus {
    /// The input ended, and each of its queries was answered.
    Done,
    /// This line of the input, counted from 1, is the first that is no query or is too long, or the input ends within it.
    BadInput { line: u64 },
    /// The input has more than 1,073,741,824 bytes.
    LongInput,
    /// The input failed.
    ReadFault,
    /// The output failed.
    WriteFault,
    /// Memory was wanted.
    NoMemory,
}

/// Answers each query line of the input with one line of the output, in order, before the next bytes are read. `pass` and
/// `users` have one text for each database of their kind, in order: the path of its passwd-file, or the empty text where
/// it has none.
///
/// A query is answered by `row` over the bytes of its file, which is read anew at each query. It is answered by a line
/// `FAIL` with its number and a reason: `driver` exactly where it is a `Check`, or its database isn't there or has no file;
/// `long` exactly where the file has more than 4,194,304 bytes; `file` only where the files failed at that query. None of
/// these ends the run.
///
/// The run ends with the first place of the input that ends it, after the answers to all queries before it. A fault of
/// the output and want of memory end it after a front of the answers.
pub fn answer_all<'a, F: Files, S: Source, K: Sink>(
    alloc: Global,
    pass: &'a [Text],
    users: &'a [Text],
    files: &'a mut F,
    input: &mut S,
    output: &'a mut K,
) -> WorkerStatus
    ensures { Ran pass.now users.now
        (record {
          files = F.state files.old;
          input = S.state input.old;
          output = K.state output.old;
        })
        (record {
          files = F.state files.new;
          input = S.state input.new;
          output = K.state output.new;
        })
        result }
{
    let mut answerer = Answerer {
        alloc,
        pass,
        users,
        files,
        output,
    };
    answer_lines(alloc, input, &mut answerer)
}

fn answer_lines<S: Source, F: Files, K: Sink>(
    alloc: Global,
    input: &mut S,
    answerer: &mut Answerer<'_, F, K>,
) -> WorkerStatus
    ensures same_files { answerer.new.files.ghost_name ≡ answerer.old.files.ghost_name }
    ensures same_output { answerer.new.output.ghost_name ≡ answerer.old.output.ghost_name }
    ensures ran { Ran answerer.old.pass.now answerer.old.users.now
        (record {
          files = F.state answerer.old.files.now;
          input = S.state input.old;
          output = K.state answerer.old.output.now;
        })
        (record {
          files = F.state answerer.new.files.now;
          input = S.state input.new;
          output = K.state answerer.new.output.now;
        })
        result }
{
    status_of_end(run_lines(alloc, LONGEST_LINE, input, answerer))
}

fn status_of_end(end: LinesEnd<LineStop>) -> WorkerStatus
    ensures { result ≡ status_of_end end }
{
    match end {
        LinesEnd::Done => WorkerStatus::Done,
        LinesEnd::Cut { line } | LinesEnd::TooLong { line } => WorkerStatus::BadInput { line },
        LinesEnd::LongInput => WorkerStatus::LongInput,
        LinesEnd::ReadFault => WorkerStatus::ReadFault,
        LinesEnd::NoMemory => WorkerStatus::NoMemory,
        LinesEnd::Stopped { line, stop } => status_of_stop(line, stop),
    }
}

fn status_of_stop(line: u64, stop: LineStop) -> WorkerStatus
    ensures { result ≡ status_of_stop line stop }
{
    match stop {
        LineStop::NotQuery => WorkerStatus::BadInput { line },
        LineStop::WriteFault => WorkerStatus::WriteFault,
        LineStop::NoMemory => WorkerStatus::NoMemory,
    }
}
