// The answer to one line of input.

ghost use Rattle.std.specs.Prelude.{◌≡◌, ◌++◌, ◌∷◌, [], IfOk, option_copied};
ghost use Rattle.da_base.specs.Words.{nth};
ghost use Rattle.da_worker.specs.AnsweredQueries.{path_in, path_for, fail_line};
ghost use Rattle.da_worker.specs.Answering.{ReadsFor, Answers, AnswersLine, StopsAtLine, reading_line};

use crate::passwd::row;
use da_fields::{Query, QueryKind, Text};
use da_outside::{Files, GetFault, Sink};
use da_query::{print_answer, read_query};
use da_stream::{LineHandler, write_all};
use da_tabline::{escape, push_field};
use std::alloc::{AllocError, Global};

// The most bytes that a file may have.
const FILE_MAX: usize = 4_194_304;

/// What there is to answer a query by.
#[derive(Drop)]
pub(crate) enum Reading {
    /// Its database isn't there or has no file.
    NoFile,
    /// The bytes of its file.
    Given(Vec<u8>),
    /// Its file is too long.
    Long,
    /// Its file can't be read.
    Failed,
}

/// Why a line ends the run.
#[derive(Clone, Copy, Drop)]
pub(crate) enum LineStop {
    /// It is no query.
    NotQuery,
    /// The output failed.
    WriteFault,
    /// Memory was wanted, and nothing was written.
    NoMemory,
}

fn path_at(paths: &[Text], db: u32) -> Option<&[u8]>
    ensures { option_copied result ≡ path_in (nth paths.now db) }
{
    if db == 0 {
        return None;
    }
    let path = paths.get(db as usize - 1)?.bytes();
    if path.is_empty() {
        return None;
    }
    Some(path)
}

fn path_for<'a>(pass: &'a [Text], users: &'a [Text], kind: QueryKind, db: u32) -> Option<&'a [u8]>
    ensures { option_copied result ≡ path_for pass.now users.now kind db }
{
    match kind {
        QueryKind::Pass => path_at(pass, db),
        QueryKind::User => path_at(users, db),
        QueryKind::Check => None,
    }
}

fn read_file<F: Files>(
    alloc: Global,
    path: Option<&[u8]>,
    files: &mut F,
) -> Result<Reading, AllocError>
    ensures { ReadsFor (option_copied path.entry) (F.state files.old) (F.state files.new) result }
{
    let Some(path) = path else {
        return Ok(Reading::NoFile);
    };
    match files.read(alloc, path, FILE_MAX) {
        Ok(bytes) => Ok(Reading::Given(bytes)),
        Err(GetFault::Long) => Ok(Reading::Long),
        Err(GetFault::Failed) => Ok(Reading::Failed),
        Err(GetFault::NoMemory) => Err(AllocError),
    }
}

fn fail_line(alloc: Global, number: u32, reason: &[u8]) -> Result<Vec<u8>, AllocError>
    ensures { IfOk result (λ line. line.items ≡ fail_line number reason.now) }
{
    let mut line = escape(alloc, b"FAIL")?;
    let digits = number.to_string(alloc)?;
    push_field(&mut line, digits.as_bytes())?;
    push_field(&mut line, reason)?;
    Ok(line)
}

fn reading_line(alloc: Global, query: &Query, reading: &Reading) -> Result<Vec<u8>, AllocError>
    ensures { IfOk result (λ line. line.items ≡ reading_line query.now reading.now) }
{
    match reading {
        Reading::NoFile => fail_line(alloc, query.number, b"driver"),
        Reading::Given(bytes) => {
            let answer = row(alloc, bytes, query)?;
            print_answer(alloc, query.number, &answer)
        }
        Reading::Long => fail_line(alloc, query.number, b"long"),
        Reading::Failed => fail_line(alloc, query.number, b"file"),
    }
}

// The line and its LF.
fn reading_text(alloc: Global, query: &Query, reading: &Reading) -> Result<Vec<u8>, AllocError>
    ensures { IfOk result (λ text. text.items ≡ reading_line query.now reading.now ++ 10 ∷ []) }
{
    let mut text = reading_line(alloc, query, reading)?;
    text.push(b'\n')?;
    Ok(text)
}

/// What answers the queries of lines. `pass` and `users` have the path of each database's file, or the empty text.
#[derive(Drop)]
pub(crate) struct Answerer<'a, F, K> {
    pub(crate) alloc: Global,
    pub(crate) pass: &'a [Text],
    pub(crate) users: &'a [Text],
    pub(crate) files: &'a mut F,
    pub(crate) output: &'a mut K,
}

impl<'a, F: Files, K: Sink> LineHandler for Answerer<'a, F, K> {
    type Stop = LineStop;

    ghost same = { λ old new. (new.files.ghost_name ≡ old.files.ghost_name) × (new.output.ghost_name ≡ old.output.ghost_name) };

    ghost takes = { λ n line old new. AnswersLine line
        (record {
          pass = old.pass.now;
          users = old.users.now;
          files = F.state old.files.now;
          output = K.state old.output.now;
        })
        (record {
          pass = new.pass.now;
          users = new.users.now;
          files = F.state new.files.now;
          output = K.state new.output.now;
        }) };

    ghost stops = { λ n line old new stop. StopsAtLine line
        (record {
          pass = old.pass.now;
          users = old.users.now;
          files = F.state old.files.now;
          output = K.state old.output.now;
        })
        (record {
          pass = new.pass.now;
          users = new.users.now;
          files = F.state new.files.now;
          output = K.state new.output.now;
        })
        stop };

    ghost use Rattle.std.proofs.Common.{rules};

    ghost same_as_itself = { λ x. Prim.search rules };

    ghost same_further = { λ x y z one two. Prim.search rules };

    /// Answers the query that the line spells.
    fn take(&mut self, _number: u64, line: &[u8]) -> Result<(), LineStop> {
        let query = match read_query(self.alloc, line) {
            Ok(Some(query)) => query,
            Ok(None) => return Err(LineStop::NotQuery),
            Err(_) => return Err(LineStop::NoMemory),
        };
        let path = path_for(self.pass, self.users, query.kind, query.db);
        answer(self.alloc, &query, path, self.files, self.output)
    }
}

/// Answers a query by the file at this path, where it has one.
fn answer<F: Files, K: Sink>(
    alloc: Global,
    query: &Query,
    path: Option<&[u8]>,
    files: &mut F,
    output: &mut K,
) -> Result<(), LineStop>
    ensures { Answers (option_copied path.entry) query.now (F.state files.old) (F.state files.new)
        (K.state output.old) (K.state output.new) result }
{
    let Ok(reading) = read_file(alloc, path, files) else {
        return Err(LineStop::NoMemory);
    };
    let Ok(text) = reading_text(alloc, query, &reading) else {
        return Err(LineStop::NoMemory);
    };
    match write_all(output, &text) {
        Ok(()) => Ok(()),
        Err(_) => Err(LineStop::WriteFault),
    }
}
