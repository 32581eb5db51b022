// Answers that are lost: their queries are asked once more.

ghost use Rattle.std.specs.Prelude.{◌≡◌, ◌<◌, ◌^◌, ◌-◌, length};
ghost use Rattle.da_tables.specs.RecordedAnswers.{asks_again, asks_same, is_death, is_kept_kind, is_lost};
ghost use Rattle.da_base.specs.Words.{number_where};
ghost use Rattle.da_tables.specs.Bridges.{with_effect};

use da_fields::{Answer, QueryKind, Why};
use da_tables::{InputEffect, QueryRow, Tables, is_undecided_in};

// Whether the worker that was to answer has died.
fn is_death(answer: &Answer) -> bool
    ensures { result ≡ is_death answer.now }
{
    match answer {
        Answer::Internal(Why::Died) => true,
        _ => false,
    }
}

/// Whether a query of this kind tells what is stored, and runs no program.
pub(crate) fn is_kept_kind(kind: QueryKind) -> bool
    ensures { result ≡ is_kept_kind kind }
{
    match kind {
        QueryKind::Check => false,
        QueryKind::Pass | QueryKind::User => true,
    }
}

// Whether these are two queries of one request to one database.
fn asks_same(one: &QueryRow, other: &QueryRow) -> bool
    ensures { result ≡ asks_same one.now other.now }
{
    other.request == one.request && other.question.db == one.question.db
}

// The number of the first query that this one's request asked this one's database, 0 where there is none.
fn first_asked(queries: &[QueryRow], query_row: &QueryRow) -> u32
    requires { length queries.now < 2 ^ 32 - 1 }
    ensures { result ≡ number_where (asks_same query_row.now) queries.now }
{
    let mut before: u32 = 0;
    for other in queries {
        if asks_same(query_row, other) {
            return before + 1;
        }
        before += 1;
    }
    0
}

/// Whether the query of this number, answered so, is lost with its worker: it is the first that its request asked its
/// database, and runs no program.
pub(crate) fn is_lost(
    queries: &[QueryRow],
    number: u32,
    query_row: &QueryRow,
    answer: &Answer,
) -> bool
    requires { length queries.now < 2 ^ 32 - 1 }
    ensures { result ≡ is_lost queries.now number query_row.now answer.now }
{
    is_death(answer)
        && is_kept_kind(query_row.question.kind)
        && first_asked(queries, query_row) == number
}

/// The request of a lost query continues with the answers that it has, where it is undecided, and so asks once more.
pub(crate) fn ask_again(number: u32, tables: &Tables) -> InputEffect
    ensures { with_effect tables.now result ≡ asks_again number tables.now }
{
    if is_undecided_in(tables.requests.all(), number) {
        return InputEffect::continuing(number);
    }
    InputEffect::continuing_none()
}
