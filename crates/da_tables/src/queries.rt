// The queries of the server: which wait, which run, and changes of them.

ghost use Rattle.std.specs.Prelude.{◌≡◌, ◌<◌, ◌^◌, ◌-◌, ◌++◌, ◌∷◌, [], OnOk, length, IfOk, Some};
ghost use Rattle.da_base.specs.Words.{changed_nth, nth, passes_option};
ghost use Rattle.da_request.specs.Requests.{is_wanted};
ghost use Rattle.da_request.specs.declared.request.Request.{Request as SomeRequest};
ghost use Rattle.da_tables.specs.Bridges.{answered_with};
ghost use Rattle.da_tables.specs.Queries.{as_taken, used_again, is_waiting, first_waiting, is_running, is_running_in, query_with, with_new_query, with_comparison};

use crate::tables::Tables;
use da_fields::{Answer, Query, Text};
use da_request::{Question, Request, query_password, row, row_index};
use da_settings::Settings;
use std::alloc::{AllocError, Global};
use std::marker::Model;

/// What is known of a query.
#[derive(Drop)]
pub struct QueryRow {
    pub request: u32,
    pub question: Question,
    pub password: Option<Text>,
    /// The moment at which it was taken.
    pub taken: Option<u64>,
    /// Its answer, and the moment at which that was recorded.
    pub answer: Option<(Answer, u64)>,
    /// What each use of the answer that checked a password found, the last use first.
    pub comparisons: Comparisons,
}

/// What uses of an answer found, the last first.
#[derive(Drop)]
pub struct Comparisons {
    pub(crate) items: Vec<bool>,
}

impl Model for Comparisons {
    ghost use Rattle.std.specs.Prelude.{List, Bool};

    ghost Value = { List Bool };

    ghost view = { λ t. t.items.items };
}

impl Comparisons {
    /// All of them, in order.
    pub fn all(&self) -> &[bool]
        ensures { result.now ≡ self.now }
    {
        &self.items
    }
}

/// Queries, the first at number 1.
#[derive(Drop)]
pub struct Queries {
    pub(crate) items: Vec<QueryRow>,
}

impl Model for Queries {
    ghost use Rattle.std.specs.Prelude.{List};
    ghost use Rattle.da_tables.specs.declared.queries.QueryRow.{QueryRow};

    ghost Value = { List QueryRow };

    ghost view = { λ t. t.items.items };
}

impl Queries {
    /// All of them, in order.
    pub fn all(&self) -> &[QueryRow]
        ensures { result.now ≡ self.now }
    {
        &self.items
    }
}

pub(crate) fn take_row(queries: &mut [QueryRow], moment: u64, number: u32)
    ensures { queries.new ≡ changed_nth (as_taken moment) queries.old number }
{
    if number > 0 && number as usize <= queries.len() {
        queries[number as usize - 1].taken = Some(moment);
    }
}

// What the use of a query's answer found is put first.
fn use_again(query_row: &mut QueryRow, comparison: Option<bool>) -> Result<(), AllocError>
    ensures { OnOk result (query_row.new ≡ used_again comparison query_row.old) }
{
    add_comparison(&mut query_row.comparisons, comparison)
}

/// What the use of the answer to the query of this number found is put first.
pub fn use_row_again(
    queries: &mut Queries,
    number: u32,
    comparison: Option<bool>,
) -> Result<(), AllocError>
    ensures { OnOk result (queries.new ≡ changed_nth (used_again comparison) queries.old number) }
{
    let Some(index) = row_index(&queries.items, number) else {
        return Ok(());
    };
    let query_row = &mut queries.items[index];
    use_again(query_row, comparison)
}

// Whether the request of this number is there, and is neither cancelled nor timed out.
fn is_wanted(requests: &[Request], number: u32) -> bool
    ensures { result ≡ passes_option is_wanted (nth requests.now number) }
{
    match row(requests, number) {
        Some(request) => request.is_wanted(),
        None => false,
    }
}

/// Whether the query waits to be taken. It waits no more once its request is cancelled or timed out.
pub fn is_waiting(tables: &Tables, query_row: &QueryRow) -> bool
    ensures { result ≡ is_waiting tables.now query_row.now }
{
    query_row.taken.is_none()
        && query_row.answer.is_none()
        && is_wanted(&tables.requests.items, query_row.request)
}

/// The number of the first query that waits, 0 where none does.
pub fn first_waiting(tables: &Tables) -> u32
    requires { length tables.now.queries < 2 ^ 32 - 1 }
    ensures { result ≡ first_waiting tables.now }
{
    let mut before: u32 = 0;
    for query_row in &tables.queries.items {
        if is_waiting(tables, query_row) {
            return before + 1;
        }
        before += 1;
    }
    0
}

/// Whether the query runs: it was taken and has no answer.
pub fn is_running(query_row: &QueryRow) -> bool
    ensures { result ≡ is_running query_row.now }
{
    query_row.taken.is_some() && query_row.answer.is_none()
}

/// Whether the query of this number runs.
pub fn is_running_in(tables: &Tables, query: u32) -> bool
    ensures { result ≡ is_running_in tables.now query }
{
    match row(&tables.queries.items, query) {
        Some(query_row) => is_running(query_row),
        None => false,
    }
}

/// The query as it is handed out.
pub fn query_with(alloc: Global, number: u32, query_row: &QueryRow) -> Result<Query, AllocError>
    ensures { IfOk result (λ query. query ≡ query_with number query_row.now) }
{
    let password = match &query_row.password {
        Some(password) => Some(password.copy(alloc)?),
        None => None,
    };
    Ok(Query {
        number,
        kind: query_row.question.kind,
        db: query_row.question.db,
        user: query_row.question.user.copy(alloc)?,
        password,
    })
}

/// The request of this number asks its question by a query with the next number.
pub fn add_query(
    alloc: Global,
    settings: &Settings,
    tables: &mut Tables,
    number: u32,
    question: Question,
) -> Result<(), AllocError>
    ensures { (r : SomeRequest) → nth tables.old.requests number ≡ Some r → OnOk result (tables.new ≡ with_new_query settings.now number r question tables.old) }
{
    let password = match row(&tables.requests.items, number) {
        Some(request) => query_password(alloc, settings, request, question.kind)?,
        None => None,
    };
    tables.queries.items.push(QueryRow {
        request: number,
        question,
        password,
        taken: None,
        answer: None,
        comparisons: Comparisons {
            items: Vec::new(alloc),
        },
    })?;
    Ok(())
}

/// What a use found is put first.
pub(crate) fn add_comparison(
    comparisons: &mut Comparisons,
    comparison: Option<bool>,
) -> Result<(), AllocError>
    ensures { OnOk result (comparisons.new ≡ with_comparison comparison comparisons.old) }
{
    if let Some(matched) = comparison {
        comparisons.items.insert(0, matched)?;
    }
    Ok(())
}

// The answer stands with its query, and so does what a use found.
fn put_answer(
    query_row: &mut QueryRow,
    answer: Answer,
    moment: u64,
    comparison: Option<bool>,
) -> Result<(), AllocError>
    ensures { OnOk result (query_row.new ≡ answered_with moment comparison answer query_row.old) }
{
    query_row.answer = Some((answer, moment));
    add_comparison(&mut query_row.comparisons, comparison)
}

/// The answer stands with the query of this number, and so does what a use found.
pub fn put_in_row(
    queries: &mut Queries,
    number: u32,
    answer: Answer,
    moment: u64,
    comparison: Option<bool>,
) -> Result<(), AllocError>
    ensures { OnOk result (queries.new ≡ changed_nth (answered_with moment comparison answer) queries.old number) }
{
    let Some(index) = row_index(&queries.items, number) else {
        return Ok(());
    };
    let query_row = &mut queries.items[index];
    put_answer(query_row, answer, moment, comparison)
}
