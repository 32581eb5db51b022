// What is recorded of an answer, and which answers are kept.

ghost use Rattle.std.specs.Prelude.{◌≡◌, ◌<◌, ◌-◌, ◌^◌, ◌∷◌, IfOk, Bool, List, Some, OnOk, length};
ghost use Rattle.da_tables.specs.RecordedAnswers.{recorded_answer, is_kept, ttl_of, key_of, compared_by, answered_by, answers_request, after_answer_for, after_answer, kept_in};
ghost use Rattle.da_base.specs.Words.{nth, changed_nth};
ghost use Rattle.da_keys.specs.Keys.{with_key as keys_with};
ghost use Rattle.da_request.specs.declared.stages.Question.{Question as SomeQuestion};
ghost use Rattle.da_tables.specs.Bridges.{with_effect};
ghost use Rattle.da_tables.specs.Queries.{with_comparison};
ghost use Rattle.da_tables.specs.Tables.{with_query};
ghost use Rattle.da_tables.specs.declared.queries.QueryRow.{QueryRow as SomeQueryRow};

use crate::lost::{ask_again, is_kept_kind, is_lost};
use da_fields::{Answer, QueryKind, Why};
use da_keys::Key;
use da_query::fit;
use da_request::{Question, Request, row, use_comparison};
use da_settings::Settings;
use da_tables::{
    InputEffect, Queries, Requests, Tables, answer_in_row, is_running, is_undecided_in,
    late_answer_in_row, put_in_row,
};
use std::alloc::{AllocError, Global};

// ---- what is recorded of an answer

/// The answer as it is recorded: one that doesn't fit its query is malformed.
pub fn recorded_answer(kind: QueryKind, answer: Answer) -> Answer
    ensures { result ≡ recorded_answer kind answer }
{
    if fit(kind, &answer) {
        answer
    } else {
        Answer::Internal(Why::Malformed)
    }
}

/// Whether the cache looks at the answer: one with a stored password or a user's fields, or that there is no such user.
pub fn is_kept(kind: QueryKind, answer: &Answer) -> bool
    ensures { result ≡ is_kept kind answer.now }
{
    match answer {
        Answer::Found { .. } | Answer::Unknown => is_kept_kind(kind),
        _ => false,
    }
}

/// How long the answer may be repeated, in milliseconds.
pub fn ttl_of(settings: &Settings, answer: &Answer) -> u64
    ensures { result ≡ ttl_of settings.now answer.now }
{
    match answer {
        Answer::Found { .. } => settings.cache_ttl,
        Answer::Unknown => settings.cache_negative_ttl,
        _ => 0,
    }
}

/// The key under which the question's answers are kept.
pub fn key_of(alloc: Global, question: &Question) -> Result<Key, AllocError>
    ensures { IfOk result (λ key. key ≡ key_of question.now) }
{
    Ok(Key {
        kind: question.kind,
        db: question.db,
        user: question.user.copy(alloc)?,
    })
}

// What the use of the answer by its own request finds.
fn own_comparison(
    alloc: Global,
    settings: &Settings,
    requests: &[Request],
    number: u32,
    question: &Question,
    answer: &Answer,
) -> Result<Option<bool>, AllocError>
    ensures { IfOk result (λ comparison. (comparisons : List Bool) → with_comparison comparison comparisons ≡ compared_by settings.now (nth requests.now number) question.now answer.now comparisons) }
{
    match row(requests, number) {
        Some(request) => use_comparison(alloc, settings, request, question, answer),
        None => Ok(None),
    }
}

// The answer stands with the query of this number, and so does what its own use found.
fn answer_row(
    alloc: Global,
    settings: &Settings,
    moment: u64,
    number: u32,
    answer: Answer,
    requests: &Requests,
    queries: &mut Queries,
) -> Result<(), AllocError>
    ensures { (a : SomeQueryRow) → nth queries.old number ≡ Some a → OnOk result (queries.new ≡ changed_nth (answered_by settings.now moment (nth requests.now a.request) answer) queries.old number) }
{
    let Some(query_row) = row(queries.all(), number) else {
        return Ok(());
    };
    let comparison = own_comparison(
        alloc,
        settings,
        requests.all(),
        query_row.request,
        &query_row.question,
        &answer,
    )?;
    put_in_row(queries, number, answer, moment, comparison)
}

/// The answer stands with the query of this number, and so does what its own use found.
pub(crate) fn answer_query(
    alloc: Global,
    settings: &Settings,
    moment: u64,
    number: u32,
    answer: Answer,
    tables: &mut Tables,
) -> Result<(), AllocError>
    ensures { (a : SomeQueryRow) → nth tables.old.queries number ≡ Some a → OnOk result (tables.new ≡ with_query (answered_by settings.now moment (nth tables.old.requests a.request) answer) number tables.old) }
{
    answer_row(
        alloc,
        settings,
        moment,
        number,
        answer,
        &tables.requests,
        &mut tables.queries,
    )
}

/// The request has this answer, and continues by it. One that was cancelled or timed out before its stage was decided has
/// its late answer too, and doesn't continue.
pub(crate) fn answer_request(
    number: u32,
    db: u32,
    answer: Answer,
    tables: &mut Tables,
) -> Result<InputEffect, AllocError>
    ensures { (q : SomeQuestion) → q.db ≡ db → IfOk result (λ effect. with_effect tables.new effect ≡ answers_request number q answer tables.old) }
{
    if is_undecided_in(tables.requests.all(), number) {
        answer_in_row(&mut tables.requests, number, db, answer)?;
        return Ok(InputEffect::continuing(number));
    }
    late_answer_in_row(&mut tables.requests, number, db, answer)?;
    Ok(InputEffect::continuing_none())
}

// The answer to the running query of this number is recorded.
fn record_answer_for(
    alloc: Global,
    settings: &Settings,
    moment: u64,
    number: u32,
    answer: Answer,
    tables: &mut Tables,
) -> Result<InputEffect, AllocError>
    requires { length tables.old.queries < 2 ^ 32 - 1 }
    ensures { (a : SomeQueryRow) → nth tables.old.queries number ≡ Some a → IfOk result (λ effect. with_effect tables.new effect ≡ after_answer_for settings.now moment number a answer tables.old) }
{
    let Some(query_row) = tables.query(number) else {
        return Ok(InputEffect::continuing_none());
    };
    let request = query_row.request;
    let db = query_row.question.db;
    let is_lost = is_lost(tables.queries.all(), number, query_row, &answer);
    let same = answer.copy(alloc)?;
    answer_query(alloc, settings, moment, number, answer, tables)?;
    if is_lost {
        return Ok(ask_again(request, tables));
    }
    answer_request(request, db, same, tables)
}

/// The answer to the query of this number is recorded, where that runs. A lost one isn't its request's, which asks once
/// more.
pub fn record_answer(
    alloc: Global,
    settings: &Settings,
    moment: u64,
    number: u32,
    answer: Answer,
    tables: &mut Tables,
) -> Result<InputEffect, AllocError>
    requires { length tables.old.queries < 2 ^ 32 - 1 }
    ensures { IfOk result (λ effect. with_effect tables.new effect ≡ after_answer settings.now moment number answer (nth tables.old.queries number) tables.old) }
{
    let Some(query_row) = tables.query(number) else {
        return Ok(InputEffect::continuing_none());
    };
    if !is_running(query_row) {
        return Ok(InputEffect::continuing_none());
    }
    let recorded = recorded_answer(query_row.question.kind, answer);
    record_answer_for(alloc, settings, moment, number, recorded, tables)
}

// ---- what is kept of it

// The query is recorded last, and its key comes first, or is taken out where its answers have a ttl of 0.
fn keep_key(
    settings: &Settings,
    number: u32,
    ttl: u64,
    key: Key,
    tables: &mut Tables,
) -> Result<(), AllocError>
    ensures { OnOk result (tables.new ≡ record tables.old { cacheable = number ∷ tables.old.cacheable; keys = keys_with settings.now.cache_size ttl key tables.old.keys }) }
{
    tables.cacheable.put_first(number)?;
    tables.keys.put(settings.cache_size, ttl, key)
}

/// The answer of this query is kept, where the cache looks at it.
pub fn keep(
    alloc: Global,
    settings: &Settings,
    number: u32,
    answer: &Answer,
    tables: &mut Tables,
) -> Result<(), AllocError>
    ensures { (a : SomeQueryRow) → nth tables.old.queries number ≡ Some a → OnOk result (tables.new ≡ kept_in settings.now number a.question answer.now tables.old) }
{
    let Some(query_row) = tables.query(number) else {
        return Ok(());
    };
    if !is_kept(query_row.question.kind, answer) {
        return Ok(());
    }
    let key = key_of(alloc, &query_row.question)?;
    keep_key(settings, number, ttl_of(settings, answer), key, tables)
}
