// Hits: which answers are repeated.

ghost use Rattle.std.specs.Prelude.{◌≡◌, ◌∷◌, ◌++◌, IfOk, option_map, OnOk};
ghost use Rattle.da_answers.specs.Bridges.{next_hit as hit_next, with_repeat};
ghost use Rattle.da_tables.specs.Hits.{newest, last_failed, may_use, is_usable_answer, is_usable, hit_for, answer_of, with_hit, hits_from, database_count, hit_comparison, after_hit, after_hits};
ghost use Rattle.da_tables.specs.RecordedAnswers.{key_of};
ghost use Rattle.da_base.specs.Words.{nth, passes_option};
ghost use Rattle.da_keys.specs.Keys.{same_key};
ghost use Rattle.da_request.specs.Requests.{question_in, request_stage};

use crate::recording::{key_of as key_for, ttl_of};
use da_fields::Answer;
use da_keys::{Key, has_key, is_same_kind};
use da_request::{Question, Request, Stage, add_answer, row, use_comparison};
use da_settings::Settings;
use da_tables::{Comparisons, QueryRow, Tables, answer_in_row, use_row_again};
use std::alloc::{AllocError, Global};

// ---- the newest answer to a key

fn is_same_key(one: &Question, other: &Question) -> bool
    ensures { result ≡ same_key (key_of one.now) (key_of other.now) }
{
    is_same_kind(one.kind, other.kind)
        && one.db == other.db
        && one.user.bytes() == other.user.bytes()
}

// Whether the query of this number has the question's key.
fn has_key_of(queries: &[QueryRow], number: u32, question: &Question) -> bool
    ensures { result ≡ passes_option (λ a. same_key (key_of question.now) (key_of a.question)) (nth queries.now number) }
{
    match row(queries, number) {
        Some(query_row) => is_same_key(question, &query_row.question),
        None => false,
    }
}

/// The query with the question's key whose answer was recorded last.
pub fn newest(tables: &Tables, question: &Question) -> Option<u32>
    ensures { result ≡ newest tables.now (key_of question.now) }
{
    for number in tables.cacheable.all() {
        if has_key_of(tables.queries.all(), *number, question) {
            return Some(*number);
        }
    }
    None
}

// ---- when it may be repeated

// Whether the last use that checked a password didn't match.
fn last_failed(comparisons: &Comparisons) -> bool
    ensures { result ≡ last_failed comparisons.now }
{
    match comparisons.all().first() {
        Some(matched) => !*matched,
        None => false,
    }
}

// Whether a use that found this may be made: one that doesn't match is made only after a use that didn't match.
fn may_use(comparison: Option<bool>, comparisons: &Comparisons) -> bool
    ensures { result ≡ may_use comparison comparisons.now }
{
    match comparison {
        Some(false) => last_failed(comparisons),
        _ => true,
    }
}

// Whether the query's answer, which was recorded at this moment, is usable for what the request asks.
fn is_usable_answer(
    alloc: Global,
    settings: &Settings,
    moment: u64,
    request: &Request,
    question: &Question,
    query_row: &QueryRow,
    answer: &(Answer, u64),
) -> Result<bool, AllocError>
    ensures { IfOk result (λ usable. usable ≡ is_usable_answer settings.now moment request.now question.now query_row.now answer.now) }
{
    let ttl = ttl_of(settings, &answer.0);
    if ttl == 0 || moment.saturating_sub(answer.1) > ttl {
        return Ok(false);
    }
    let comparison = use_comparison(alloc, settings, request, question, &answer.0)?;
    Ok(may_use(comparison, &query_row.comparisons))
}

/// Whether the answer to the query of this number is usable for what the request asks.
#[tactic(auto, unfolding(da_tables::specs::Hits::is_usable))]
pub fn is_usable(
    alloc: Global,
    settings: &Settings,
    moment: u64,
    tables: &Tables,
    request: &Request,
    question: &Question,
    number: u32,
) -> Result<bool, AllocError>
    ensures { IfOk result (λ usable. usable ≡ is_usable settings.now moment tables.now request.now question.now number) }
{
    let Some(query_row) = tables.query(number) else {
        return Ok(false);
    };
    match &query_row.answer {
        Some(answer) => is_usable_answer(
            alloc, settings, moment, request, question, query_row, answer,
        ),
        None => Ok(false),
    }
}

/// The hit for a question, if there is one. The cache is asked first.
pub fn hit_for(
    alloc: Global,
    settings: &Settings,
    moment: u64,
    tables: &Tables,
    request: &Request,
    question: &Question,
) -> Result<Option<u32>, AllocError>
    ensures { IfOk result (λ hit. hit ≡ hit_for settings.now moment tables.now request.now question.now) }
{
    if !has_key(
        tables.keys.all(),
        question.kind,
        question.db,
        question.user.bytes(),
    ) {
        return Ok(None);
    }
    let Some(number) = newest(tables, question) else {
        return Ok(None);
    };
    if is_usable(alloc, settings, moment, tables, request, question, number)? {
        Ok(Some(number))
    } else {
        Ok(None)
    }
}

// ---- the hits of a request

/// A hit: what the request asks, and the query whose answer is usable for that.
#[derive(Drop)]
pub struct Hit {
    pub question: Question,
    pub number: u32,
}

// What the request asks now.
fn asked_by(
    alloc: Global,
    settings: &Settings,
    request: &Request,
) -> Result<Option<Question>, AllocError>
    ensures { IfOk result (λ question. question ≡ question_in (request_stage settings.now request.now)) }
{
    match request.stage(alloc, settings)? {
        Stage::Asks(question) => Ok(Some(question)),
        Stage::Awaits(_) | Stage::Decided(_) => Ok(None),
    }
}

// The hit for what the request asks now.
fn next_hit(
    alloc: Global,
    settings: &Settings,
    moment: u64,
    tables: &Tables,
    request: &Request,
) -> Result<Option<Hit>, AllocError>
    ensures { IfOk result (λ hit. hit ≡ hit_next settings.now moment tables.now request.now) }
{
    let Some(question) = asked_by(alloc, settings, request)? else {
        return Ok(None);
    };
    match hit_for(alloc, settings, moment, tables, request, &question)? {
        Some(number) => Ok(Some(Hit { question, number })),
        None => Ok(None),
    }
}

/// The recorded answer to the query of this number, where there is one.
fn answer_of(tables: &Tables, number: u32) -> Option<&Answer>
    ensures { option_map (λ answer. answer.now) result ≡ answer_of tables.now number }
{
    match tables.query(number) {
        Some(query_row) => match &query_row.answer {
            Some((answer, _)) => Some(answer),
            None => None,
        },
        None => None,
    }
}

// The request has this hit.
fn take_hit(
    alloc: Global,
    tables: &Tables,
    hit: &Hit,
    request: &mut Request,
) -> Result<(), AllocError>
    ensures { OnOk result (request.new ≡ with_hit tables.now hit.now.question hit.now.number request.old) }
{
    match answer_of(tables, hit.number) {
        Some(answer) => add_answer(request, hit.question.db, answer.copy(alloc)?),
        None => Ok(()),
    }
}

// The hits for the request over at most so many databases are put last, and the request has them.
fn add_hits(
    alloc: Global,
    settings: &Settings,
    moment: u64,
    tables: &Tables,
    databases: usize,
    request: &mut Request,
    hits: &mut Vec<u32>,
) -> Result<(), AllocError>
    ensures { OnOk result (hits.new.items ≡ hits.old.items ++ hits_from databases settings.now moment tables.now request.old) }
{
    let mut left = databases;
    while left > 0 {
        let Some(hit) = next_hit(alloc, settings, moment, tables, request)? else {
            return Ok(());
        };
        hits.push(hit.number)?;
        take_hit(alloc, tables, &hit, request)?;
        left -= 1;
    }
    Ok(())
}

// The hits for a request whose hit this is, over at most so many databases after that one, are put last.
fn add_hits_after(
    alloc: Global,
    settings: &Settings,
    moment: u64,
    tables: &Tables,
    databases: usize,
    request: &Request,
    first: &Hit,
    hits: &mut Vec<u32>,
) -> Result<(), AllocError>
    ensures { OnOk result (hits.new.items ≡ hits.old.items ++ hits_from databases settings.now moment tables.now (with_hit tables.now first.now.question first.now.number request.now)) }
{
    let mut after = request.copy(alloc)?;
    take_hit(alloc, tables, first, &mut after)?;
    add_hits(alloc, settings, moment, tables, databases, &mut after, hits)
}

// The hits for a request, whose first hit this is, over at most so many databases after that one.
fn hits_after(
    alloc: Global,
    settings: &Settings,
    moment: u64,
    tables: &Tables,
    databases: usize,
    request: &Request,
    first: &Hit,
) -> Result<Vec<u32>, AllocError>
    ensures { IfOk result (λ hits. hits.items ≡ first.now.number ∷ hits_from databases settings.now moment tables.now (with_hit tables.now first.now.question first.now.number request.now)) }
{
    let mut hits = Vec::new(alloc);
    hits.push(first.number)?;
    add_hits_after(
        alloc, settings, moment, tables, databases, request, first, &mut hits,
    )?;
    Ok(hits)
}

/// The hits for a request, over at most so many databases. Where the cache is empty nothing is computed.
pub fn hits_from(
    alloc: Global,
    settings: &Settings,
    moment: u64,
    tables: &Tables,
    databases: usize,
    request: &Request,
) -> Result<Vec<u32>, AllocError>
    ensures { IfOk result (λ hits. hits.items ≡ hits_from databases settings.now moment tables.now request.now) }
{
    if databases == 0 || tables.keys.all().is_empty() {
        return Ok(Vec::new(alloc));
    }
    match next_hit(alloc, settings, moment, tables, request)? {
        Some(first) => hits_after(
            alloc,
            settings,
            moment,
            tables,
            databases - 1,
            request,
            &first,
        ),
        None => Ok(Vec::new(alloc)),
    }
}

/// How many databases there are, and so at most how many hits.
pub fn database_count(settings: &Settings) -> usize
    ensures { result ≡ database_count settings.now }
{
    settings.passdbs().len() + settings.userdbs().len()
}

// ---- what a hit does to the tables

// What the use of the answer by the request of this number finds.
fn hit_comparison(
    alloc: Global,
    settings: &Settings,
    requests: &[Request],
    continued: u32,
    answer: &Answer,
) -> Result<Option<bool>, AllocError>
    ensures { IfOk result (λ comparison. comparison ≡ hit_comparison settings.now answer.now (nth requests.now continued)) }
{
    let Some(request) = row(requests, continued) else {
        return Ok(None);
    };
    match request.stage(alloc, settings)? {
        Stage::Asks(question) => use_comparison(alloc, settings, request, &question, answer),
        _ => Ok(None),
    }
}

// The answer is repeated for the request, a use of it found this, and its key comes first.
fn repeat(
    continued: u32,
    number: u32,
    answer: (u32, Answer),
    comparison: Option<bool>,
    key: Key,
    tables: &mut Tables,
) -> Result<(), AllocError>
    ensures { OnOk result (tables.new ≡ with_repeat continued number answer.0 answer.1 comparison key tables.old) }
{
    tables.keys.bring_first(key)?;
    use_row_again(&mut tables.queries, number, comparison)?;
    answer_in_row(&mut tables.requests, continued, answer.0, answer.1)
}

/// The answer to the query of this number is repeated for the request `continued`, and its key comes first.
pub fn after_hit(
    alloc: Global,
    settings: &Settings,
    continued: u32,
    tables: &mut Tables,
    number: u32,
) -> Result<(), AllocError>
    ensures { OnOk result (tables.new ≡ after_hit settings.now continued tables.old number) }
{
    let Some(query_row) = tables.query(number) else {
        return Ok(());
    };
    let Some((answer, _)) = &query_row.answer else {
        return Ok(());
    };
    let comparison = hit_comparison(alloc, settings, tables.requests.all(), continued, answer)?;
    let key = key_for(alloc, &query_row.question)?;
    let with_repeat = (query_row.question.db, answer.copy(alloc)?);
    repeat(continued, number, with_repeat, comparison, key, tables)
}

/// The same for each of the queries of these numbers, one after the other.
pub fn after_hits(
    alloc: Global,
    settings: &Settings,
    continued: u32,
    tables: &mut Tables,
    hits: &[u32],
) -> Result<(), AllocError>
    ensures { OnOk result (tables.new ≡ after_hits settings.now continued tables.old hits.now) }
{
    for number in hits {
        after_hit(alloc, settings, continued, tables, *number)?;
    }
    Ok(())
}
