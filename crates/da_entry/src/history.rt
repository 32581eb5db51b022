// The tables after one more entry.

ghost use Rattle.std.specs.Prelude.{◌≡◌, ◌<◌, ◌^◌, ◌-◌, ◌++◌, ◌∷◌, [], length, IfOk, Some, OnOk};
ghost use Rattle.da_tables.specs.Hits.{after_hits};
ghost use Rattle.da_base.specs.Words.{nth, option_or_else};
ghost use Rattle.da_play.specs.History.{with_handed_out, before_replies as spec_before_replies, before_input as spec_before_input, after_input, follows_from, after_stage, is_answer_recorded as spec_is_recorded, kept_for, keeps};
ghost use Rattle.da_request.specs.declared.request.Request.{Request as SomeRequest};
ghost use Rattle.da_tables.specs.Bridges.{with_effect};
ghost use Rattle.da_tables.specs.declared.tables.Tables.{Tables as SomeTables};

use da_answers::{after_hits, keep, record_answer, recorded_answer};
use da_fields::{Answer, Why};
use da_lines::line;
use da_play::Input;
use da_request::Stage;
use da_settings::Settings;
use da_tables::{InputEffect, Tables, add_query, first_waiting, is_running_in};
use std::alloc::{AllocError, Global};

// ---- part one of an entry: a query is handed out, requests are timed out, and the replies that are due are given

// The first query that waits is handed out, where the input is a Take.
fn hand_out(tables: &mut Tables, moment: u64, input: &Input)
    requires { length tables.old.queries < 2 ^ 32 - 1 }
    ensures { tables.new ≡ with_handed_out moment input.now tables.old }
{
    if let Input::Take = input {
        let number = first_waiting(tables);
        tables.take(moment, number);
    }
}

/// Goes on to where it is seen which replies are due.
pub(crate) fn before_replies(tables: &mut Tables, settings: &Settings, moment: u64, input: &Input)
    requires { length tables.old.queries < 2 ^ 32 - 1 }
    ensures { tables.new ≡ spec_before_replies settings.now moment input.now tables.old }
{
    hand_out(tables, moment, input);
    tables.time_out(settings, moment);
}

/// Goes on to where the input has its own effect.
#[tactic(auto, unfolding(da_play::specs::History::before_input))]
pub(crate) fn before_input(
    tables: &mut Tables,
    alloc: Global,
    settings: &Settings,
    moment: u64,
    input: &Input,
) -> Result<(), AllocError>
    requires { length tables.old.queries < 2 ^ 32 - 1 }
    ensures { OnOk result (tables.new ≡ spec_before_input settings.now moment input.now tables.old) }
{
    before_replies(tables, settings, moment, input);
    tables.reply_due(alloc, settings, moment)
}

// ---- part two of an entry: the input has its own effect

#[tactic(auto, unfolding(da_play::specs::History::after_input))]
pub(crate) fn apply_input(
    tables: &mut Tables,
    alloc: Global,
    settings: &Settings,
    moment: u64,
    input: &Input,
) -> Result<InputEffect, AllocError>
    requires requests { length tables.old.requests < 2 ^ 32 - 1 }
    requires connections { length tables.old.connections < 2 ^ 32 - 1 }
    requires queries { length tables.old.queries < 2 ^ 32 - 1 }
    ensures { IfOk result (λ h. with_effect tables.new h ≡ after_input settings.now moment input.now tables.old) }
{
    match input {
        Input::Opened { kind, random } => tables.push_connection(alloc, *kind, random)?,
        Input::Line { conn, text, random } => {
            return line(tables, alloc, settings, moment, *conn, text.bytes(), random);
        }
        Input::Broken { conn } => {
            tables.end(*conn);
            return Ok(InputEffect::closing(*conn));
        }
        Input::Gone { conn } => tables.end(*conn),
        Input::Take => {}
        Input::Answered { query, answer } => {
            return record_answer(alloc, settings, moment, *query, answer.copy(alloc)?, tables);
        }
        Input::Late { query } => {
            let answer = Answer::Internal(Why::Late);
            return record_answer(alloc, settings, moment, *query, answer, tables);
        }
        Input::Tick => {}
    }
    Ok(InputEffect::continuing_none())
}

fn follow(
    tables: &mut Tables,
    alloc: Global,
    settings: &Settings,
    moment: u64,
    number: u32,
    stage: Stage,
) -> Result<(), AllocError>
    ensures { (r : SomeRequest) → nth tables.old.requests number ≡ Some r → OnOk result (tables.new ≡ follows_from settings.now moment number r stage tables.old) }
{
    match stage {
        Stage::Awaits(_) => Ok(()),
        Stage::Asks(question) => add_query(alloc, settings, tables, number, question),
        Stage::Decided(_) => tables.decide(alloc, settings, moment, number),
    }
}

/// What follows by the stage that the request has after its hits.
#[tactic(auto, unfolding(da_play::specs::History::after_stage))]
fn follow_stage(
    tables: &mut Tables,
    alloc: Global,
    settings: &Settings,
    moment: u64,
    number: u32,
) -> Result<(), AllocError>
    ensures { OnOk result (tables.new ≡ after_stage settings.now moment number tables.old) }
{
    let Some(request) = tables.request(number) else {
        return Ok(());
    };
    let stage = request.stage(alloc, settings)?;
    follow(tables, alloc, settings, moment, number, stage)
}

pub(crate) fn move_on(
    tables: &mut Tables,
    alloc: Global,
    settings: &Settings,
    moment: u64,
    hits: &[u32],
    continued: Option<u32>,
) -> Result<(), AllocError>
    ensures { OnOk result (tables.new ≡ option_or_else continued tables.old (λ number. after_stage settings.now moment number (after_hits settings.now number tables.old hits.now))) }
{
    match continued {
        Some(number) => {
            after_hits(alloc, settings, number, tables, hits)?;
            follow_stage(tables, alloc, settings, moment, number)
        }
        None => Ok(()),
    }
}

pub(crate) fn is_answer_recorded(tables: &Tables, input: &Input) -> bool
    ensures { result ≡ spec_is_recorded tables.now input.now }
{
    match input {
        Input::Answered { query, .. } => is_running_in(tables, *query),
        _ => false,
    }
}

fn keep_answer(
    tables: &mut Tables,
    alloc: Global,
    settings: &Settings,
    query: u32,
    answer: &Answer,
) -> Result<(), AllocError>
    ensures { OnOk result (tables.new ≡ kept_for settings.now query answer.now (nth tables.old.queries query) tables.old) }
{
    let Some(query_row) = tables.query(query) else {
        return Ok(());
    };
    let recorded = recorded_answer(query_row.question.kind, answer.copy(alloc)?);
    keep(alloc, settings, query, &recorded, tables)
}

/// Keeps the answer that the input recorded, if it did.
pub(crate) fn keep_if(
    tables: &mut Tables,
    alloc: Global,
    settings: &Settings,
    input: &Input,
    is_answer_recorded: bool,
) -> Result<(), AllocError>
    ensures { (before : SomeTables) → is_answer_recorded ≡ spec_is_recorded before input.now → OnOk result (tables.new ≡ keeps settings.now before input.now tables.old) }
{
    match input {
        Input::Answered { query, answer } if is_answer_recorded => {
            keep_answer(tables, alloc, settings, *query, answer)
        }
        _ => Ok(()),
    }
}
