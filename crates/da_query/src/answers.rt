// Reading answers.

ghost use Rattle.std.specs.Prelude.{◌≡◌, [], Some, None, IfOk};
ghost use Rattle.da_fields.specs.Answers.{fits};
ghost use Rattle.da_query.specs.AnswerLines.{alone, answer_or_malformed, answer_said, answer_to, exit_of, fields_in, fields_of, found_of, internal_of, new_field, numbered_answer, passed_of, plain_answer, said_of, script_answer};

use crate::left::FieldsLeft;
use crate::speaker::Speaker;
use da_fields::{Answer, Fields, Query, QueryKind, Text, Why};
use da_tabline::{decimal_u32, key_and_value};
use std::alloc::{AllocError, Global};

/// Whether the answer is of a kind that answers a query of this kind. It takes no memory.
pub fn fit(kind: QueryKind, answer: &Answer) -> bool
    ensures { result ≡ fits kind answer.now }
{
    match answer {
        Answer::Found { stored, .. } => match kind {
            QueryKind::Pass => true,
            QueryKind::Check => false,
            QueryKind::User => stored.bytes().is_empty(),
        },
        Answer::Passed { .. } | Answer::Mismatch => kind == QueryKind::Check,
        Answer::Unknown | Answer::Internal(_) => true,
    }
}

/// What a worker's line is to this query: the answer that it spells, where it has the query's number and fits its kind.
/// `Internal(Malformed)` exactly where the line isn't an answer to this query. Neither its length nor an LF in it counts.
#[tactic(auto, unfolding(crate::specs::AnswerLines::answer_to))]
pub fn read_answer(alloc: Global, query: &Query, line: &[u8]) -> Result<Answer, AllocError>
    ensures { IfOk result (λ answer. answer ≡ answer_to query.now line.now) }
{
    match numbered_answer(alloc, Speaker::Worker, line)? {
        Some(said) => Ok(answer_or_malformed(query, said.0, said.1)),
        None => Ok(Answer::Internal(Why::Malformed)),
    }
}

fn answer_or_malformed(query: &Query, number: u32, answer: Answer) -> Answer
    ensures { result ≡ answer_or_malformed query.now (Some (number, answer)) }
{
    if number == query.number && fit(query.kind, &answer) {
        answer
    } else {
        Answer::Internal(Why::Malformed)
    }
}

/// The answer that a line of a script spells, with the number of the query that it answers: the line of a worker, but
/// `INTERNAL` and why there was no answer in place of `FAIL`. `None` exactly where the line spells none.
#[tactic(auto, unfolding(crate::specs::AnswerLines::script_answer))]
pub fn read_script_answer(alloc: Global, line: &[u8]) -> Result<Option<(u32, Answer)>, AllocError>
    ensures { IfOk result (λ answer. answer ≡ script_answer line.now) }
{
    numbered_answer(alloc, Speaker::Script, line)
}

fn numbered_answer(
    alloc: Global,
    speaker: Speaker,
    line: &[u8],
) -> Result<Option<(u32, Answer)>, AllocError>
    ensures { IfOk result (λ answer. answer ≡ numbered_answer speaker line.now) }
{
    let mut fields = FieldsLeft::of(line);
    let Some(word) = fields.next(alloc)? else {
        return Ok(None);
    };
    let Some(number) = fields.next(alloc)? else {
        return Ok(None);
    };
    let Some(number) = decimal_u32(number.bytes()) else {
        return Ok(None);
    };
    match answer_said(alloc, speaker, word.bytes(), &mut fields)? {
        Some(answer) => Ok(Some((number, answer))),
        None => Ok(None),
    }
}

fn answer_said(
    alloc: Global,
    speaker: Speaker,
    word: &[u8],
    fields: &mut FieldsLeft<'_>,
) -> Result<Option<Answer>, AllocError>
    ensures { IfOk result (λ answer. answer ≡ answer_said speaker word.now fields.old) }
{
    if speaker == Speaker::Worker && word == b"FAIL".as_slice() {
        said(alloc, fields)
    } else if speaker == Speaker::Script && word == b"INTERNAL".as_slice() {
        internal(alloc, fields)
    } else {
        plain_answer(alloc, word, fields)
    }
}

fn plain_answer(
    alloc: Global,
    word: &[u8],
    fields: &mut FieldsLeft<'_>,
) -> Result<Option<Answer>, AllocError>
    ensures { IfOk result (λ answer. answer ≡ plain_answer word.now fields.old) }
{
    if word == b"FOUND".as_slice() {
        found(alloc, fields)
    } else if word == b"PASSED".as_slice() {
        passed(alloc, fields)
    } else if word == b"MISMATCH".as_slice() {
        Ok(alone(Answer::Mismatch, fields))
    } else if word == b"UNKNOWN".as_slice() {
        Ok(alone(Answer::Unknown, fields))
    } else {
        Ok(None)
    }
}

fn found(alloc: Global, fields: &mut FieldsLeft<'_>) -> Result<Option<Answer>, AllocError>
    ensures { IfOk result (λ answer. answer ≡ found_of fields.old) }
{
    let Some(stored) = fields.next(alloc)? else {
        return Ok(None);
    };
    match fields_of(alloc, fields)? {
        Some(fields) => Ok(Some(Answer::Found { stored, fields })),
        None => Ok(None),
    }
}

fn passed(alloc: Global, fields: &mut FieldsLeft<'_>) -> Result<Option<Answer>, AllocError>
    ensures { IfOk result (λ answer. answer ≡ passed_of fields.old) }
{
    match fields_of(alloc, fields)? {
        Some(fields) => Ok(Some(Answer::Passed { fields })),
        None => Ok(None),
    }
}

fn alone(answer: Answer, fields: &FieldsLeft<'_>) -> Option<Answer>
    ensures { result ≡ alone answer fields.now }
{
    if fields.is_at_end() {
        Some(answer)
    } else {
        None
    }
}

fn said(alloc: Global, fields: &mut FieldsLeft<'_>) -> Result<Option<Answer>, AllocError>
    ensures { IfOk result (λ answer. answer ≡ said_of fields.old) }
{
    let said = Answer::Internal(Why::Said);
    if fields.next(alloc)?.is_none() {
        return Ok(Some(said));
    }
    Ok(alone(said, fields))
}

fn internal(alloc: Global, fields: &mut FieldsLeft<'_>) -> Result<Option<Answer>, AllocError>
    ensures { IfOk result (λ answer. answer ≡ internal_of fields.old) }
{
    let Some(why) = fields.next(alloc)? else {
        return Ok(None);
    };
    let why = why.bytes();
    if why == b"died".as_slice() {
        Ok(alone(Answer::Internal(Why::Died), fields))
    } else if why == b"malformed".as_slice() {
        Ok(alone(Answer::Internal(Why::Malformed), fields))
    } else if why == b"said".as_slice() {
        Ok(alone(Answer::Internal(Why::Said), fields))
    } else if why == b"exit".as_slice() {
        exit(alloc, fields)
    } else {
        Ok(None)
    }
}

fn exit(alloc: Global, fields: &mut FieldsLeft<'_>) -> Result<Option<Answer>, AllocError>
    ensures { IfOk result (λ answer. answer ≡ exit_of fields.old) }
{
    let Some(status) = fields.next(alloc)? else {
        return Ok(None);
    };
    if !fields.is_at_end() {
        return Ok(None);
    }
    match decimal_u32(status.bytes()) {
        Some(status) => Ok(Some(Answer::Internal(Why::Exit(status)))),
        None => Ok(None),
    }
}

/// The fields of a line that is nothing else: each a key, or a key, `=` and a value, with distinct keys that aren't empty.
/// An empty line has none. `None` exactly where the line is off this form.
pub fn read_fields(alloc: Global, line: &[u8]) -> Result<Option<Fields>, AllocError>
    ensures { IfOk result (λ fields. fields ≡ fields_in line.now) }
{
    if line.is_empty() {
        return Ok(Some(Fields::new(alloc)));
    }
    let mut left = FieldsLeft::of(line);
    fields_of(alloc, &mut left)
}

// The fields that the rest of a line is. `None` exactly where one has an empty key, or two have one key.
fn fields_of(alloc: Global, left: &mut FieldsLeft<'_>) -> Result<Option<Fields>, AllocError>
    ensures { IfOk result (λ fields. fields ≡ fields_of left.old) }
{
    let mut fields = Fields::new(alloc);
    while let Some(text) = left.next(alloc)? {
        match new_field(alloc, &fields, text.bytes())? {
            Some((key, value)) => fields.set(key, value)?,
            None => return Ok(None),
        }
    }
    Ok(Some(fields))
}

// The key and the value of a text. `None` exactly where the key is empty or is there already.
fn new_field(
    alloc: Global,
    fields: &Fields,
    text: &[u8],
) -> Result<Option<(Text, Text)>, AllocError>
    ensures { IfOk result (λ field. field ≡ new_field fields.now text.now) }
{
    let (key, value) = key_and_value(text);
    if key.is_empty() {
        return Ok(None);
    }
    if fields.get(key).is_some() {
        return Ok(None);
    }
    Ok(Some((
        Text::from_slice(alloc, key)?,
        Text::from_slice(alloc, value)?,
    )))
}
