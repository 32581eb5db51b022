// Printing queries and answers.

ghost use Rattle.std.specs.Prelude.{◌≡◌, ◌<◌, ◌^◌, ◌++◌, ◌∷◌, [], ℕ, List, Some, true, false, IfOk, OnOk, map, decimal, option_to_list};
ghost use Rattle.da_fields.specs.Answers.{fits};
ghost use Rattle.da_fields.specs.FieldList.{AreDistinct, field_text};
ghost use Rattle.da_fields.specs.declared.answer.Answer.TheVariants.{Internal};
ghost use Rattle.da_fields.specs.declared.answer.Query.{Query};
ghost use Rattle.da_tabline.specs.Escapes.{spelled};
ghost use Rattle.da_tabline.specs.Spelling.{more_fields};
ghost use Rattle.da_query.specs.Queries.{kind_word, query_line, query_of};
ghost use Rattle.da_query.specs.QuerySpelling.{HasItsPassword};
ghost use Rattle.da_query.specs.AnswerLines.{answer_line, answer_to, script_answer, why_words};
ghost use Rattle.da_query.specs.AnswerSpelling.{HasPlainKeys, HasSmallStatus, IsHeld, is_internal, is_late};

use da_fields::{Answer, Fields, Query, QueryKind, Text, Why};
use da_tabline::{escape, push_field};
use std::alloc::{AllocError, Global};

/// The line of the query, without its LF. A query that has a password exactly where its kind is `Check` is read again
/// from it.
pub fn print(alloc: Global, query: &Query) -> Result<Vec<u8>, AllocError>
    ensures line { IfOk result (λ line. line.items ≡ query_line query.now) }
    ensures again { IfOk result (λ line. HasItsPassword query.now → query_of line.items ≡ Some query.now) }
{
    line_of_query(alloc, query)
}

#[tactic(auto, unfolding(crate::specs::Queries::query_line))]
fn line_of_query(alloc: Global, query: &Query) -> Result<Vec<u8>, AllocError>
    ensures line { IfOk result (λ line. line.items ≡ query_line query.now) }
    ensures small { OnOk result ((query.now.number < 2 ^ 32) × (query.now.db < 2 ^ 32)) }
{
    let mut line = escape(alloc, word_of_kind(query.kind))?;
    push_number(&mut line, alloc, query.number)?;
    push_number(&mut line, alloc, query.db)?;
    push_field(&mut line, query.user.bytes())?;
    push_optional(&mut line, &query.password)?;
    Ok(line)
}

fn word_of_kind(kind: QueryKind) -> &'static [u8]
    ensures { result.now ≡ kind_word kind }
{
    match kind {
        QueryKind::Pass => b"PASS",
        QueryKind::Check => b"CHECK",
        QueryKind::User => b"USER",
    }
}

/// The line of an answer to the query of this number, without its LF. An answer that isn't Internal, and whose keys
/// aren't empty and have no `=`, is read again from it as an answer to each query of this number that it fits. An Internal
/// answer is an `INTERNAL` line, which stands in scripts alone; that of `Internal(Late)` nobody reads.
pub fn print_answer(alloc: Global, number: u32, answer: &Answer) -> Result<Vec<u8>, AllocError>
    ensures line { IfOk result (λ line. line.items ≡ answer_line number answer.now) }
    ensures again { IfOk result (λ line. HasPlainKeys answer.now → is_internal answer.now ≡ false
        → (query : Query) → query.number ≡ number → fits query.kind answer.now ≡ true → answer_to query line.items ≡ answer.now) }
    ensures by_script { IfOk result (λ line. HasPlainKeys answer.now → is_late answer.now ≡ false
        → script_answer line.items ≡ Some (number, answer.now)) }
    // of every answer
    ensures held { OnOk result (IsHeld answer.now) }
{
    line_of_answer(alloc, number, answer)
}

#[tactic(auto, unfolding(crate::specs::AnswerLines::answer_line))]
fn line_of_answer(alloc: Global, number: u32, answer: &Answer) -> Result<Vec<u8>, AllocError>
    ensures line { IfOk result (λ line. line.items ≡ answer_line number answer.now) }
    ensures held { OnOk result (IsHeld answer.now) }
{
    match answer {
        Answer::Found { stored, fields } => {
            let mut line = begin_answer(alloc, b"FOUND", number)?;
            push_field(&mut line, stored.bytes())?;
            push_fields(&mut line, alloc, fields)?;
            Ok(line)
        }
        Answer::Passed { fields } => {
            let mut line = begin_answer(alloc, b"PASSED", number)?;
            push_fields(&mut line, alloc, fields)?;
            Ok(line)
        }
        Answer::Mismatch => begin_answer(alloc, b"MISMATCH", number),
        Answer::Unknown => begin_answer(alloc, b"UNKNOWN", number),
        Answer::Internal(why) => {
            let mut line = begin_answer(alloc, b"INTERNAL", number)?;
            push_why(&mut line, alloc, *why)?;
            Ok(line)
        }
    }
}

// A line that begins with a word and a number.
fn begin_answer(alloc: Global, word: &[u8], number: u32) -> Result<Vec<u8>, AllocError>
    ensures { IfOk result (λ line. line.items ≡ spelled (word.now ∷ decimal number ∷ [])) }
{
    let mut line = escape(alloc, word)?;
    push_number(&mut line, alloc, number)?;
    Ok(line)
}

fn push_why(line: &mut Vec<u8>, alloc: Global, why: Why) -> Result<(), AllocError>
    ensures line { OnOk result (line.new.items ≡ line.old.items ++ more_fields (why_words why)) }
    ensures small { HasSmallStatus (Internal why) }
{
    match why {
        Why::Died => push_field(line, b"died"),
        Why::Malformed => push_field(line, b"malformed"),
        Why::Said => push_field(line, b"said"),
        Why::Late => push_field(line, b"late"),
        Why::Exit(status) => {
            push_field(line, b"exit")?;
            push_number(line, alloc, status)
        }
    }
}

fn push_number(line: &mut Vec<u8>, alloc: Global, number: u32) -> Result<(), AllocError>
    ensures { OnOk result (line.new.items ≡ line.old.items ++ more_fields (decimal number ∷ [])) }
{
    let digits = number.to_string(alloc)?;
    push_field(line, digits.as_bytes())
}

fn push_optional(line: &mut Vec<u8>, text: &Option<Text>) -> Result<(), AllocError>
    ensures { OnOk result (line.new.items ≡ line.old.items ++ more_fields (option_to_list text.now)) }
{
    match text {
        Some(text) => push_field(line, text.bytes()),
        None => Ok(()),
    }
}

fn push_fields(line: &mut Vec<u8>, alloc: Global, fields: &Fields) -> Result<(), AllocError>
    ensures line { OnOk result (line.new.items ≡ line.old.items ++ more_fields (map field_text fields.now)) }
    ensures distinct { AreDistinct fields.now }
{
    for (key, value) in fields.pairs() {
        let text = text_of_field(alloc, key, value)?;
        push_field(line, &text)?;
    }
    Ok(())
}

// A key with its value, or alone where the value is empty.
fn text_of_field(alloc: Global, key: &Text, value: &Text) -> Result<Vec<u8>, AllocError>
    ensures { IfOk result (λ text. text.items ≡ field_text (key.now, value.now)) }
{
    let mut text = Vec::from_slice(alloc, key.bytes())?;
    if !value.bytes().is_empty() {
        text.push(b'=')?;
        text.extend_from_slice(value.bytes())?;
    }
    Ok(text)
}
