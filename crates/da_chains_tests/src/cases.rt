// Fields, answers and what a chain tells, written as text.

use da_fields::{Answer, Fields, Text, Why};
use da_names::VarText;
use da_tabline::split_at_byte;
use std::alloc::Global;
use std::process::Abort;

/// What stands before the first such byte, and what stands behind it; all and nothing where there is none.
pub fn cut(text: &[u8], at: u8) -> (&[u8], &[u8]) {
    match split_at_byte(text, at) {
        Some(parts) => parts,
        None => (text, b""),
    }
}

pub fn text<R: Abort>(rt: &R, alloc: Global, bytes: &[u8]) -> Text {
    Text::from_slice(alloc, bytes).expect(rt, "memory")
}

pub fn variable<R: Abort>(rt: &R, alloc: Global, bytes: &[u8]) -> VarText {
    VarText::from_slice(alloc, bytes).expect(rt, "memory")
}

fn put<R: Abort>(rt: &R, alloc: Global, fields: &mut Fields, word: &[u8]) {
    let (key, value) = cut(word, b'=');
    fields
        .set(text(rt, alloc, key), text(rt, alloc, value))
        .expect(rt, "memory");
}

/// The fields of some words.
pub fn fields_of<R: Abort>(rt: &R, alloc: Global, words: &[u8]) -> Fields {
    let mut fields = Fields::new(alloc);
    if words.is_empty() {
        return fields;
    }
    for word in words.split(|byte| *byte == b' ') {
        put(rt, alloc, &mut fields, word);
    }
    fields
}

// The answer that a text tells: a letter, for a stored password that password, and fields.
fn answer<R: Abort>(rt: &R, alloc: Global, reported: &[u8]) -> Answer {
    let Some((letter, rest)) = reported.split_first() else {
        return Answer::Unknown;
    };
    let (stored, words) = cut(rest, b' ');
    match *letter {
        b'F' => Answer::Found {
            stored: text(rt, alloc, stored),
            fields: fields_of(rt, alloc, words),
        },
        b'P' => Answer::Passed {
            fields: fields_of(rt, alloc, words),
        },
        b'M' => Answer::Mismatch,
        b'I' => Answer::Internal(Why::Said),
        _ => Answer::Unknown,
    }
}

/// The answers of the databases 1, 2 and so on, with bars between them.
pub fn numbered<R: Abort>(rt: &R, alloc: Global, reported: &[u8]) -> Vec<(u32, Answer)> {
    let mut answers = Vec::new(alloc);
    if reported.is_empty() {
        return answers;
    }
    let mut number: u32 = 0;
    for one in reported.split(|byte| *byte == b'|') {
        number = number.saturating_add(1);
        let pair = (number, answer(rt, alloc, one));
        answers.push(pair).expect(rt, "memory");
    }
    answers
}

pub fn add<R: Abort>(rt: &R, line: &mut Vec<u8>, bytes: &[u8]) {
    line.extend_from_slice(bytes).expect(rt, "memory");
}

/// Adds fields, each behind a space.
pub fn add_fields<R: Abort>(rt: &R, line: &mut Vec<u8>, fields: &Fields) {
    for (key, value) in fields.pairs() {
        add(rt, line, b" ");
        add(rt, line, key.bytes());
        add(rt, line, b"=");
        add(rt, line, value.bytes());
    }
}
