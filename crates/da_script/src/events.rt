// Reading the events of a script.

ghost use Rattle.std.specs.Prelude.{◌≡◌, Some, None, IfOk, option_map};
ghost use Rattle.da_base.specs.Words.{number};
ghost use Rattle.da_script.specs.Events.{answered, event_after, event_of, fits_a_script, input_alone, input_by, input_of, input_with, kind_of, line_after, line_of, line_with, opened};

use crate::random::random_of;
use da_fields::Text;
use da_msgs::ConnKind;
use da_play::Input;
use da_query::read_script_answer;
use da_tabline::{LONGEST_LINE, LONGEST_SCRIPT_LINE, decimal_number, decimal_u32, split_at_byte};
use std::alloc::{AllocError, Global};

/// The event that a line of a script spells: its moment in milliseconds, and what happens. `None` exactly where it spells
/// none, as where it has more than 16,384 bytes or an LF.
#[tactic(auto, unfolding(crate::specs::Events::event_of))]
pub fn read_event(alloc: Global, line: &[u8]) -> Result<Option<(u64, Input)>, AllocError>
    ensures { IfOk result (λ event. event ≡ event_of line.now) }
{
    if !fits_a_script(line) {
        return Ok(None);
    }
    match split_at_byte(line, b' ') {
        Some((moment, words)) => event_after(alloc, moment, words),
        None => Ok(None),
    }
}

fn fits_a_script(line: &[u8]) -> bool
    ensures { result ≡ fits_a_script line.now }
{
    line.len() <= LONGEST_SCRIPT_LINE && !line.contains(&b'\n')
}

fn event_after(
    alloc: Global,
    moment: &[u8],
    words: &[u8],
) -> Result<Option<(u64, Input)>, AllocError>
    ensures { IfOk result (λ event. event ≡ event_after moment.now (Some words.now)) }
{
    let Some(moment) = decimal_number(moment, u64::MAX) else {
        return Ok(None);
    };
    match input_of(alloc, words)? {
        Some(input) => Ok(Some((moment, input))),
        None => Ok(None),
    }
}

fn input_of(alloc: Global, words: &[u8]) -> Result<Option<Input>, AllocError>
    ensures { IfOk result (λ input. input ≡ input_of words.now) }
{
    match split_at_byte(words, b' ') {
        Some((word, rest)) => input_with(alloc, word, rest),
        None => Ok(input_alone(words)),
    }
}

fn input_alone(word: &[u8]) -> Option<Input>
    ensures { result ≡ input_alone word.now }
{
    if word == b"take".as_slice() {
        Some(Input::Take)
    } else if word == b"tick".as_slice() {
        Some(Input::Tick)
    } else {
        None
    }
}

fn input_with(alloc: Global, word: &[u8], rest: &[u8]) -> Result<Option<Input>, AllocError>
    ensures { IfOk result (λ input. input ≡ input_with word.now rest.now) }
{
    if word == b"open".as_slice() {
        Ok(opened(rest))
    } else if word == b"line".as_slice() {
        line_of(alloc, rest)
    } else if word == b"broken".as_slice() {
        Ok(broken(rest))
    } else if word == b"gone".as_slice() {
        Ok(gone(rest))
    } else if word == b"answer".as_slice() {
        answered(alloc, rest)
    } else if word == b"late".as_slice() {
        Ok(late(rest))
    } else {
        Ok(None)
    }
}

fn opened(rest: &[u8]) -> Option<Input>
    ensures { result ≡ opened rest.now }
{
    let (kind, random) = split_at_byte(rest, b' ')?;
    let kind = kind_of(kind)?;
    let random = random_of(random)?;
    Some(Input::Opened { kind, random })
}

fn kind_of(word: &[u8]) -> Option<ConnKind>
    ensures { result ≡ kind_of word.now }
{
    if word == b"client".as_slice() {
        Some(ConnKind::Client)
    } else if word == b"master".as_slice() {
        Some(ConnKind::Master)
    } else {
        None
    }
}

fn line_of(alloc: Global, rest: &[u8]) -> Result<Option<Input>, AllocError>
    ensures { IfOk result (λ input. input ≡ line_of rest.now) }
{
    match split_at_byte(rest, b' ') {
        Some((conn, rest)) => line_after(alloc, conn, rest),
        None => Ok(None),
    }
}

fn line_after(alloc: Global, conn: &[u8], rest: &[u8]) -> Result<Option<Input>, AllocError>
    ensures { IfOk result (λ input. input ≡ line_after (number conn.now) (Some rest.now)) }
{
    let Some((random, text)) = split_at_byte(rest, b' ') else {
        return Ok(None);
    };
    line_with(alloc, decimal_u32(conn), random_of(random), text)
}

fn line_with(
    alloc: Global,
    conn: Option<u32>,
    random: Option<[u8; 16]>,
    text: &[u8],
) -> Result<Option<Input>, AllocError>
    ensures { IfOk result (λ input. input ≡ line_with conn random text.now) }
{
    let Some(conn) = conn else {
        return Ok(None);
    };
    let Some(random) = random else {
        return Ok(None);
    };
    if text.len() > LONGEST_LINE {
        return Ok(None);
    }
    Ok(Some(Input::Line {
        conn,
        text: Text::from_slice(alloc, text)?,
        random,
    }))
}

fn broken(rest: &[u8]) -> Option<Input>
    ensures { result ≡ option_map (λ conn. Input.Broken conn) (number rest.now) }
{
    let conn = decimal_u32(rest)?;
    Some(Input::Broken { conn })
}

fn gone(rest: &[u8]) -> Option<Input>
    ensures { result ≡ option_map (λ conn. Input.Gone conn) (number rest.now) }
{
    let conn = decimal_u32(rest)?;
    Some(Input::Gone { conn })
}

fn answered(alloc: Global, rest: &[u8]) -> Result<Option<Input>, AllocError>
    ensures { IfOk result (λ input. input ≡ answered rest.now) }
{
    match read_script_answer(alloc, rest)? {
        Some((query, answer)) => Ok(Some(Input::Answered { query, answer })),
        None => Ok(None),
    }
}

fn late(rest: &[u8]) -> Option<Input>
    ensures { result ≡ option_map (λ query. Input.Late query) (number rest.now) }
{
    let query = decimal_u32(rest)?;
    Some(Input::Late { query })
}
