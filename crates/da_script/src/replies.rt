// Printing the replies of the server.

ghost use Rattle.std.specs.Prelude.{◌≡◌, ◌++◌, codes, decimal, OnOk, IfOk};
ghost use Rattle.std.specs.List.{flat_map};
ghost use Rattle.da_script.specs.Replies.{closed_text, hit_text, outputs_text, refused_line, refused_text, refused_words, sent_text, taken_text};

use crate::printing::push_number;
use da_fields::{Query, Text};
use da_play::{Outputs, Refused};
use std::alloc::{AllocError, Global};

/// The printed reply to the event of this number, each line with its LF: the due replies, the hits, the query that is
/// handed out, the further lines, and the connection that the server closes.
#[tactic(auto, unfolding(crate::specs::Replies::outputs_text))]
pub fn print_outputs(alloc: Global, number: u64, outputs: &Outputs) -> Result<Vec<u8>, AllocError>
    ensures { IfOk result (λ text. text.items ≡ outputs_text number outputs.now) }
{
    let mut text = Vec::new(alloc);
    push_all_sent(&mut text, alloc, number, outputs.due_lines.all())?;
    push_hits(&mut text, alloc, number, outputs.hits.all())?;
    push_taken(&mut text, alloc, number, &outputs.query)?;
    push_all_sent(&mut text, alloc, number, outputs.lines.all())?;
    push_closed(&mut text, alloc, number, outputs.closed)?;
    Ok(text)
}

/// The printed reply to a refused event of this number, with its LF. A full history and want of memory give no line.
#[tactic(auto, unfolding(crate::specs::Replies::refused_text))]
pub fn print_refused(alloc: Global, number: u64, refused: &Refused) -> Result<Vec<u8>, AllocError>
    ensures { IfOk result (λ text. text.items ≡ refused_text number refused.now) }
{
    let words = words_of(alloc, *refused)?;
    refused_line(alloc, number, &words)
}

fn push_sent(
    text: &mut Vec<u8>,
    alloc: Global,
    number: u64,
    conn: u32,
    line: &[u8],
) -> Result<(), AllocError>
    ensures { OnOk result (text.new.items ≡ text.old.items ++ sent_text number (conn, line.now)) }
{
    push_number(text, alloc, number)?;
    text.extend_from_slice(b" > ")?;
    push_number(text, alloc, u64::from(conn))?;
    text.extend_from_slice(b" ")?;
    text.extend_from_slice(line)?;
    text.extend_from_slice(b"\n")
}

fn push_all_sent(
    text: &mut Vec<u8>,
    alloc: Global,
    number: u64,
    lines: &[(u32, Text)],
) -> Result<(), AllocError>
    ensures { OnOk result (text.new.items ≡ text.old.items ++ flat_map (sent_text number) lines.now) }
{
    for line in lines {
        push_sent(text, alloc, number, line.0, line.1.bytes())?;
    }
    Ok(())
}

fn push_hit(text: &mut Vec<u8>, alloc: Global, number: u64, query: u32) -> Result<(), AllocError>
    ensures { OnOk result (text.new.items ≡ text.old.items ++ hit_text number query) }
{
    push_number(text, alloc, number)?;
    text.extend_from_slice(b" hit ")?;
    push_number(text, alloc, u64::from(query))?;
    text.extend_from_slice(b"\n")
}

fn push_hits(
    text: &mut Vec<u8>,
    alloc: Global,
    number: u64,
    queries: &[u32],
) -> Result<(), AllocError>
    ensures { OnOk result (text.new.items ≡ text.old.items ++ flat_map (hit_text number) queries.now) }
{
    for query in queries {
        push_hit(text, alloc, number, *query)?;
    }
    Ok(())
}

fn push_taken(
    text: &mut Vec<u8>,
    alloc: Global,
    number: u64,
    query: &Option<Query>,
) -> Result<(), AllocError>
    ensures { OnOk result (text.new.items ≡ text.old.items ++ taken_text number query.now) }
{
    if let Some(query) = query {
        push_number(text, alloc, number)?;
        text.extend_from_slice(b" take ")?;
        text.extend_from_slice(&da_query::print(alloc, query)?)?;
        text.extend_from_slice(b"\n")?;
    }
    Ok(())
}

fn push_closed(
    text: &mut Vec<u8>,
    alloc: Global,
    number: u64,
    closed: Option<u32>,
) -> Result<(), AllocError>
    ensures { OnOk result (text.new.items ≡ text.old.items ++ closed_text number closed) }
{
    if let Some(conn) = closed {
        push_number(text, alloc, number)?;
        text.extend_from_slice(b" close ")?;
        push_number(text, alloc, u64::from(conn))?;
        text.extend_from_slice(b"\n")?;
    }
    Ok(())
}

fn refused_line(alloc: Global, number: u64, words: &[u8]) -> Result<Vec<u8>, AllocError>
    ensures { IfOk result (λ text. text.items ≡ refused_line number words.now) }
{
    let mut text = Vec::new(alloc);
    if words.is_empty() {
        return Ok(text);
    }
    push_number(&mut text, alloc, number)?;
    text.extend_from_slice(b" refused ")?;
    text.extend_from_slice(words)?;
    text.extend_from_slice(b"\n")?;
    Ok(text)
}

fn words_of(alloc: Global, refused: Refused) -> Result<Vec<u8>, AllocError>
    ensures { IfOk result (λ words. words.items ≡ refused_words refused) }
{
    match refused {
        Refused::HistoryFull | Refused::NoMemory => Ok(Vec::new(alloc)),
        Refused::ConnLimit { count } => numbered(alloc, b"ConnLimit ", count),
        Refused::NoConn { conn } => numbered(alloc, b"NoConn ", conn),
        Refused::NothingWaits => Vec::from_slice(alloc, b"NothingWaits"),
        Refused::NotTaken { query } => numbered(alloc, b"NotTaken ", query),
        Refused::NotLate { query, due } => {
            let mut words = numbered(alloc, b"NotLate ", query)?;
            words.extend_from_slice(b" ")?;
            push_number(&mut words, alloc, due)?;
            Ok(words)
        }
    }
}

fn numbered(alloc: Global, word: &[u8], number: u32) -> Result<Vec<u8>, AllocError>
    ensures { IfOk result (λ words. words.items ≡ word.now ++ decimal number) }
{
    let mut words = Vec::from_slice(alloc, word)?;
    push_number(&mut words, alloc, u64::from(number))?;
    Ok(words)
}
