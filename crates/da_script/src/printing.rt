// Printing the events of a script.

ghost use Rattle.std.specs.Prelude.{◌≡◌, ◌≤◌, ◌<◌, ◌^◌, ◌++◌, codes, decimal, length, Some, IfOk, OnOk};
ghost use Rattle.da_script.specs.Events.{InputIsHeld, IsPlain, event_line, event_of, input_words, kind_word};
ghost use Rattle.da_script.specs.Random.{AreRandom, random_text};

use crate::random::push_random;
use da_msgs::ConnKind;
use da_play::Input;
use da_query::print_answer;
use std::alloc::{AllocError, Global};

/// The line of an event, without its LF. Where a line of a script spells the input, and the line has at most 16,384 bytes,
/// the event is read again from it.
pub fn print_event(alloc: Global, moment: u64, input: &Input) -> Result<Vec<u8>, AllocError>
    ensures line { IfOk result (λ line. line.items ≡ event_line moment input.now) }
    ensures again { IfOk result (λ line. IsPlain input.now → length line.items ≤ 16384 → event_of line.items ≡ Some (moment, input.now)) }
    // of every input
    ensures held { OnOk result (InputIsHeld input.now) }
{
    line_of_event(alloc, moment, input)
}

#[tactic(auto, unfolding(crate::specs::Events::event_line))]
fn line_of_event(alloc: Global, moment: u64, input: &Input) -> Result<Vec<u8>, AllocError>
    ensures line { IfOk result (λ line. line.items ≡ event_line moment input.now) }
    ensures held { OnOk result (InputIsHeld input.now) }
{
    let mut line = Vec::new(alloc);
    push_number(&mut line, alloc, moment)?;
    line.push(b' ')?;
    push_input(&mut line, alloc, input)?;
    Ok(line)
}

// Puts a number in decimal at the end of a text.
pub(crate) fn push_number(text: &mut Vec<u8>, alloc: Global, number: u64) -> Result<(), AllocError>
    ensures { OnOk result (text.new.items ≡ text.old.items ++ decimal number) }
{
    let digits = number.to_string(alloc)?;
    text.extend_from_slice(digits.as_bytes())
}

fn push_input(line: &mut Vec<u8>, alloc: Global, input: &Input) -> Result<(), AllocError>
    ensures line { OnOk result (line.new.items ≡ line.old.items ++ input_words input.now) }
    ensures held { OnOk result (InputIsHeld input.now) }
{
    match input {
        Input::Opened { kind, random } => push_opened(line, alloc, *kind, random),
        Input::Line { conn, text, random } => push_line(line, alloc, *conn, random, text.bytes()),
        Input::Broken { conn } => push_numbered(line, alloc, b"broken ", *conn),
        Input::Gone { conn } => push_numbered(line, alloc, b"gone ", *conn),
        Input::Take => line.extend_from_slice(b"take"),
        Input::Answered { query, answer } => {
            line.extend_from_slice(b"answer ")?;
            line.extend_from_slice(&print_answer(alloc, *query, answer)?)
        }
        Input::Late { query } => push_numbered(line, alloc, b"late ", *query),
        Input::Tick => line.extend_from_slice(b"tick"),
    }
}

fn push_opened(
    line: &mut Vec<u8>,
    alloc: Global,
    kind: ConnKind,
    random: &[u8; 16],
) -> Result<(), AllocError>
    ensures line { OnOk result (line.new.items ≡ line.old.items ++ (codes "open " ++ kind_word kind ++ codes " " ++ random_text random.now)) }
    ensures sixteen { AreRandom random.now }
{
    line.extend_from_slice(b"open ")?;
    line.extend_from_slice(word_of_kind(kind))?;
    line.extend_from_slice(b" ")?;
    push_random(line, alloc, random)
}

fn word_of_kind(kind: ConnKind) -> &'static [u8]
    ensures { result.now ≡ kind_word kind }
{
    match kind {
        ConnKind::Client => b"client",
        ConnKind::Master => b"master",
    }
}

fn push_line(
    line: &mut Vec<u8>,
    alloc: Global,
    conn: u32,
    random: &[u8; 16],
    text: &[u8],
) -> Result<(), AllocError>
    ensures line { OnOk result (line.new.items ≡ line.old.items
        ++ (codes "line " ++ decimal conn ++ codes " " ++ random_text random.now ++ codes " " ++ text.now)) }
    ensures sixteen { AreRandom random.now }
{
    push_numbered(line, alloc, b"line ", conn)?;
    line.extend_from_slice(b" ")?;
    push_random(line, alloc, random)?;
    line.extend_from_slice(b" ")?;
    line.extend_from_slice(text)
}

// Puts words and a number at the end of a line.
fn push_numbered(
    line: &mut Vec<u8>,
    alloc: Global,
    words: &[u8],
    number: u32,
) -> Result<(), AllocError>
    ensures { OnOk result (line.new.items ≡ line.old.items ++ (words.now ++ decimal number)) }
{
    line.extend_from_slice(words)?;
    push_number(line, alloc, u64::from(number))
}
