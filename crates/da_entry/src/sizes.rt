// How much a history may still grow.

ghost use Rattle.std.specs.Prelude.{◌≡◌, ◌-◌, length, sum_by};
ghost use Rattle.da_play.specs.Legal.{pairs_size, answer_size, input_size};

use da_fields::{Answer, Fields, Text};
use da_play::Input;

/// What is left of a number of bytes after a text of this length.
fn spend(left: u64, length: usize) -> u64
    ensures { result ≡ left - length }
{
    left.saturating_sub(length as u64)
}

fn after_fields(left: u64, fields: &Fields) -> u64
    ensures { result ≡ left - pairs_size fields.now }
{
    let mut rest = left;
    for pair in fields.pairs() {
        rest = spend(spend(rest, pair.0.bytes().len()), pair.1.bytes().len());
    }
    rest
}

fn after_answer(left: u64, answer: &Answer) -> u64
    ensures { result ≡ left - answer_size answer.now }
{
    match answer {
        Answer::Found { stored, fields } => after_fields(spend(left, stored.bytes().len()), fields),
        Answer::Passed { fields } => after_fields(left, fields),
        Answer::Mismatch | Answer::Unknown | Answer::Internal(_) => left,
    }
}

/// What is left of a number of bytes after the texts of this input.
pub(crate) fn left_after_input(left: u64, input: &Input) -> u64
    ensures { result ≡ left - input_size input.now }
{
    match input {
        Input::Line { text, .. } => spend(left, text.bytes().len()),
        Input::Answered { answer, .. } => after_answer(left, answer),
        _ => left,
    }
}

/// What is left of a number of bytes after these lines.
pub(crate) fn left_after_lines(left: u64, lines: &[(u32, Text)]) -> u64
    ensures { result ≡ left - sum_by (λ l. length l.1) lines.now }
{
    let mut rest = left;
    for line in lines {
        rest = spend(rest, line.1.bytes().len());
    }
    rest
}
