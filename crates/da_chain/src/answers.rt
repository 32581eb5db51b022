// Answers so far, and what follows of an outcome.

ghost use Rattle.std.specs.Prelude.{◌≡◌, [], option_copied};
ghost use Rattle.da_fields.specs.Answers.{answer_fields, answer_from, rule_for};

use da_fields::{Answer, Fields, Outcome, Rule};

/// The answer of the database of this number, the first where several stand there. `None` exactly where it has none.
pub fn answer_from(db: u32, answers: &[(u32, Answer)]) -> Option<&Answer>
    ensures { option_copied result ≡ answer_from db answers.now }
{
    for (number, answer) in answers {
        if *number == db {
            return Some(answer);
        }
    }
    None
}

/// The fields of the answer, or `none` where it has no fields. With a `none` without pairs these are the answer's fields,
/// whatever the answer.
pub fn answer_fields<'a>(answer: &'a Answer, none: &'a Fields) -> &'a Fields
    ensures { none.now ≡ [] → result.now ≡ answer_fields answer.now }
{
    match answer {
        Answer::Found { fields, .. } | Answer::Passed { fields } => fields,
        Answer::Mismatch | Answer::Unknown | Answer::Internal(_) => none,
    }
}

/// The rule that follows of an outcome: that for success, that for an internal failure, or that for every other failure.
pub fn rule_for(success: Rule, failure: Rule, internal: Rule, outcome: Outcome) -> Rule
    ensures { result ≡ rule_for success failure internal outcome }
{
    match outcome {
        Outcome::Success => success,
        Outcome::Internal => internal,
        Outcome::Mismatch | Outcome::Unknown | Outcome::NoScheme => failure,
    }
}
