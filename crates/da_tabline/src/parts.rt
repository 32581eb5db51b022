// The parts of a text.

ghost use Rattle.std.specs.Prelude.{◌≡◌, ◌<◌, ◌++◌, ◌∷◌, [], List, ℕ, Some, None, MatchOption, length, option_copied};
ghost use Rattle.da_base.specs.Words.{before_byte, after_byte, after_front, option_or_else, pieces};
ghost use Rattle.da_tabline.specs.Parts.{Lacks, SplitsAt, IsCutAt, IsCutInFour};

/// The first four pieces of a text between separators.
#[derive(Clone, Copy, Drop)]
pub struct FourPieces<'a> {
    pub first: &'a [u8],
    pub second: &'a [u8],
    /// All that follows the second separator.
    pub after_second: &'a [u8],
    pub third: &'a [u8],
    pub fourth: &'a [u8],
    /// All that follows the fourth separator, where there is one.
    pub more: Option<&'a [u8]>,
}

/// What stands before the first such byte, and what stands after it. `None` exactly where the byte isn't in the text.
pub fn split_at_byte(text: &[u8], byte: u8) -> Option<(&[u8], &[u8])>
    ensures parts { MatchOption result (IsCutAt byte text.now text.now None) (λ p. IsCutAt byte text.now p.0.now (Some p.1.now)) }
    ensures split { MatchOption result (Lacks byte text.now) (λ p. SplitsAt byte text.now p.0.now p.1.now) }
{
    for (at, other) in text.iter().enumerate() {
        if *other == byte {
            return Some((&text[..at], &text[at + 1..]));
        }
    }
    None
}

/// What stands after this front. `None` exactly where the text doesn't begin with it.
pub fn strip_front<'a>(text: &'a [u8], front: &[u8]) -> Option<&'a [u8]>
    ensures value { option_copied result ≡ after_front front.now text.now }
    ensures split { MatchOption result ((back : List ℕ) → text.now ≡ front.now ++ back → ⊥) (λ back. text.now ≡ front.now ++ back.now) }
{
    text.strip_prefix(front)
}

/// The key and the value of a field: what stands before its first `=`, and what stands after it. A field without `=` is
/// its key alone, and its value is empty.
pub fn key_and_value(field: &[u8]) -> (&[u8], &[u8])
    ensures key { result.0.now ≡ before_byte 61 field.now }
    ensures value { result.1.now ≡ option_or_else (after_byte 61 field.now) [] (λ value. value) }
{
    match split_at_byte(field, b'=') {
        Some((key, value)) => (key, value),
        None => (field, &field[field.len()..]),
    }
}

/// The first four pieces of the text between these separators. `None` exactly where there are fewer.
pub fn four_pieces(text: &[u8], separator: u8) -> Option<FourPieces>
    ensures { MatchOption result (length (pieces separator text.now) < 4)
        (λ cut. IsCutInFour separator text.now cut.first.now cut.second.now cut.after_second.now cut.third.now cut.fourth.now (option_copied cut.more)) }
{
    let Some((first, after_first)) = split_at_byte(text, separator) else {
        return None;
    };
    let Some((second, after_second)) = split_at_byte(after_first, separator) else {
        return None;
    };
    let Some((third, after_third)) = split_at_byte(after_second, separator) else {
        return None;
    };
    match split_at_byte(after_third, separator) {
        None => Some(FourPieces {
            first,
            second,
            after_second,
            third,
            fourth: after_third,
            more: None,
        }),
        Some((fourth, more)) => Some(FourPieces {
            first,
            second,
            after_second,
            third,
            fourth,
            more: Some(more),
        }),
    }
}
