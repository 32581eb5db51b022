// Filters of user names.

ghost use Rattle.std.specs.Prelude.{◌≡◌};
ghost use Rattle.da_names.specs.Filters.{fits_byte, pattern_matches, filter_matches};
ghost use Rattle.da_names.specs.Stars.{some_ending_matches, Reaches};

/// How far a pattern was followed without a star.
#[derive(Drop)]
enum Reached<'a> {
    /// To the end of both.
    End,
    /// To a byte that differs, or the end of one.
    Mismatch,
    /// To a star: the pattern after it, and what is left of the name.
    Star(&'a [u8], &'a [u8]),
}

fn fits_byte(first: u8, byte: u8) -> bool
    ensures { result ≡ fits_byte first byte }
{
    first == b'?' || first == byte
}

/// Follows the pattern as far as its first star.
fn reach<'a>(pattern: &'a [u8], name: &'a [u8]) -> Reached<'a>
    ensures { Reaches pattern.now name.now result }
{
    let mut rest = pattern;
    let mut left = name;
    'literals: while let Some((first, after)) = rest.split_first() {
        if *first == b'*' {
            return Reached::Star(after, left);
        }
        match left.split_first() {
            Some((byte, others)) if fits_byte(*first, *byte) => {
                rest = after;
                left = others;
            }
            _ => return Reached::Mismatch,
        }
    }
    if left.is_empty() {
        Reached::End
    } else {
        Reached::Mismatch
    }
}

/// Whether the pattern behind a star fits some ending of the name. A mismatch goes back to the last star alone, so that
/// each byte of the name begins at most one attempt, and the work is at most the product of the lengths.
fn some_ending_matches(pattern: &[u8], name: &[u8]) -> bool
    ensures { result ≡ some_ending_matches pattern.now name.now }
{
    let mut rest = pattern;
    let mut left = name;
    'attempts: loop {
        match reach(rest, left) {
            Reached::End => return true,
            Reached::Star(after, behind) => {
                rest = after;
                left = behind;
            }
            Reached::Mismatch => match left.split_first() {
                None => return false,
                Some((_, others)) => left = others,
            },
        }
    }
}

/// Whether the whole name fits the pattern.
fn pattern_matches(pattern: &[u8], name: &[u8]) -> bool
    ensures { result ≡ pattern_matches pattern.now name.now }
{
    match reach(pattern, name) {
        Reached::End => true,
        Reached::Mismatch => false,
        Reached::Star(after, left) => some_ending_matches(after, left),
    }
}

/// Whether the filter takes the name: no negative word matches it, and either there is no positive word or some
/// positive word matches it. Words have spaces between them, a word that begins with `!` is negative, `*` stands for
/// any bytes and `?` for any one byte. It takes no memory.
pub fn filter_matches(filter: &[u8], name: &[u8]) -> bool
    ensures { result ≡ filter_matches filter.now name.now }
{
    let mut is_wanted = true;
    let mut is_found = false;
    for word in filter.split(|byte| *byte == b' ') {
        let Some((first, pattern)) = word.split_first() else {
            continue;
        };
        if *first == b'!' {
            if pattern_matches(pattern, name) {
                return false;
            }
        } else {
            is_wanted = false;
            is_found = is_found || pattern_matches(word, name);
        }
    }
    is_wanted || is_found
}
