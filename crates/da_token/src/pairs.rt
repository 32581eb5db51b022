// The pairs of a message.

ghost use Rattle.std.specs.Prelude.{◌≡◌, None, if◌then◌else◌, option_copied};
ghost use Rattle.std.specs.List.{list_all};
ghost use Rattle.std.specs.Char.{is_ascii_alphabetic};
ghost use Rattle.da_base.specs.Words.{pieces, is_empty};
ghost use Rattle.da_token.specs.Message.{is_key, same_letters};
ghost use Rattle.da_token.specs.Reading.{auth_after, auth_in, bearer_token, found_with, is_written_pair, may_follow, token_after};

use da_tabline::split_at_byte;

// What ends a pair, and the message (RFC 7628, section 3.1: kvsep).
const END: u8 = 1;

/// The token in what follows a message's header: pairs of a key and a value, each ended by 0x01, and 0x01. `None` exactly
/// where it is off this form, or doesn't have the key `auth` once with credentials of the scheme Bearer (RFC 6750, section
/// 2.1).
pub(crate) fn token_after(body: &[u8]) -> Option<&[u8]>
    ensures { option_copied result ≡ token_after body.now }
{
    match auth_value(body) {
        Some(value) => bearer_token(value),
        None => None,
    }
}

// The value of the one pair `auth`.
fn auth_value(body: &[u8]) -> Option<&[u8]>
    ensures { option_copied result ≡ auth_after None (pieces 1 body.now) }
{
    let mut rest = body;
    let mut found = None;
    'pairs: while let Some((pair, more)) = split_at_byte(rest, END) {
        if pair.is_empty() {
            return found_at_end(found, more);
        }
        if !may_follow(found, pair) {
            return None;
        }
        found = found_with(found, auth_in(pair));
        rest = more;
    }
    None
}

// What was found, where nothing follows the end.
fn found_at_end<'a>(found: Option<&'a [u8]>, more: &[u8]) -> Option<&'a [u8]>
    ensures { option_copied result
        ≡ (if is_empty more.now then option_copied found.entry else None) }
{
    if more.is_empty() { found } else { None }
}

// Whether the pair may follow: `auth` comes once.
fn may_follow(found: Option<&[u8]>, pair: &[u8]) -> bool
    ensures { result ≡ may_follow (option_copied found.entry) pair.now }
{
    is_written_pair(pair) && !(found.is_some() && auth_in(pair).is_some())
}

fn found_with<'a>(found: Option<&'a [u8]>, value: Option<&'a [u8]>) -> Option<&'a [u8]>
    ensures { option_copied result
        ≡ found_with (option_copied found.entry) (option_copied value.entry) }
{
    match found {
        Some(found) => Some(found),
        None => value,
    }
}

// Whether the text is a key of letters, an equals sign and a value.
fn is_written_pair(pair: &[u8]) -> bool
    ensures { result ≡ is_written_pair pair.now }
{
    match split_at_byte(pair, b'=') {
        Some((key, _)) => is_key(key),
        None => false,
    }
}

fn is_key(key: &[u8]) -> bool
    ensures { result ≡ is_key key.now }
{
    !key.is_empty() && is_letters(key)
}

fn is_letters(key: &[u8]) -> bool
    ensures { result ≡ list_all is_ascii_alphabetic key.now }
{
    key.iter().all(|letter| letter.is_ascii_alphabetic())
}

// The value that the pair has under the key `auth`.
fn auth_in(pair: &[u8]) -> Option<&[u8]>
    ensures { option_copied result ≡ auth_in pair.now }
{
    match split_at_byte(pair, b'=') {
        Some((key, value)) if same_letters(key, b"auth") => Some(value),
        _ => None,
    }
}

// The token in credentials of the scheme Bearer.
fn bearer_token(value: &[u8]) -> Option<&[u8]>
    ensures { option_copied result ≡ bearer_token value.now }
{
    match split_at_byte(value, b' ') {
        Some((scheme, token)) if same_letters(scheme, b"Bearer") => Some(token),
        _ => None,
    }
}

// Whether two texts are equal without regard to ASCII case.
fn same_letters(text: &[u8], other: &[u8]) -> bool
    ensures { result ≡ same_letters text.now other.now }
{
    text.eq_ignore_ascii_case(other)
}
