// The lines that the auth service and its master side send.

ghost use Rattle.std.specs.Prelude.{◌≡◌, IfOk, codes};
ghost use Rattle.std.specs.List.{list_all};
ghost use Rattle.da_fields.specs.FieldList.{field};
ghost use Rattle.da_pop3.specs.ServiceLines.{is_version, is_server, is_cookie_digit, is_cookie, cookie_of, mechanism_of, done_of, opening_of, pairs_of, failure_in, challenge_of, success_of, refusal_of, reply_of, found_of, missing_of, lookup_of};

use da_fields::{Fields, Text};
use da_msgs::first;
use da_tabline::{decimal_u32, key_and_value};
use std::alloc::{AllocError, Global};

/// What a line of the auth service's opening says.
#[derive(Drop)]
pub(crate) enum Opening {
    Cookie(Text),
    Mechanism(Text),
    Done,
    Other,
}

/// Why the auth service refuses a login.
#[derive(Clone, Copy, Drop)]
pub(crate) enum Failure {
    Credentials,
    Temporary,
}

/// What a line of the auth service says of a request.
#[derive(Drop)]
pub(crate) enum Reply {
    Challenge { id: u32, text: Text },
    Success { id: u32, last: Option<Text> },
    Refusal { id: u32, failure: Failure },
}

/// What a line of the master side says of a request.
#[derive(Drop)]
pub(crate) enum Lookup {
    Found { id: u32, user: Text, fields: Fields },
    Missing { id: u32 },
}

pub(crate) fn is_version(fields: &[Text]) -> bool
    ensures { result ≡ is_version fields.now }
{
    match fields {
        [word, major, minor] => {
            word.bytes() == b"VERSION".as_slice()
                && major.bytes() == b"1".as_slice()
                && decimal_u32(minor.bytes()).is_some()
        }
        _ => false,
    }
}

pub(crate) fn is_server(fields: &[Text]) -> bool
    ensures { result ≡ is_server fields.now }
{
    match fields {
        [word, pid] => word.bytes() == b"SPID".as_slice() && decimal_u32(pid.bytes()).is_some(),
        _ => false,
    }
}

fn is_cookie_digit(byte: u8) -> bool
    ensures { result ≡ is_cookie_digit byte }
{
    byte.is_ascii_digit() || (b'a' <= byte && byte <= b'f')
}

fn has_only_cookie_digits(digits: &[u8]) -> bool
    ensures { result ≡ list_all is_cookie_digit digits.now }
{
    for byte in digits {
        if !is_cookie_digit(*byte) {
            return false;
        }
    }
    true
}

fn is_cookie(digits: &[u8]) -> bool
    ensures { result ≡ is_cookie digits.now }
{
    digits.len() == 32 && has_only_cookie_digits(digits)
}

fn cookie_of(alloc: Global, fields: &[Text]) -> Result<Opening, AllocError>
    ensures { IfOk result (λ opening. opening ≡ cookie_of fields.now) }
{
    match fields {
        [digits] if is_cookie(digits.bytes()) => Ok(Opening::Cookie(digits.copy(alloc)?)),
        _ => Ok(Opening::Other),
    }
}

fn mechanism_of(alloc: Global, fields: &[Text]) -> Result<Opening, AllocError>
    ensures { IfOk result (λ opening. opening ≡ mechanism_of fields.now) }
{
    let Some((name, _)) = first(fields) else {
        return Ok(Opening::Other);
    };
    if name.bytes().is_empty() {
        return Ok(Opening::Other);
    }
    Ok(Opening::Mechanism(name.copy(alloc)?))
}

fn done_of(fields: &[Text]) -> Opening
    ensures { result ≡ done_of fields.now }
{
    match fields {
        [] => Opening::Done,
        _ => Opening::Other,
    }
}

/// What a line of the auth service's opening says.
pub(crate) fn opening_of(alloc: Global, fields: &[Text]) -> Result<Opening, AllocError>
    ensures { IfOk result (λ opening. opening ≡ opening_of fields.now) }
{
    let Some((word, rest)) = first(fields) else {
        return Ok(Opening::Other);
    };
    let word = word.bytes();
    if word == b"COOKIE".as_slice() {
        cookie_of(alloc, rest)
    } else if word == b"MECH".as_slice() {
        mechanism_of(alloc, rest)
    } else if word == b"DONE".as_slice() {
        Ok(done_of(rest))
    } else {
        Ok(Opening::Other)
    }
}

fn pairs_of(alloc: Global, texts: &[Text]) -> Result<Fields, AllocError>
    ensures { IfOk result (λ pairs. pairs ≡ pairs_of texts.now) }
{
    let mut pairs = Fields::new(alloc);
    for text in texts {
        let (key, value) = key_and_value(text.bytes());
        pairs.set(
            Text::from_slice(alloc, key)?,
            Text::from_slice(alloc, value)?,
        )?;
    }
    Ok(pairs)
}

fn failure_in(pairs: &Fields) -> Failure
    ensures { result ≡ failure_in pairs.now }
{
    if pairs.get(b"temp").is_some() {
        Failure::Temporary
    } else {
        Failure::Credentials
    }
}

// The last message, in the field `resp`.
fn last_in(alloc: Global, pairs: &Fields) -> Result<Option<Text>, AllocError>
    ensures { IfOk result (λ last. last ≡ field (codes "resp") pairs.now) }
{
    match pairs.get(b"resp") {
        Some(text) => Ok(Some(Text::from_slice(alloc, text)?)),
        None => Ok(None),
    }
}

fn challenge_of(alloc: Global, fields: &[Text]) -> Result<Option<Reply>, AllocError>
    ensures { IfOk result (λ reply. reply ≡ challenge_of fields.now) }
{
    let [id, text] = fields else {
        return Ok(None);
    };
    let Some(id) = decimal_u32(id.bytes()) else {
        return Ok(None);
    };
    let text = text.copy(alloc)?;
    Ok(Some(Reply::Challenge { id, text }))
}

fn success_of(alloc: Global, fields: &[Text]) -> Result<Option<Reply>, AllocError>
    ensures { IfOk result (λ reply. reply ≡ success_of fields.now) }
{
    let Some((id, rest)) = first(fields) else {
        return Ok(None);
    };
    let Some(id) = decimal_u32(id.bytes()) else {
        return Ok(None);
    };
    let pairs = pairs_of(alloc, rest)?;
    let last = last_in(alloc, &pairs)?;
    Ok(Some(Reply::Success { id, last }))
}

fn refusal_of(alloc: Global, fields: &[Text]) -> Result<Option<Reply>, AllocError>
    ensures { IfOk result (λ reply. reply ≡ refusal_of fields.now) }
{
    let Some((id, rest)) = first(fields) else {
        return Ok(None);
    };
    let Some(id) = decimal_u32(id.bytes()) else {
        return Ok(None);
    };
    let failure = failure_in(&pairs_of(alloc, rest)?);
    Ok(Some(Reply::Refusal { id, failure }))
}

/// What a line of the auth service says of a request. `None` exactly where it says nothing of one.
pub(crate) fn reply_of(alloc: Global, fields: &[Text]) -> Result<Option<Reply>, AllocError>
    ensures { IfOk result (λ reply. reply ≡ reply_of fields.now) }
{
    let Some((word, rest)) = first(fields) else {
        return Ok(None);
    };
    let word = word.bytes();
    if word == b"CONT".as_slice() {
        challenge_of(alloc, rest)
    } else if word == b"OK".as_slice() {
        success_of(alloc, rest)
    } else if word == b"FAIL".as_slice() {
        refusal_of(alloc, rest)
    } else {
        Ok(None)
    }
}

fn found_of(alloc: Global, fields: &[Text]) -> Result<Option<Lookup>, AllocError>
    ensures { IfOk result (λ lookup. lookup ≡ found_of fields.now) }
{
    let Some((id, rest)) = first(fields) else {
        return Ok(None);
    };
    let Some((user, rest)) = first(rest) else {
        return Ok(None);
    };
    let Some(id) = decimal_u32(id.bytes()) else {
        return Ok(None);
    };
    let fields = pairs_of(alloc, rest)?;
    let user = user.copy(alloc)?;
    Ok(Some(Lookup::Found { id, user, fields }))
}

fn missing_of(fields: &[Text]) -> Option<Lookup>
    ensures { result ≡ missing_of fields.now }
{
    let (id, _) = first(fields)?;
    let id = decimal_u32(id.bytes())?;
    Some(Lookup::Missing { id })
}

/// What a line of the master side says of a request. `None` exactly where it says nothing of one.
pub(crate) fn lookup_of(alloc: Global, fields: &[Text]) -> Result<Option<Lookup>, AllocError>
    ensures { IfOk result (λ lookup. lookup ≡ lookup_of fields.now) }
{
    let Some((word, rest)) = first(fields) else {
        return Ok(None);
    };
    let word = word.bytes();
    if word == b"USER".as_slice() {
        found_of(alloc, rest)
    } else if word == b"NOTFOUND".as_slice() || word == b"FAIL".as_slice() {
        Ok(missing_of(rest))
    } else {
        Ok(None)
    }
}
