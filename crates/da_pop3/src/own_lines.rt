// The lines that a session sends to the auth service and to its master side.

ghost use Rattle.std.specs.Prelude.{◌≡◌, ◌++◌, ◌∷◌, [], IfOk, OnOk, codes, decimal};
ghost use Rattle.std.specs.List.{flat_map};
ghost use Rattle.da_base.specs.Words.{to_base64};
ghost use Rattle.da_tabline.specs.Escapes.{spelled};
ghost use Rattle.da_tabline.specs.Spelling.{more_fields};
ghost use Rattle.da_pop3.specs.OwnLines.{version_line, pid_line, auth_line, auth_line_with, cont_line, cancel_line, request_line, plain_message};
ghost use Rattle.da_pop3.specs.Table.{sasl_text};

use da_fields::Text;
use da_tabline::{escape, push_field, to_base64};
use std::alloc::{AllocError, Global};

// A line that begins with a word and a number.
fn numbered_line(alloc: Global, word: &[u8], number: u32) -> Result<Vec<u8>, AllocError>
    ensures { IfOk result (λ line. line.items ≡ spelled (word.now ∷ decimal number ∷ [])) }
{
    let mut line = escape(alloc, word)?;
    push_number(&mut line, alloc, number)?;
    Ok(line)
}

fn push_number(line: &mut Vec<u8>, alloc: Global, number: u32) -> Result<(), AllocError>
    ensures { OnOk result (line.new.items ≡ line.old.items ++ more_fields (decimal number ∷ [])) }
{
    let digits = number.to_string(alloc)?;
    push_field(line, digits.as_bytes())
}

pub(crate) fn version_line(alloc: Global) -> Result<Text, AllocError>
    ensures { IfOk result (λ line. line ≡ version_line) }
{
    Text::from_slice(alloc, b"VERSION\t1\t1")
}

pub(crate) fn pid_line(alloc: Global, pid: u32) -> Result<Text, AllocError>
    ensures { IfOk result (λ line. line ≡ pid_line pid) }
{
    Ok(Text::new(numbered_line(alloc, b"CPID", pid)?))
}

pub(crate) fn cancel_line(alloc: Global, id: u32) -> Result<Text, AllocError>
    ensures { IfOk result (λ line. line ≡ cancel_line id) }
{
    Ok(Text::new(numbered_line(alloc, b"CANCEL", id)?))
}

pub(crate) fn cont_line(alloc: Global, id: u32, text: &[u8]) -> Result<Vec<u8>, AllocError>
    ensures { IfOk result (λ line. line.items ≡ cont_line id text.now) }
{
    let mut line = numbered_line(alloc, b"CONT", id)?;
    push_field(&mut line, text)?;
    Ok(line)
}

pub(crate) fn auth_line(alloc: Global, id: u32, mechanism: &[u8]) -> Result<Vec<u8>, AllocError>
    ensures { IfOk result (λ line. line.items ≡ auth_line id mechanism.now) }
{
    let mut line = numbered_line(alloc, b"AUTH", id)?;
    push_field(&mut line, mechanism)?;
    push_field(&mut line, b"service=pop3")?;
    Ok(line)
}

// The field `resp=` of a first message.
fn push_message(line: &mut Vec<u8>, alloc: Global, text: &[u8]) -> Result<(), AllocError>
    ensures { OnOk result (line.new.items ≡ line.old.items ++ more_fields ((codes "resp=" ++ text.now) ∷ [])) }
{
    let mut field = Vec::from_slice(alloc, b"resp=")?;
    field.extend_from_slice(text)?;
    push_field(line, &field)
}

pub(crate) fn auth_line_with(
    alloc: Global,
    id: u32,
    mechanism: &[u8],
    text: &[u8],
) -> Result<Vec<u8>, AllocError>
    ensures { IfOk result (λ line. line.items ≡ auth_line_with id mechanism.now text.now) }
{
    let mut line = auth_line(alloc, id, mechanism)?;
    push_message(&mut line, alloc, text)?;
    Ok(line)
}

// The message of PLAIN in base64.
pub(crate) fn plain_text(alloc: Global, name: &[u8], password: &[u8]) -> Result<Vec<u8>, AllocError>
    ensures { IfOk result (λ text. text.items ≡ to_base64 (plain_message name.now password.now)) }
{
    let message = plain_message(alloc, name, password)?;
    to_base64(alloc, &message)
}

fn plain_message(alloc: Global, name: &[u8], password: &[u8]) -> Result<Vec<u8>, AllocError>
    ensures { IfOk result (λ message. message.items ≡ plain_message name.now password.now) }
{
    let mut message = Vec::new(alloc);
    message.push(0)?;
    message.extend_from_slice(name)?;
    message.push(0)?;
    message.extend_from_slice(password)?;
    Ok(message)
}

pub(crate) fn request_line(
    alloc: Global,
    id: u32,
    pid: u32,
    cookie: &[u8],
) -> Result<Text, AllocError>
    ensures { IfOk result (λ line. line ≡ request_line id pid cookie.now) }
{
    let mut line = numbered_line(alloc, b"REQUEST", id)?;
    push_number(&mut line, alloc, pid)?;
    push_number(&mut line, alloc, id)?;
    push_field(&mut line, cookie)?;
    Ok(Text::new(line))
}

// The mechanisms, each behind a space.
pub(crate) fn sasl_text(alloc: Global, mechanisms: &[Text]) -> Result<Vec<u8>, AllocError>
    ensures { IfOk result (λ text. text.items ≡ sasl_text mechanisms.now) }
{
    let mut text = Vec::from_slice(alloc, b"SASL")?;
    for name in mechanisms {
        text.push(b' ')?;
        text.extend_from_slice(name.bytes())?;
    }
    Ok(text)
}
