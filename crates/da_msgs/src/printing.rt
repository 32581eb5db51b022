// The lines of replies.

ghost use Rattle.std.specs.Prelude.{◌≡◌, ◌++◌, ◌∷◌, [], IfOk, OnOk, map, option_map, codes, decimal};
ghost use Rattle.da_fields.specs.FieldList.{field_text};
ghost use Rattle.da_tabline.specs.Escapes.{spelled};
ghost use Rattle.da_tabline.specs.Spelling.{more_fields};
ghost use Rattle.da_msgs.specs.Lines.{optional_field, flag};
ghost use Rattle.da_msgs.specs.Replies.{code_word, reply_line, master_reply_line};

use crate::client::Reply;
use crate::code::Code;
use crate::master::MasterReply;
use da_fields::{Fields, Text, visible};
use da_tabline::{escape, push_field};
use std::alloc::{AllocError, Global};

impl Reply {
    /// The line of the reply, without its LF.
    #[tactic(auto, unfolding(crate::specs::Replies::reply_line))]
    pub fn print(&self, alloc: Global) -> Result<Vec<u8>, AllocError>
        ensures { IfOk result (λ line. line.items ≡ reply_line self.now) }
    {
        match self {
            Reply::Cont { id, text } => {
                let mut line = begin_reply(alloc, b"CONT", *id)?;
                push_field(&mut line, text.bytes())?;
                Ok(line)
            }
            Reply::Ok {
                id,
                user,
                fields,
                last,
            } => {
                let mut line = begin_reply(alloc, b"OK", *id)?;
                push_pair(&mut line, alloc, b"user", user)?;
                push_pairs(&mut line, alloc, &visible(alloc, fields)?)?;
                push_optional(&mut line, alloc, b"resp", last)?;
                Ok(line)
            }
            Reply::Fail {
                id,
                user,
                authz,
                temp,
                disabled,
                code,
                reason,
            } => {
                let mut line = begin_reply(alloc, b"FAIL", *id)?;
                push_optional(&mut line, alloc, b"user", user)?;
                push_flag(&mut line, *authz, b"authz")?;
                push_flag(&mut line, *temp, b"temp")?;
                push_flag(&mut line, *disabled, b"user_disabled")?;
                push_code(&mut line, alloc, *code)?;
                push_optional(&mut line, alloc, b"reason", reason)?;
                Ok(line)
            }
        }
    }
}

impl MasterReply {
    /// The line of the reply, without its LF.
    #[tactic(auto, unfolding(crate::specs::Replies::master_reply_line))]
    pub fn print(&self, alloc: Global) -> Result<Vec<u8>, AllocError>
        ensures { IfOk result (λ line. line.items ≡ master_reply_line self.now) }
    {
        match self {
            MasterReply::User { id, user, fields } => {
                let mut line = begin_reply(alloc, b"USER", *id)?;
                push_field(&mut line, user.bytes())?;
                push_pairs(&mut line, alloc, fields)?;
                Ok(line)
            }
            MasterReply::NotFound { id } => begin_reply(alloc, b"NOTFOUND", *id),
            MasterReply::Fail { id } => {
                let mut line = begin_reply(alloc, b"FAIL", *id)?;
                push_field(&mut line, b"temp")?;
                Ok(line)
            }
        }
    }
}

// A line that begins with a word and a number.
pub(crate) fn begin_reply(alloc: Global, word: &[u8], number: u32) -> Result<Vec<u8>, AllocError>
    ensures { IfOk result (λ line. line.items ≡ spelled (word.now ∷ decimal number ∷ [])) }
{
    let mut line = escape(alloc, word)?;
    let digits = number.to_string(alloc)?;
    push_field(&mut line, digits.as_bytes())?;
    Ok(line)
}

// A key with its value, or alone where the value is empty.
fn push_pair(line: &mut Vec<u8>, alloc: Global, key: &[u8], value: &Text) -> Result<(), AllocError>
    ensures { OnOk result (line.new.items ≡ line.old.items ++ more_fields (field_text (key.now, value.now) ∷ [])) }
{
    let mut field = Vec::from_slice(alloc, key)?;
    if !value.bytes().is_empty() {
        field.push(b'=')?;
        field.extend_from_slice(value.bytes())?;
    }
    push_field(line, &field)
}

fn push_pairs(line: &mut Vec<u8>, alloc: Global, fields: &Fields) -> Result<(), AllocError>
    ensures { OnOk result (line.new.items ≡ line.old.items ++ more_fields (map field_text fields.now)) }
{
    for (key, value) in fields.pairs() {
        push_pair(line, alloc, key.bytes(), value)?;
    }
    Ok(())
}

fn push_optional(
    line: &mut Vec<u8>,
    alloc: Global,
    key: &[u8],
    value: &Option<Text>,
) -> Result<(), AllocError>
    ensures { OnOk result (line.new.items ≡ line.old.items ++ more_fields (optional_field key.now value.now)) }
{
    match value {
        Some(value) => push_pair(line, alloc, key, value),
        None => Ok(()),
    }
}

fn push_code(line: &mut Vec<u8>, alloc: Global, code: Option<Code>) -> Result<(), AllocError>
    ensures { OnOk result (line.new.items ≡ line.old.items ++ more_fields (optional_field (codes "code") (option_map code_word code))) }
{
    match code {
        Some(code) => {
            let word = Text::from_slice(alloc, code.word())?;
            push_pair(line, alloc, b"code", &word)
        }
        None => Ok(()),
    }
}

fn push_flag(line: &mut Vec<u8>, is_set: bool, word: &[u8]) -> Result<(), AllocError>
    ensures { OnOk result (line.new.items ≡ line.old.items ++ more_fields (flag is_set word.now)) }
{
    if is_set {
        push_field(line, word)
    } else {
        Ok(())
    }
}
