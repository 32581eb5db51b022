// Messages of masters, and replies to them.

ghost use Rattle.std.specs.Prelude.{◌≡◌, IfOk, option_map};
ghost use Rattle.da_msgs.specs.ClientMessages.{version_of};
ghost use Rattle.da_msgs.specs.MasterMessages.{master_message, master_message_of, request_of, request_with};
ghost use Rattle.da_base.specs.Words.{number};

use crate::reading::{first, fits_a_line, texts_of, version_of};
use da_fields::{Fields, Text};
use da_tabline::decimal_u32;
use std::alloc::{AllocError, Global};

/// A line of a master.
#[derive(Drop)]
pub enum MasterMsg {
    Version {
        major: u32,
        minor: u32,
    },
    /// `REQUEST`: who was authenticated by this client process under this id, on the connection of this cookie.
    Request {
        id: u32,
        pid: u32,
        client: u32,
        cookie: Text,
    },
    /// A line with an unknown command.
    Other,
}

impl MasterMsg {
    /// The message that the line spells. `None` exactly where it spells none.
    #[tactic(auto, unfolding(crate::specs::MasterMessages::master_message))]
    pub fn read(alloc: Global, line: &[u8]) -> Result<Option<MasterMsg>, AllocError>
        ensures { IfOk result (λ message. message ≡ master_message line.now) }
    {
        if !fits_a_line(line) {
            return Ok(None);
        }
        let fields = texts_of(alloc, line)?;
        message_of(alloc, &fields)
    }
}

fn message_of(alloc: Global, fields: &[Text]) -> Result<Option<MasterMsg>, AllocError>
    ensures { IfOk result (λ message. message ≡ master_message_of fields.now) }
{
    let Some((word, rest)) = first(fields) else {
        return Ok(None);
    };
    let word = word.bytes();
    if word == b"VERSION".as_slice() {
        Ok(version_message(rest))
    } else if word == b"REQUEST".as_slice() {
        request_message(alloc, rest)
    } else {
        Ok(Some(MasterMsg::Other))
    }
}

fn version_message(fields: &[Text]) -> Option<MasterMsg>
    ensures { result ≡ option_map (λ v. MasterMsg.Version v.0 v.1) (version_of fields.now) }
{
    let (major, minor) = version_of(fields)?;
    Some(MasterMsg::Version { major, minor })
}

fn request_message(alloc: Global, fields: &[Text]) -> Result<Option<MasterMsg>, AllocError>
    ensures { IfOk result (λ message. message ≡ request_of fields.now) }
{
    let Some((id, rest)) = first(fields) else {
        return Ok(None);
    };
    let Some((pid, rest)) = first(rest) else {
        return Ok(None);
    };
    let Some((client, rest)) = first(rest) else {
        return Ok(None);
    };
    let Some((cookie, _)) = first(rest) else {
        return Ok(None);
    };
    request_with(alloc, id, pid, client, cookie)
}

fn request_with(
    alloc: Global,
    id: &Text,
    pid: &Text,
    client: &Text,
    cookie: &Text,
) -> Result<Option<MasterMsg>, AllocError>
    ensures { IfOk result (λ message. message ≡ request_with cookie.now (number id.now) (number pid.now) (number client.now)) }
{
    let Some(id) = decimal_u32(id.bytes()) else {
        return Ok(None);
    };
    let Some(pid) = decimal_u32(pid.bytes()) else {
        return Ok(None);
    };
    let Some(client) = decimal_u32(client.bytes()) else {
        return Ok(None);
    };
    let cookie = cookie.copy(alloc)?;
    Ok(Some(MasterMsg::Request {
        id,
        pid,
        client,
        cookie,
    }))
}

/// A line to a master.
#[derive(Drop)]
pub enum MasterReply {
    /// `USER`: the user, with the fields that the user databases gave.
    User { id: u32, user: Text, fields: Fields },
    /// `NOTFOUND`: no such request, or no such user.
    NotFound { id: u32 },
    /// `FAIL`: a user database failed.
    Fail { id: u32 },
}
