// Messages of clients, and replies to them.

ghost use Rattle.std.specs.Prelude.{◌≡◌, [], IfOk, option_map};
ghost use Rattle.da_msgs.specs.ClientMessages.{client_message, client_message_of, version_of, one_number, auth_of, auth_with, parameters_of, cont_of};

use crate::code::Code;
use crate::parameters::parameters_of;
use crate::reading::{first, fits_a_line, one_number, texts_of, version_of};
use da_fields::{Fields, Text};
use da_tabline::decimal_u32;
use std::alloc::{AllocError, Global};

/// A line of a client.
#[derive(Drop)]
pub enum ClientMsg {
    Version {
        major: u32,
        minor: u32,
    },
    /// `CPID`: the process number of the client.
    Pid {
        pid: u32,
    },
    /// `AUTH`: a new request, with the client's first message where `resp=` is there.
    Auth {
        id: u32,
        mech: Text,
        params: Fields,
        resp: Option<Text>,
    },
    /// `CONT`: the next message of a request, still in base64.
    Cont {
        id: u32,
        text: Text,
    },
    Cancel {
        id: u32,
    },
    /// A line with an unknown command.
    Other,
}

impl ClientMsg {
    /// The message that the line spells. `None` exactly where it spells none.
    #[tactic(auto, unfolding(crate::specs::ClientMessages::client_message))]
    pub fn read(alloc: Global, line: &[u8]) -> Result<Option<ClientMsg>, AllocError>
        ensures { IfOk result (λ message. message ≡ client_message line.now) }
    {
        if !fits_a_line(line) {
            return Ok(None);
        }
        let fields = texts_of(alloc, line)?;
        message_of(alloc, &fields)
    }
}

fn message_of(alloc: Global, fields: &[Text]) -> Result<Option<ClientMsg>, AllocError>
    ensures { IfOk result (λ message. message ≡ client_message_of fields.now) }
{
    let Some((word, rest)) = first(fields) else {
        return Ok(None);
    };
    let word = word.bytes();
    if word == b"VERSION".as_slice() {
        Ok(version_message(rest))
    } else if word == b"CPID".as_slice() {
        Ok(pid_message(rest))
    } else if word == b"AUTH".as_slice() {
        auth_message(alloc, rest)
    } else if word == b"CONT".as_slice() {
        cont_message(alloc, rest)
    } else if word == b"CANCEL".as_slice() {
        Ok(cancel_message(rest))
    } else {
        Ok(Some(ClientMsg::Other))
    }
}

fn version_message(fields: &[Text]) -> Option<ClientMsg>
    ensures { result ≡ option_map (λ v. ClientMsg.Version v.0 v.1) (version_of fields.now) }
{
    let (major, minor) = version_of(fields)?;
    Some(ClientMsg::Version { major, minor })
}

fn pid_message(fields: &[Text]) -> Option<ClientMsg>
    ensures { result ≡ option_map (λ n. ClientMsg.Pid n) (one_number fields.now) }
{
    let pid = one_number(fields)?;
    Some(ClientMsg::Pid { pid })
}

fn cancel_message(fields: &[Text]) -> Option<ClientMsg>
    ensures { result ≡ option_map (λ n. ClientMsg.Cancel n) (one_number fields.now) }
{
    let id = one_number(fields)?;
    Some(ClientMsg::Cancel { id })
}

fn auth_message(alloc: Global, fields: &[Text]) -> Result<Option<ClientMsg>, AllocError>
    ensures { IfOk result (λ message. message ≡ auth_of fields.now) }
{
    let Some((id, rest)) = first(fields) else {
        return Ok(None);
    };
    let Some((mech, rest)) = first(rest) else {
        return Ok(None);
    };
    let Some(id) = decimal_u32(id.bytes()) else {
        return Ok(None);
    };
    auth_with(alloc, id, mech, rest)
}

fn auth_with(
    alloc: Global,
    id: u32,
    mech: &Text,
    fields: &[Text],
) -> Result<Option<ClientMsg>, AllocError>
    ensures { IfOk result (λ message. message ≡ auth_with id mech.now (parameters_of fields.now [])) }
{
    let Some(found) = parameters_of(alloc, fields)? else {
        return Ok(None);
    };
    if found.params.get(b"service").is_none() || mech.bytes().is_empty() {
        return Ok(None);
    }
    Ok(Some(ClientMsg::Auth {
        id,
        mech: mech.copy(alloc)?,
        params: found.params,
        resp: found.resp,
    }))
}

fn cont_message(alloc: Global, fields: &[Text]) -> Result<Option<ClientMsg>, AllocError>
    ensures { IfOk result (λ message. message ≡ cont_of fields.now) }
{
    let [id, text] = fields else {
        return Ok(None);
    };
    let Some(id) = decimal_u32(id.bytes()) else {
        return Ok(None);
    };
    let text = text.copy(alloc)?;
    Ok(Some(ClientMsg::Cont { id, text }))
}

/// A line to a client. The `text` and the `last` message are in base64 already.
#[derive(Drop)]
pub enum Reply {
    /// `CONT`: a challenge.
    Cont {
        id: u32,
        text: Text,
    },
    /// `OK`: the request is authenticated as this user.
    Ok {
        id: u32,
        user: Text,
        fields: Fields,
        last: Option<Text>,
    },
    /// `FAIL`: the request is not authenticated.
    Fail {
        id: u32,
        user: Option<Text>,
        authz: bool,
        temp: bool,
        disabled: bool,
        code: Option<Code>,
        reason: Option<Text>,
    },
}
