// The lines of replies.

ghost use Rattle.std.specs.Prelude.{◌≡◌, IfOk, option_map};
ghost use Rattle.da_base.specs.Words.{to_base64};
ghost use Rattle.da_msgs.specs.Replies.{reply_line, master_reply_line};
ghost use Rattle.da_request.specs.Requests.{final_line, challenge_line};

use da_fields::{Fields, Text};
use da_msgs::{MasterReply, Reply};
use da_request::Decision;
use da_tabline::to_base64;
use std::alloc::{AllocError, Global};

/// The line of a final reply to the request of this id, without its LF. A failure of a login has its code where the
/// connection knows codes.
pub fn final_line(
    alloc: Global,
    knows_codes: bool,
    id: u32,
    decision: &Decision,
) -> Result<Text, AllocError>
    ensures { IfOk result (λ line. line ≡ final_line knows_codes id decision.now) }
{
    match decision {
        Decision::Success { user, fields, last } => success_line(alloc, id, user, fields, last),
        Decision::Failure {
            user,
            authz,
            temp,
            disabled,
            code,
            reason,
        } => {
            let user = optional_copy(alloc, user)?;
            let reason = optional_copy(alloc, reason)?;
            let code = if knows_codes { Some(*code) } else { None };
            printed(
                alloc,
                &Reply::Fail {
                    id,
                    user,
                    authz: *authz,
                    temp: *temp,
                    disabled: *disabled,
                    code,
                    reason,
                },
            )
        }
        Decision::UserGiven { user, fields } => user_line(alloc, id, user, fields),
        Decision::UserUnknown => printed_to_master(alloc, &MasterReply::NotFound { id }),
        Decision::UserFailure => printed_to_master(alloc, &MasterReply::Fail { id }),
    }
}

fn success_line(
    alloc: Global,
    id: u32,
    user: &Text,
    fields: &Fields,
    last: &Option<Text>,
) -> Result<Text, AllocError>
    ensures { IfOk result (λ line. line ≡ reply_line (Reply.Ok id user.now fields.now (option_map to_base64 last.now))) }
{
    let user = user.copy(alloc)?;
    let fields = fields.copy(alloc)?;
    let last = optional_coded(alloc, last)?;
    printed(
        alloc,
        &Reply::Ok {
            id,
            user,
            fields,
            last,
        },
    )
}

fn user_line(alloc: Global, id: u32, user: &Text, fields: &Fields) -> Result<Text, AllocError>
    ensures { IfOk result (λ line. line ≡ master_reply_line (MasterReply.User id user.now fields.now)) }
{
    let user = user.copy(alloc)?;
    let fields = fields.copy(alloc)?;
    printed_to_master(alloc, &MasterReply::User { id, user, fields })
}

/// The line of a challenge in the request of this id, without its LF.
pub fn challenge_line(alloc: Global, id: u32, text: &[u8]) -> Result<Text, AllocError>
    ensures { IfOk result (λ line. line ≡ challenge_line id text.now) }
{
    let text = coded(alloc, text)?;
    printed(alloc, &Reply::Cont { id, text })
}

fn printed(alloc: Global, reply: &Reply) -> Result<Text, AllocError>
    ensures { IfOk result (λ line. line ≡ reply_line reply.now) }
{
    Ok(Text::new(reply.print(alloc)?))
}

fn printed_to_master(alloc: Global, reply: &MasterReply) -> Result<Text, AllocError>
    ensures { IfOk result (λ line. line ≡ master_reply_line reply.now) }
{
    Ok(Text::new(reply.print(alloc)?))
}

fn coded(alloc: Global, text: &[u8]) -> Result<Text, AllocError>
    ensures { IfOk result (λ made. made ≡ to_base64 text.now) }
{
    Ok(Text::new(to_base64(alloc, text)?))
}

fn optional_coded(alloc: Global, text: &Option<Text>) -> Result<Option<Text>, AllocError>
    ensures { IfOk result (λ made. made ≡ option_map to_base64 text.now) }
{
    match text {
        Some(text) => Ok(Some(coded(alloc, text.bytes())?)),
        None => Ok(None),
    }
}

fn optional_copy(alloc: Global, text: &Option<Text>) -> Result<Option<Text>, AllocError>
    ensures { IfOk result (λ copy. copy ≡ text.now) }
{
    match text {
        Some(text) => Ok(Some(text.copy(alloc)?)),
        None => Ok(None),
    }
}
