// Sessions are played, and what the service prints is read.

use crate::sessions::{OPENING, OPENINGS, SESSIONS};
use da_fields::{Fields, Text};
use da_msgs::{ClientMsg, ConnKind, MasterMsg, MasterReply, Mech, Reply, handshake};
use da_pop3::{Act, Event, Pop3, StepFault};
use da_tabline::{split_at_byte, strip_front};
use std::alloc::{AllocError, Global};
use std::test::Fail;

fn push_expanded(text: &mut Vec<u8>, alloc: Global, byte: u8) -> Result<(), AllocError> {
    match byte {
        b'~' => text.push(b'\t')?,
        b'^' => text.push(0)?,
        b'#' => {
            let letters = vec![in alloc; b'A'; 8160]?;
            text.extend_from_slice(&letters)?;
        }
        _ => text.push(byte)?,
    }
    Ok(())
}

fn expanded(alloc: Global, short: &[u8]) -> Result<Vec<u8>, AllocError> {
    let mut text = Vec::new(alloc);
    for byte in short {
        push_expanded(&mut text, alloc, *byte)?;
    }
    Ok(text)
}

fn event_of(alloc: Global, line: &[u8]) -> Result<Option<Event>, AllocError> {
    let Some((kind, rest)) = split_at_byte(line, b'<') else {
        return Ok(None);
    };
    let text = match rest.split_first() {
        Some((_, text)) => Text::new(Vec::from_slice(alloc, text)?),
        None => Text::new(Vec::new(alloc)),
    };
    Ok(if kind == b"auth".as_slice() {
        Some(Event::Auth(text))
    } else if kind == b"master".as_slice() {
        Some(Event::Master(text))
    } else if kind == b"client".as_slice() {
        Some(Event::Client(text))
    } else {
        bare_event(kind)
    })
}

fn bare_event(kind: &[u8]) -> Option<Event> {
    if kind == b"long".as_slice() {
        Some(Event::ClientLong)
    } else if kind == b"end".as_slice() {
        Some(Event::ClientEnd)
    } else if kind == b"up".as_slice() {
        Some(Event::MailUp)
    } else if kind == b"down".as_slice() {
        Some(Event::MailDown)
    } else {
        None
    }
}

fn push_line(log: &mut Vec<u8>, kind: &[u8], text: &[u8]) -> Result<(), AllocError> {
    log.extend_from_slice(kind)?;
    log.extend_from_slice(text)?;
    log.push(b'\n')?;
    Ok(())
}

fn push_start(log: &mut Vec<u8>, user: &Text, fields: &Fields) -> Result<(), AllocError> {
    log.extend_from_slice(b"start> ")?;
    log.extend_from_slice(user.bytes())?;
    for (key, value) in fields.pairs() {
        log.push(b'\t')?;
        log.extend_from_slice(key.bytes())?;
        log.push(b'=')?;
        log.extend_from_slice(value.bytes())?;
    }
    log.push(b'\n')?;
    Ok(())
}

fn push_act(log: &mut Vec<u8>, act: &Act) -> Result<(), AllocError> {
    match act {
        Act::Say(line) => push_line(log, b"client> ", line.bytes()),
        Act::ToAuth(line) => push_line(log, b"auth> ", line.bytes()),
        Act::ToMaster(line) => push_line(log, b"master> ", line.bytes()),
        Act::Start { user, fields } => push_start(log, user, fields),
        Act::End => push_line(log, b"leave>", b""),
    }
}

fn push_step(log: &mut Vec<u8>, step: Result<Vec<Act>, StepFault>) -> Result<(), AllocError> {
    match step {
        Ok(acts) => {
            for act in &acts {
                push_act(log, act)?;
            }
            Ok(())
        }
        Err(StepFault::BadPeer { line }) => push_line(log, b"bad> ", line.bytes()),
        Err(StepFault::NoMemory) => push_line(log, b"no memory", b""),
    }
}

// Tells the session an event, if it is of the side awaited.
fn tell(session: &mut Pop3, event: Event, log: &mut Vec<u8>) -> Result<(), AllocError> {
    if event.side() == session.waits() {
        push_step(log, session.step(event))
    } else {
        push_line(log, b"not awaited", b"")
    }
}

// Whether the session, told the events of this text, does what the text says.
fn plays(session: &mut Pop3, alloc: Global, text: &[u8]) -> Result<bool, AllocError> {
    let text = expanded(alloc, text)?;
    let mut log = Vec::new(alloc);
    for line in text.split(|byte| *byte == b'\n') {
        if let Some(event) = event_of(alloc, line)? {
            push_line(&mut log, line, b"")?;
            tell(session, event, &mut log)?;
        }
    }
    Ok(log.as_slice() == text.as_slice())
}

fn plays_opened(alloc: Global, text: &[u8]) -> Result<bool, AllocError> {
    let mut session = Pop3::new(alloc, 7)?;
    Ok(plays(&mut session, alloc, OPENING)? && plays(&mut session, alloc, text)?)
}

#[test]
fn a_session_opens_with_both_sides(rt: HostRuntime) -> Result<(), Fail> {
    let mut session = Pop3::new(rt.alloc(), 7)?;
    assert!(rt; plays(&mut session, rt.alloc(), OPENINGS)?);
    Ok(())
}

#[test]
fn sessions_say_what_their_texts_say(rt: HostRuntime) -> Result<(), Fail> {
    for text in SESSIONS.split(|byte| *byte == b'|') {
        assert!(rt; plays_opened(rt.alloc(), text)?);
    }
    Ok(())
}

fn is_read_by_the_service(alloc: Global, line: &[u8]) -> Result<bool, AllocError> {
    match ClientMsg::read(alloc, line)? {
        None | Some(ClientMsg::Other) => Ok(false),
        Some(_) => Ok(true),
    }
}

fn is_read_by_the_master_side(alloc: Global, line: &[u8]) -> Result<bool, AllocError> {
    match MasterMsg::read(alloc, line)? {
        None | Some(MasterMsg::Other) => Ok(false),
        Some(_) => Ok(true),
    }
}

// Whether the line isn't one that is sent to the service, or is one of its messages.
fn is_sent_well(alloc: Global, line: &[u8]) -> Result<bool, AllocError> {
    if let Some(sent) = strip_front(line, b"auth> ") {
        return is_read_by_the_service(alloc, sent);
    }
    match strip_front(line, b"master> ") {
        Some(sent) => is_read_by_the_master_side(alloc, sent),
        None => Ok(true),
    }
}

#[test]
fn the_service_reads_what_sessions_send(rt: HostRuntime) -> Result<(), Fail> {
    let alloc = rt.alloc();
    let opening = expanded(alloc, OPENING)?;
    for line in opening.split(|byte| *byte == b'\n') {
        assert!(rt; is_sent_well(alloc, line)?);
    }
    let sessions = expanded(alloc, SESSIONS)?;
    for line in sessions.split(|byte| *byte == b'\n') {
        assert!(rt; is_sent_well(alloc, line)?);
    }
    Ok(())
}

const PRINTED: &[u8] = b"auth> VERSION~1~1
auth> CPID~7
master> VERSION~1~1
client> +OK dauth ready.
client> +OK
client> USER
client> SASL PLAIN SCRAM-SHA-256
client> .
auth> AUTH~1~PLAIN~service=pop3
client> + Y2hhbGxlbmdl
auth> CONT~1~QQ==
client> -ERR [SYS/TEMP] Temporary failure.
auth> AUTH~2~PLAIN~service=pop3
client> + dj0x
master> REQUEST~2~7~2~0a0a0a0a0a0a0a0a0a0a0a0a0a0a0a0a
start> al ice~uid=1~flag=
";

fn text(alloc: Global, bytes: &[u8]) -> Result<Text, AllocError> {
    Text::from_slice(alloc, bytes)
}

fn open_by_handshakes(
    session: &mut Pop3,
    alloc: Global,
    log: &mut Vec<u8>,
) -> Result<(), AllocError> {
    let mechanisms = [Mech::Plain, Mech::ScramSha256];
    for line in handshake(alloc, ConnKind::Client, &mechanisms, 9, 1, &[10; 16])? {
        tell(session, Event::Auth(line), log)?;
    }
    for line in handshake(alloc, ConnKind::Master, &mechanisms, 9, 1, &[10; 16])? {
        tell(session, Event::Master(line), log)?;
    }
    Ok(())
}

fn tell_reply(
    session: &mut Pop3,
    alloc: Global,
    reply: &Reply,
    log: &mut Vec<u8>,
) -> Result<(), AllocError> {
    let line = Text::new(reply.print(alloc)?);
    tell(session, Event::Auth(line), log)
}

fn tell_command(
    session: &mut Pop3,
    alloc: Global,
    command: &[u8],
    log: &mut Vec<u8>,
) -> Result<(), AllocError> {
    tell(session, Event::Client(text(alloc, command)?), log)
}

fn fail_by_printed_lines(
    session: &mut Pop3,
    alloc: Global,
    log: &mut Vec<u8>,
) -> Result<(), AllocError> {
    tell_command(session, alloc, b"CAPA", log)?;
    tell_command(session, alloc, b"AUTH PLAIN", log)?;
    let challenge = Reply::Cont {
        id: 1,
        text: text(alloc, b"Y2hhbGxlbmdl")?,
    };
    tell_reply(session, alloc, &challenge, log)?;
    tell_command(session, alloc, b"QQ==", log)?;
    let failure = Reply::Fail {
        id: 1,
        user: Some(text(alloc, b"al ice")?),
        authz: false,
        temp: true,
        disabled: false,
        code: None,
        reason: None,
    };
    tell_reply(session, alloc, &failure, log)
}

fn okay(alloc: Global) -> Result<Reply, AllocError> {
    Ok(Reply::Ok {
        id: 2,
        user: text(alloc, b"al ice")?,
        fields: Fields::new(alloc),
        last: Some(text(alloc, b"dj0x")?),
    })
}

fn user(alloc: Global) -> Result<MasterReply, AllocError> {
    let mut fields = Fields::new(alloc);
    fields.set(text(alloc, b"uid")?, text(alloc, b"1")?)?;
    fields.set(text(alloc, b"flag")?, text(alloc, b"")?)?;
    Ok(MasterReply::User {
        id: 2,
        user: text(alloc, b"al ice")?,
        fields,
    })
}

fn start_by_printed_lines(
    session: &mut Pop3,
    alloc: Global,
    log: &mut Vec<u8>,
) -> Result<(), AllocError> {
    tell_command(session, alloc, b"AUTH PLAIN", log)?;
    tell_reply(session, alloc, &okay(alloc)?, log)?;
    tell_command(session, alloc, b"", log)?;
    let line = Text::new(user(alloc)?.print(alloc)?);
    tell(session, Event::Master(line), log)
}

#[test]
fn a_session_reads_what_the_service_prints(rt: HostRuntime) -> Result<(), Fail> {
    let alloc = rt.alloc();
    let mut session = Pop3::new(alloc, 7)?;
    let mut log = Vec::new(alloc);
    open_by_handshakes(&mut session, alloc, &mut log)?;
    fail_by_printed_lines(&mut session, alloc, &mut log)?;
    start_by_printed_lines(&mut session, alloc, &mut log)?;
    let expected = expanded(alloc, PRINTED)?;
    assert!(rt; log.as_slice() == expected.as_slice());
    Ok(())
}
