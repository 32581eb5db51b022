use crate::cases::{listed, text};
use da_fields::Text;
use da_msgs::*;
use std::alloc::{AllocError, Global};
use std::test::Fail;

// What a line is, as the first letter of the message and `-` where it is none, and then the line.
const CLIENT_LINES: &[u8] = b"VVERSION\t1\t2\nVVERSION\t1\t99\tmore\n-VERSION\t1\n-VERSION\t01\t2\n\
PCPID\t4294967295\n-CPID\t4294967296\n-CPID\t00\n-CPID\t7\t\n-CPID\t\n\
AAUTH\t1\tPLAIN\tservice=imap\tresp=AGE=\t=x\nAAUTH\t0\tplain\tservice\nAAUTH\t1\tX\tservice=\tresp\tsecured\n\
-AUTH\t1\t\tservice=imap\n-AUTH\t1\tPLAIN\n-AUTH\t1\tPLAIN\tlip=1\n-AUTH\t1\tPLAIN\tresp=x\tservice=imap\n\
-AUTH\t1\tPLAIN\tservice=imap\t=x\n-AUTH\t1\tPLAIN\tservice=imap\t\n-AUTH\tx\tPLAIN\tservice=imap\n\
CCONT\t1\t\nCCONT\t1\tAA==\n-CONT\t1\n-CONT\t1\tA\t\nXCANCEL\t1\n-CANCEL\t1\t\n-CANCEL\nOUNKNOWN\t1\t\nO\nOversion\t1\t2";

const MASTER_LINES: &[u8] =
    b"VVERSION\t1\t2\n-VERSION\tx\t2\nRREQUEST\t1\t4711\t2\tc0ffee\nRREQUEST\t1\t2\t3\t\tmore\n\
-REQUEST\t1\t4711\t2\n-REQUEST\t1\t4294967296\t2\tc\nOCPID\t1";

fn client_letter(message: &Option<ClientMsg>) -> u8 {
    match message {
        Some(ClientMsg::Version { .. }) => b'V',
        Some(ClientMsg::Pid { .. }) => b'P',
        Some(ClientMsg::Auth { .. }) => b'A',
        Some(ClientMsg::Cont { .. }) => b'C',
        Some(ClientMsg::Cancel { .. }) => b'X',
        Some(ClientMsg::Other) => b'O',
        None => b'-',
    }
}

fn master_letter(message: &Option<MasterMsg>) -> u8 {
    match message {
        Some(MasterMsg::Version { .. }) => b'V',
        Some(MasterMsg::Request { .. }) => b'R',
        Some(MasterMsg::Other) => b'O',
        None => b'-',
    }
}

fn client_is_spelled(alloc: Global, case: &[u8]) -> Result<bool, AllocError> {
    match case.split_first() {
        Some((letter, line)) => Ok(client_letter(&ClientMsg::read(alloc, line)?) == *letter),
        None => Ok(false),
    }
}

fn master_is_spelled(alloc: Global, case: &[u8]) -> Result<bool, AllocError> {
    match case.split_first() {
        Some((letter, line)) => Ok(master_letter(&MasterMsg::read(alloc, line)?) == *letter),
        None => Ok(false),
    }
}

#[test]
fn lines_spell_their_messages(rt: HostRuntime) -> Result<(), Fail> {
    for case in CLIENT_LINES.split(|byte| *byte == b'\n') {
        assert!(rt; client_is_spelled(rt.alloc(), case)?);
    }
    for case in MASTER_LINES.split(|byte| *byte == b'\n') {
        assert!(rt; master_is_spelled(rt.alloc(), case)?);
    }
    Ok(())
}

// The letter of a line of so many bytes.
fn letter_at(alloc: Global, length: usize) -> Result<u8, AllocError> {
    let line = vec![in alloc; b'x'; length]?;
    Ok(client_letter(&ClientMsg::read(alloc, &line)?))
}

#[test]
fn a_line_has_at_most_8192_bytes_and_no_end(rt: HostRuntime) -> Result<(), Fail> {
    assert!(rt; letter_at(rt.alloc(), 8192)? == b'O');
    assert!(rt; letter_at(rt.alloc(), 8193)? == b'-');
    assert!(rt; master_is_spelled(rt.alloc(), b"-x\n")?);
    Ok(())
}

fn has_the_last_ones(message: &Option<ClientMsg>) -> bool {
    match message {
        Some(
            ClientMsg::Auth {
                id,
                mech,
                params,
                resp: Some(resp),
            },
        ) => {
            *id == 7
                && mech.bytes() == b"PLAIN".as_slice()
                && params.pairs().len() == 2
                && params.get(b"service") == Some(b"pop3".as_slice())
                && resp.bytes().len() == 2
        }
        _ => false,
    }
}

#[test]
fn of_equal_parameters_the_last_holds(rt: HostRuntime) -> Result<(), Fail> {
    let line = b"AUTH\t7\tPLAIN\tservice=imap\tlip=::1\tservice=pop3\tresp=A=\tservice=smtp";
    assert!(rt; has_the_last_ones(&ClientMsg::read(rt.alloc(), line)?));
    Ok(())
}

const FIELDS: &[u8] = b"uid=1000;nodelay;proxy";

fn user(alloc: Global) -> Result<MasterReply, AllocError> {
    let fields = listed(alloc, FIELDS)?;
    let user = text(alloc, b"alice")?;
    Ok(MasterReply::User {
        id: 3,
        user,
        fields,
    })
}

fn ok(alloc: Global) -> Result<Reply, AllocError> {
    let user = text(alloc, b"a\tb")?;
    let fields = listed(alloc, FIELDS)?;
    let last = text(alloc, b"dj0=")?;
    Ok(Reply::Ok {
        id: 1,
        user,
        fields,
        last: Some(last),
    })
}

fn fail(alloc: Global) -> Result<Reply, AllocError> {
    let user = text(alloc, b"bob")?;
    let reason = text(alloc, b"")?;
    Ok(Reply::Fail {
        id: 9,
        user: Some(user),
        authz: true,
        temp: false,
        disabled: true,
        code: None,
        reason: Some(reason),
    })
}

fn is_printed(alloc: Global, reply: &Reply, wanted: &[u8]) -> Result<bool, AllocError> {
    Ok(reply.print(alloc)?.as_slice() == wanted)
}

fn is_told(alloc: Global, reply: &MasterReply, wanted: &[u8]) -> Result<bool, AllocError> {
    Ok(reply.print(alloc)?.as_slice() == wanted)
}

const OK: &[u8] = b"OK\t1\tuser=a\x01tb\tuid=1000\tproxy\tresp=dj0=";

const FAIL: &[u8] = b"FAIL\t9\tuser=bob\tauthz\tuser_disabled\treason";

const USER: &[u8] = b"USER\t3\talice\tuid=1000\tnodelay\tproxy";

#[test]
fn replies_have_their_fields_in_order(rt: HostRuntime) -> Result<(), Fail> {
    let alloc = rt.alloc();
    assert!(rt; is_told(alloc, &user(alloc)?, USER)?);
    assert!(rt; is_told(alloc, &MasterReply::NotFound { id: 1 }, b"NOTFOUND\t1")?);
    assert!(rt; is_printed(alloc, &ok(alloc)?, OK)?);
    assert!(rt; is_printed(alloc, &fail(alloc)?, FAIL)?);
    Ok(())
}

const MECHS: [Mech; 3] = [Mech::Plain, Mech::CramMd5, Mech::ScramSha256];

const GREETING: &[u8] =
    b"VERSION\t1\t2\nMECH\tPLAIN\tplaintext\nMECH\tCRAM-MD5\tdictionary\tactive\nMECH\tSCRAM-SHA-256\tmutual-auth\n\
SPID\t1\nCUID\t2\nCOOKIE\tc0c0c0c0c0c0c0c0c0c0c0c0c0c0c0c0\nDONE\n";

const MASTER_GREETING: &[u8] = b"VERSION\t1\t1\nSPID\t7\n";

fn joined(alloc: Global, lines: &[Text]) -> Result<Vec<u8>, AllocError> {
    let mut all = Vec::new(alloc);
    for line in lines {
        all.extend_from_slice(line.bytes())?;
        all.extend_from_slice(b"\n")?;
    }
    Ok(all)
}

fn greets_a_client(alloc: Global) -> Result<bool, AllocError> {
    let lines = handshake(alloc, ConnKind::Client, &MECHS, 1, 2, &[0xc0; 16])?;
    Ok(joined(alloc, &lines)?.as_slice() == GREETING)
}

fn greets_a_master(alloc: Global) -> Result<bool, AllocError> {
    let lines = handshake(alloc, ConnKind::Master, &MECHS, 7, 2, &[0; 16])?;
    Ok(joined(alloc, &lines)?.as_slice() == MASTER_GREETING)
}

#[test]
fn a_client_is_greeted_with_the_mechanisms(rt: HostRuntime) -> Result<(), Fail> {
    assert!(rt; greets_a_client(rt.alloc())?);
    Ok(())
}

#[test]
fn a_master_is_greeted_with_a_lesser_minor_version(rt: HostRuntime) -> Result<(), Fail> {
    assert!(rt; greets_a_master(rt.alloc())?);
    Ok(())
}

// A failure with this code, and with all that may stand about it.
fn fails_with(alloc: Global, code: Option<Code>, wanted: &[u8]) -> Result<bool, AllocError> {
    let reason = text(alloc, b"why")?;
    let fail = Reply::Fail {
        id: 9,
        user: None,
        authz: true,
        temp: true,
        disabled: false,
        code,
        reason: Some(reason),
    };
    is_printed(alloc, &fail, wanted)
}

const CODES: [(Option<Code>, &[u8]); 8] = [
    (
        Some(Code::Temp),
        b"FAIL\t9\tauthz\ttemp\tcode=temp\treason=why",
    ),
    (
        Some(Code::Disabled),
        b"FAIL\t9\tauthz\ttemp\tcode=disabled\treason=why",
    ),
    (
        Some(Code::Expired),
        b"FAIL\t9\tauthz\ttemp\tcode=expired\treason=why",
    ),
    (
        Some(Code::Timeout),
        b"FAIL\t9\tauthz\ttemp\tcode=timeout\treason=why",
    ),
    (
        Some(Code::Protocol),
        b"FAIL\t9\tauthz\ttemp\tcode=protocol\treason=why",
    ),
    (
        Some(Code::Authz),
        b"FAIL\t9\tauthz\ttemp\tcode=authz\treason=why",
    ),
    (
        Some(Code::Credentials),
        b"FAIL\t9\tauthz\ttemp\tcode=credentials\treason=why",
    ),
    (None, b"FAIL\t9\tauthz\ttemp\treason=why"),
];

#[test]
fn a_failure_has_its_code_before_its_reason(rt: HostRuntime) -> Result<(), Fail> {
    for (code, wanted) in CODES {
        assert!(rt; fails_with(rt.alloc(), code, wanted)?);
    }
    Ok(())
}
