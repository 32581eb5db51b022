// The lines that open a connection.

ghost use Rattle.std.specs.Prelude.{◌≡◌, ◌<◌, ◌++◌, ◌∷◌, [], IfOk, OnOk, map, codes, decimal};
ghost use Rattle.da_base.specs.Words.{hex};
ghost use Rattle.da_tabline.specs.Escapes.{spelled};
ghost use Rattle.da_tabline.specs.Spelling.{more_fields};
ghost use Rattle.da_msgs.specs.Replies.{greeting};
ghost use Rattle.da_msgs.specs.declared.kinds.ConnKind.TheVariants.{Client, Master};
ghost use Rattle.da_msgs.specs.Replies.{minor_version, version_line, server_line, mechanism_line, mechanism_flags};

use crate::kinds::{ConnKind, Mech};
use crate::printing::begin_reply;
use da_fields::Text;
use da_tabline::{escape, hex_digits, push_field};
use std::alloc::{AllocError, Global};

/// The lines that open a connection of this kind and number, each without its LF: to a client the version, the
/// mechanisms, the server's process number, the connection's number and its cookie, and to a master the version and the
/// process number.
#[tactic(auto, unfolding(crate::specs::Replies::greeting))]
pub fn handshake(
    alloc: Global,
    kind: ConnKind,
    mechs: &[Mech],
    pid: u32,
    number: u32,
    cookie: &[u8; 16],
) -> Result<Vec<Text>, AllocError>
    ensures { IfOk result (λ lines. lines.items ≡ greeting kind mechs.now pid number (hex cookie.now)) }
{
    greeting(alloc, kind, mechs, pid, number, &hex_digits(alloc, cookie)?)
}

/// The lines that open a connection whose cookie has these hexadecimal digits.
#[tactic(auto, unfolding(crate::specs::Replies::greeting))]
pub fn greeting(
    alloc: Global,
    kind: ConnKind,
    mechs: &[Mech],
    pid: u32,
    number: u32,
    digits: &[u8],
) -> Result<Vec<Text>, AllocError>
    ensures { IfOk result (λ lines. lines.items ≡ greeting kind mechs.now pid number digits.now) }
{
    match kind {
        ConnKind::Client => client_lines(alloc, mechs, pid, number, digits),
        ConnKind::Master => master_lines(alloc, pid),
    }
}

fn client_lines(
    alloc: Global,
    mechs: &[Mech],
    pid: u32,
    number: u32,
    digits: &[u8],
) -> Result<Vec<Text>, AllocError>
    ensures { IfOk result (λ lines. lines.items ≡ version_line Client ∷ (map mechanism_line mechs.now
        ++ (server_line pid ∷ spelled (codes "CUID" ∷ decimal number ∷ []) ∷ spelled (codes "COOKIE" ∷ digits.now ∷ []) ∷ codes "DONE" ∷ []))) }
{
    let mut lines = Vec::new(alloc);
    lines.push(first_line(alloc, ConnKind::Client)?)?;
    for mech in mechs {
        lines.push(line_of(alloc, *mech)?)?;
    }
    lines.push(number_line(alloc, b"SPID", pid)?)?;
    lines.push(number_line(alloc, b"CUID", number)?)?;
    lines.push(cookie_line(alloc, digits)?)?;
    lines.push(Text::new(escape(alloc, b"DONE")?))?;
    Ok(lines)
}

fn master_lines(alloc: Global, pid: u32) -> Result<Vec<Text>, AllocError>
    ensures { IfOk result (λ lines. lines.items ≡ version_line Master ∷ server_line pid ∷ []) }
{
    let mut lines = Vec::new(alloc);
    lines.push(first_line(alloc, ConnKind::Master)?)?;
    lines.push(number_line(alloc, b"SPID", pid)?)?;
    Ok(lines)
}

fn first_line(alloc: Global, kind: ConnKind) -> Result<Text, AllocError>
    ensures { IfOk result (λ line. line ≡ version_line kind) }
{
    let mut line = escape(alloc, b"VERSION")?;
    push_field(&mut line, b"1")?;
    push_field(&mut line, minor_version(kind))?;
    Ok(Text::new(line))
}

fn minor_version(kind: ConnKind) -> &'static [u8]
    ensures { result.now ≡ minor_version kind }
{
    match kind {
        ConnKind::Client => b"2",
        ConnKind::Master => b"1",
    }
}

fn number_line(alloc: Global, word: &[u8], number: u32) -> Result<Text, AllocError>
    ensures { IfOk result (λ line. line ≡ spelled (word.now ∷ decimal number ∷ [])) }
{
    Ok(Text::new(begin_reply(alloc, word, number)?))
}

fn line_of(alloc: Global, mech: Mech) -> Result<Text, AllocError>
    ensures { IfOk result (λ line. line ≡ mechanism_line mech) }
{
    let mut line = escape(alloc, b"MECH")?;
    push_field(&mut line, mech.name())?;
    push_flags(&mut line, mech)?;
    Ok(Text::new(line))
}

fn push_flags(line: &mut Vec<u8>, mech: Mech) -> Result<(), AllocError>
    ensures { OnOk result (line.new.items ≡ line.old.items ++ more_fields (mechanism_flags mech)) }
{
    match mech {
        Mech::Plain | Mech::Login => push_field(line, b"plaintext"),
        Mech::CramMd5 => {
            push_field(line, b"dictionary")?;
            push_field(line, b"active")
        }
        Mech::ScramSha256 => push_field(line, b"mutual-auth"),
    }
}

fn cookie_line(alloc: Global, digits: &[u8]) -> Result<Text, AllocError>
    ensures { IfOk result (λ line. line ≡ spelled (codes "COOKIE" ∷ digits.now ∷ [])) }
{
    let mut line = escape(alloc, b"COOKIE")?;
    push_field(&mut line, digits)?;
    Ok(Text::new(line))
}
