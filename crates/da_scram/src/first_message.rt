// The client's first message.

ghost use Rattle.std.specs.Prelude.{◌≡◌, ◌==◌, ◌&&◌, not, nat_le, None, is_some, IfOk, MatchOption, option_copied, option_map};
ghost use Rattle.std.specs.List.{list_all};
ghost use Rattle.da_base.specs.Words.{pieces};
ghost use Rattle.da_tabline.specs.Parts.{IsCutInFour, more_pieces};
ghost use Rattle.da_scram.specs.Messages.{is_nonce, is_extension};
ghost use Rattle.da_scram.specs.Reading.{first_message, flag_read, nonce_read};
ghost use Rattle.da_scram.specs.Cuts.{IsFirstCut, AreNames, ReadsFirst};

use crate::names::{read_authzid, read_name};
use da_fields::Text;
use da_tabline::{FourPieces, four_pieces, split_at_byte, strip_front};
use std::alloc::{AllocError, Global};

/// The parts of a first message that is on its form but for its names.
#[derive(Clone, Copy, Drop)]
pub(crate) struct FirstCut<'a> {
    /// What the client repeats in its last message (gs2-header).
    pub header: &'a [u8],
    /// The message without its header (client-first-message-bare).
    pub bare: &'a [u8],
    /// The piece of the authorization identity.
    pub authzid: &'a [u8],
    /// The user name as it is written.
    pub name: &'a [u8],
    pub nonce: &'a [u8],
}

/// The names of a first message.
#[derive(Drop)]
pub(crate) struct Names {
    /// The authorization identity, or empty.
    pub authzid: Text,
    pub name: Text,
}

// The parts of a text that was cut at its commas. `None` exactly where it is off its form whatever its names are.
fn checked_cut<'a>(text: &'a [u8], cut: FourPieces<'a>) -> Option<FirstCut<'a>>
    requires { IsCutInFour 44 text.now cut.first.now cut.second.now cut.after_second.now cut.third.now cut.fourth.now (option_copied cut.more) }
    ensures { MatchOption result (first_message text.now ≡ None)
        (λ first. IsFirstCut text.now first.header.now first.bare.now first.authzid.now first.name.now first.nonce.now) }
{
    if !is_flag(cut.first) {
        return None;
    }
    if !are_extensions(cut.more) {
        return None;
    }
    let Some(name) = strip_front(cut.third, b"n=") else {
        return None;
    };
    let Some(nonce) = read_nonce(cut.fourth) else {
        return None;
    };
    Some(FirstCut {
        header: &text[..text.len() - cut.after_second.len()],
        bare: cut.after_second,
        authzid: cut.second,
        name,
        nonce,
    })
}

/// The parts of a client's first message (RFC 5802, section 7). `None` exactly where the text is off its form whatever its
/// names are. It takes no memory.
pub(crate) fn cut_first(text: &[u8]) -> Option<FirstCut>
    ensures { MatchOption result (first_message text.now ≡ None)
        (λ first. IsFirstCut text.now first.header.now first.bare.now first.authzid.now first.name.now first.nonce.now) }
{
    match four_pieces(text, b',') {
        None => None,
        Some(cut) => checked_cut(text, cut),
    }
}

/// The names of a first message. `None` exactly where one of them is off its form.
pub(crate) fn read_names(
    alloc: Global,
    authzid: &[u8],
    name: &[u8],
) -> Result<Option<Names>, AllocError>
    ensures { IfOk result (λ names. AreNames authzid.now name.now (option_map (λ n. (n.authzid, n.name)) names)) }
{
    let Some(authzid) = read_authzid(alloc, authzid)? else {
        return Ok(None);
    };
    let Some(name) = read_name(alloc, name)? else {
        return Ok(None);
    };
    Ok(Some(Names { authzid, name }))
}

/// The client's first message. `None` exactly where the text is none.
pub(crate) fn read_first(alloc: Global, text: &[u8]) -> Result<Option<FirstCut>, AllocError>
    ensures { IfOk result (λ read. MatchOption read (first_message text.now ≡ None)
        (λ first. ReadsFirst text.now first.header.now first.bare.now first.nonce.now)) }
{
    let Some(first) = cut_first(text) else {
        return Ok(None);
    };
    let Some(_) = read_names(alloc, first.authzid, first.name)? else {
        return Ok(None);
    };
    Ok(Some(first))
}

// The nonce of its piece.
fn read_nonce(piece: &[u8]) -> Option<&[u8]>
    ensures { option_copied result ≡ nonce_read piece.now }
{
    match strip_front(piece, b"r=") {
        Some(nonce) if is_nonce(nonce) => Some(nonce),
        _ => None,
    }
}

/// Whether the piece says that the client supports no channel binding, or that it thinks the server doesn't (RFC 5801,
/// section 4: gs2-cb-flag).
pub fn is_flag(piece: &[u8]) -> bool
    ensures { result ≡ is_some (flag_read piece.now) }
{
    match piece {
        [letter] => *letter == b'n' || *letter == b'y',
        _ => false,
    }
}

// The most bytes of a nonce.
const LONGEST_NONCE: usize = 256;

fn is_nonce(text: &[u8]) -> bool
    ensures { result ≡ is_nonce text.now }
{
    1 <= text.len() && text.len() <= LONGEST_NONCE && are_printable(text)
}

fn are_printable(text: &[u8]) -> bool
    ensures { result ≡ list_all (λ c. nat_le 33 c && nat_le c 126 && not (c == 44)) text.now }
{
    text.iter()
        .all(|byte| 0x21 <= *byte && *byte <= 0x7E && *byte != b',')
}

fn are_extensions(extensions: Option<&[u8]>) -> bool
    ensures { result ≡ list_all is_extension (more_pieces 44 (option_copied extensions.entry)) }
{
    match extensions {
        None => true,
        Some(text) => all_extensions(text),
    }
}

// Whether each piece between commas is an extension.
fn all_extensions(text: &[u8]) -> bool
    ensures { result ≡ list_all is_extension (pieces 44 text.now) }
{
    let mut rest = text;
    'pieces: while let Some((extension, more)) = split_at_byte(rest, b',') {
        if !is_extension(extension) {
            return false;
        }
        rest = more;
    }
    is_extension(rest)
}

/// Whether this is an extension: a letter, an equals sign, and a text without comma.
pub(crate) fn is_extension(text: &[u8]) -> bool
    ensures { result ≡ is_extension text.now }
{
    text.len() >= 2
        && text[0].is_ascii_alphabetic()
        && text[1] == b'='
        && !text[2..].contains(&b',')
}
