// Names in a message, with their escapes.

ghost use Rattle.std.specs.Prelude.{◌≡◌, ◌==◌, ◌++◌, not, IfOk, OnOk, option_map};
ghost use Rattle.std.specs.List.{list_all};
ghost use Rattle.da_scram.specs.Messages.{is_name};
ghost use Rattle.da_scram.specs.declared.names.Escaping.TheVariants.{Plainly};
ghost use Rattle.da_scram.specs.Reading.{next_escaping, letter_read, letters_of, name_from, name_read, authzid_read};

use da_fields::Text;
use da_tabline::strip_front;
use std::alloc::{AllocError, Global};

/// How far an escape has come.
#[derive(Clone, Copy, Drop)]
pub enum Escaping {
    /// No escape has begun.
    Plainly,
    /// After an equals sign.
    AfterEquals,
    /// After `=2`, which `C` makes a comma.
    AfterTwo,
    /// After `=3`, which `D` makes an equals sign.
    AfterThree,
}

/// What a letter of a written name gives.
#[derive(Clone, Copy, Drop)]
pub enum LetterRead {
    /// Nothing yet: it is a part of an escape.
    Nothing,
    /// This letter of the name.
    Letter(u8),
    /// It may not stand there.
    Wrong,
}

fn next_escaping(escaping: Escaping, letter: u8) -> Escaping
    ensures { result ≡ next_escaping escaping letter }
{
    match escaping {
        Escaping::Plainly if letter == b'=' => Escaping::AfterEquals,
        Escaping::AfterEquals if letter == b'2' => Escaping::AfterTwo,
        Escaping::AfterEquals => Escaping::AfterThree,
        _ => Escaping::Plainly,
    }
}

fn letter_read(escaping: Escaping, letter: u8) -> LetterRead
    ensures { result ≡ letter_read escaping letter }
{
    match escaping {
        Escaping::Plainly if letter == b'=' => LetterRead::Nothing,
        Escaping::Plainly if letter == b',' => LetterRead::Wrong,
        Escaping::Plainly => LetterRead::Letter(letter),
        Escaping::AfterEquals if letter == b'2' || letter == b'3' => LetterRead::Nothing,
        Escaping::AfterTwo if letter == b'C' => LetterRead::Letter(b','),
        Escaping::AfterThree if letter == b'D' => LetterRead::Letter(b'='),
        _ => LetterRead::Wrong,
    }
}

// Keeps what was read. It may not be wrong.
fn keep(name: &mut Vec<u8>, read: LetterRead) -> Result<(), AllocError>
    ensures { OnOk result (name.new.items ≡ name.old.items ++ letters_of read) }
{
    match read {
        LetterRead::Letter(letter) => Ok(name.push(letter)?),
        _ => Ok(()),
    }
}

// The letters of a written name, without a look at the whole. `None` exactly where its escapes are wrong.
fn unescaped(alloc: Global, text: &[u8]) -> Result<Option<Vec<u8>>, AllocError>
    ensures { IfOk result (λ name. option_map (λ letters. letters.items) name ≡ name_from Plainly text.now) }
{
    let mut name = Vec::new(alloc);
    let mut escaping = Escaping::Plainly;
    for letter in text {
        let read = letter_read(escaping, *letter);
        if matches!(read, LetterRead::Wrong) {
            return Ok(None);
        }
        keep(&mut name, read)?;
        escaping = next_escaping(escaping, *letter);
    }
    match escaping {
        Escaping::Plainly => Ok(Some(name)),
        _ => Ok(None),
    }
}

/// The name that is written so: `=2C` is a comma, `=3D` an equals sign, and neither stands there otherwise. `None` exactly
/// where it is off this form, is empty or has a NUL.
pub(crate) fn read_name(alloc: Global, text: &[u8]) -> Result<Option<Text>, AllocError>
    ensures { IfOk result (λ name. name ≡ name_read text.now) }
{
    match unescaped(alloc, text)? {
        Some(name) if is_name(&name) => Ok(Some(Text::new(name))),
        _ => Ok(None),
    }
}

/// The authorization identity of its piece (RFC 5801, section 4: gs2-authzid), empty where there is none. `None` exactly
/// where the piece is off its form.
pub fn read_authzid(alloc: Global, piece: &[u8]) -> Result<Option<Text>, AllocError>
    ensures { IfOk result (λ authzid. authzid ≡ authzid_read piece.now) }
{
    if piece.is_empty() {
        return Ok(Some(Text::new(Vec::new(alloc))));
    }
    match strip_front(piece, b"a=") {
        Some(name) => read_name(alloc, name),
        None => Ok(None),
    }
}

// Whether a name is not empty and has no NUL.
fn is_name(name: &[u8]) -> bool
    ensures { result ≡ is_name name.now }
{
    !name.is_empty() && has_no_nul(name)
}

fn has_no_nul(name: &[u8]) -> bool
    ensures { result ≡ list_all (λ byte. not (byte == 0)) name.now }
{
    name.iter().all(|byte| *byte != 0)
}
