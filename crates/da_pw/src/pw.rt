// The command `pw`.

ghost use Rattle.std.specs.Prelude.{◌≡◌, length, map, string_bytes, IfOk, MatchOption, Some};
ghost use Rattle.std.specs.List.{list_all};
ghost use Rattle.base64.specs.GeneralPurpose.{IsBytes};
ghost use Rattle.da_pw.specs.Pw.{is_no_nul, is_password, IsPasswordLine, IsNoPasswordLine, pw_scheme, scheme_after, stored_line, Pws, RunsPw};

use da_command::Status;
use da_outside::{Rand, Sink, Source};
use da_schemes::{Scheme, make};
use da_stream::{Gathered, read_up_to, write_all};
use da_tabline::split_at_byte;
use std::alloc::{AllocError, Global};

/// The most bytes of a password.
const PASSWORD_MAX: usize = 512;

/// The most bytes of a password's line, its LF among them.
const LINE_MAX: usize = PASSWORD_MAX + 1;

/// `pw SCHEME`: reads a password from the input, which is one line of 1 to 512 bytes without NUL, and writes the line
/// that stores it under the scheme, with a salt from `rand`.
pub fn run_pw<S: Source, K: Sink, G: Rand>(
    alloc: Global,
    words: &[String],
    input: &mut S,
    output: &mut K,
    rand: &mut G,
) -> Status
    ensures { RunsPw (map string_bytes words.now)
        (record {
          input = S.state input.old;
          output = K.state output.old;
          draws = G.draws rand.old;
        })
        (record {
          input = S.state input.new;
          output = K.state output.new;
          draws = G.draws rand.new;
        })
        result }
{
    match scheme_of_pw(words) {
        Some(scheme) => store_under(alloc, scheme, input, output, rand),
        None => Status::Usage,
    }
}

fn scheme_of_pw(words: &[String]) -> Option<Scheme>
    ensures { result ≡ pw_scheme (map string_bytes words.now) }
{
    match words {
        [command, name] => scheme_named_after(command.as_bytes(), name.as_bytes()),
        _ => None,
    }
}

fn scheme_named_after(command: &[u8], name: &[u8]) -> Option<Scheme>
    ensures { result ≡ scheme_after command.now name.now }
{
    if command == b"pw".as_slice() {
        Scheme::read(name)
    } else {
        None
    }
}

fn store_under<S: Source, K: Sink, G: Rand>(
    alloc: Global,
    scheme: Scheme,
    input: &mut S,
    output: &mut K,
    rand: &mut G,
) -> Status
    ensures { Pws (Some scheme)
        (record {
          input = S.state input.old;
          output = K.state output.old;
          draws = G.draws rand.old;
        })
        (record {
          input = S.state input.new;
          output = K.state output.new;
          draws = G.draws rand.new;
        })
        result }
{
    let bytes = match read_up_to(alloc, input, LINE_MAX) {
        Gathered::Whole(bytes) => bytes,
        Gathered::Long => return Status::BadInput,
        Gathered::ReadFault => return Status::ReadFault,
        Gathered::NoMemory => return Status::NoMemory,
    };
    let Some(plain) = password_of(&bytes) else {
        return Status::BadInput;
    };
    let salt = rand.bytes();
    let Ok(line) = line_of(alloc, scheme, plain, &salt) else {
        return Status::NoMemory;
    };
    match write_all(output, &line) {
        Ok(()) => Status::Done,
        Err(_) => Status::WriteFault,
    }
}

fn lacks_nul(text: &[u8]) -> bool
    ensures { result ≡ list_all is_no_nul text.now }
{
    text.iter().all(|byte| *byte != 0)
}

fn fits(plain: &[u8]) -> bool
    ensures { result ≡ is_password plain.now }
{
    1 <= plain.len() && plain.len() <= PASSWORD_MAX && lacks_nul(plain)
}

/// The password whose line these bytes are. `None` exactly where they are no password's line.
fn password_of(bytes: &[u8]) -> Option<&[u8]>
    ensures { MatchOption result (IsNoPasswordLine bytes.now)
        (λ plain. IsPasswordLine bytes.now plain.now) }
{
    let (plain, rest) = split_at_byte(bytes, b'\n')?;
    if rest.is_empty() && fits(plain) {
        Some(plain)
    } else {
        None
    }
}

fn line_of(
    alloc: Global,
    scheme: Scheme,
    plain: &[u8],
    salt: &[u8; 16],
) -> Result<Vec<u8>, AllocError>
    ensures line { IfOk result (λ line. line.items ≡ stored_line scheme plain.now salt.now) }
    ensures salt { (length salt.now ≡ 16) × IsBytes salt.now }
{
    let mut line = make(alloc, scheme, plain, salt)?;
    line.push(b'\n')?;
    Ok(line)
}
