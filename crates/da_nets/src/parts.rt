// The numbers that addresses are made of.

ghost use Rattle.std.specs.Prelude.{◌≡◌, ◌*◌, ◌^◌, ◌<◌, ◌≤◌, IfSome, option_and_then};
ghost use Rattle.da_base.specs.Words.{pieces};
ghost use Rattle.da_nets.specs.Addresses.{hex_value, group, read_each};
ghost use Rattle.da_nets.specs.Forms.{base, most, separator, part, few};

use da_tabline::decimal_number;

/// How the parts of an address are written.
#[derive(Clone, Copy, Drop)]
pub(crate) enum Form {
    /// Numbers up to 255, with dots between them.
    Dotted,
    /// Groups of hexadecimal digits, with colons between them.
    Grouped,
}

/// Some parts of an address, the first the highest.
#[derive(Clone, Copy, Drop)]
pub(crate) struct Parts {
    pub(crate) value: u128,
    pub(crate) count: u32,
}

fn hex_value(byte: u8) -> Option<u8>
    ensures value { result ≡ hex_value byte }
    ensures small { IfSome result (λ digit. digit < 16) }
{
    match byte {
        b'0'..=b'9' => Some(byte - b'0'),
        b'a'..=b'f' => Some(byte - b'a' + 10),
        b'A'..=b'F' => Some(byte - b'A' + 10),
        _ => None,
    }
}

fn read_group(text: &[u8]) -> Option<u16>
    ensures { result ≡ group text.now }
{
    if text.is_empty() || text.len() > 4 {
        return None;
    }
    let mut value: u16 = 0;
    for byte in text {
        let digit = hex_value(*byte)?;
        value = 16 * value + u16::from(digit);
    }
    Some(value)
}

impl Form {
    fn separator(self) -> u8
        ensures { result ≡ separator self }
    {
        match self {
            Form::Dotted => b'.',
            Form::Grouped => b':',
        }
    }

    fn base(self) -> u128
        ensures { result ≡ base self }
    {
        match self {
            Form::Dotted => 256,
            Form::Grouped => 65536,
        }
    }

    fn most(self) -> u32
        ensures { result ≡ most self }
    {
        match self {
            Form::Dotted => 4,
            Form::Grouped => 8,
        }
    }

    fn part(self, text: &[u8]) -> Option<u128>
        ensures value { result ≡ part self text.now }
        ensures small { IfSome result (λ n. n < base self) }
    {
        match self {
            Form::Dotted => Some(u128::from(decimal_number(text, 255)?)),
            Form::Grouped => Some(u128::from(read_group(text)?)),
        }
    }
}

/// The parts of the text. `None` where one of them can't be read, or there are more than an address has.
pub(crate) fn read_parts(form: Form, text: &[u8]) -> Option<Parts>
    ensures value { result ≡ option_and_then (few form) (read_each (part form) (pieces (separator form) text.now)) }
    ensures small { IfSome result (λ parts. parts.value < base form ^ parts.count) }
    ensures count { IfSome result (λ parts. parts.count ≤ most form) }
{
    let separator = form.separator();
    let mut value = 0;
    let mut count = 0;
    for piece in text.split(|byte| *byte == separator) {
        let part = form.part(piece)?;
        if count == form.most() {
            return None;
        }
        value = form.base() * value + part;
        count += 1;
    }
    Some(Parts { value, count })
}
