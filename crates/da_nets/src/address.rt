// Addresses.

ghost use Rattle.std.specs.Prelude.{◌≡◌, ◌*◌, ◌^◌, ◌<◌, ◌≤◌, IfSome, option_map, option_and_then};
ghost use Rattle.da_nets.specs.Addresses.{around_run, groups, ip4, ip6, address, width};
ghost use Rattle.da_nets.specs.declared.parts.Form.TheVariants.{Grouped};
ghost use Rattle.da_nets.specs.Forms.{few, joined, some_v4, some_v6};

use crate::parts::{Form, Parts, read_parts};

/// An address, as the number that its bits are, the first bit the highest.
#[derive(Clone, Copy, Debug, Drop, PartialEq, Eq)]
pub enum Ip {
    V4(u32),
    V6(u128),
}

fn read_v4(text: &[u8]) -> Option<u32>
    ensures { some_v4 result ≡ ip4 text.now }
{
    let parts = read_parts(Form::Dotted, text)?;
    if parts.count == 4 {
        Some(parts.value as u32)
    } else {
        None
    }
}

/// What stands before and after the first two colons in a row.
fn around_run(text: &[u8]) -> Option<(&[u8], &[u8])>
    ensures { option_map (λ parts. (parts.0.now, parts.1.now)) result ≡ around_run text.now }
{
    for at in 1..text.len() {
        if text[at - 1] == b':' && text[at] == b':' {
            return Some((&text[..at - 1], &text[at + 1..]));
        }
    }
    None
}

fn read_groups(text: &[u8]) -> Option<Parts>
    ensures value { result ≡ option_and_then (few Grouped) (groups text.now) }
    ensures small { IfSome result (λ parts. parts.value < 65536 ^ parts.count) }
    ensures count { IfSome result (λ parts. parts.count ≤ 8) }
{
    if text.is_empty() {
        return Some(Parts { value: 0, count: 0 });
    }
    read_parts(Form::Grouped, text)
}

/// The value with groups of zero behind it.
fn followed_by_zeros(value: u128, groups: u32) -> u128
    requires { value * 65536 ^ groups < 2 ^ 128 }
    ensures { result ≡ value * 65536 ^ groups }
{
    let mut longer = value;
    for _added in 0..groups {
        longer *= 65536;
    }
    longer
}

fn with_run(front: Parts, back: Parts) -> Option<u128>
    requires front { front.value < 65536 ^ front.count }
    requires back { back.value < 65536 ^ back.count }
    requires front_count { front.count ≤ 8 }
    requires back_count { back.count ≤ 8 }
    ensures { result ≡ joined front back }
{
    if front.count + back.count > 7 {
        return None;
    }
    Some(followed_by_zeros(front.value, 8 - front.count) + back.value)
}

fn read_v6(text: &[u8]) -> Option<u128>
    ensures { some_v6 result ≡ ip6 text.now }
{
    match around_run(text) {
        None => {
            let groups = read_groups(text)?;
            if groups.count == 8 {
                Some(groups.value)
            } else {
                None
            }
        }
        Some((front, back)) => {
            let front = read_groups(front)?;
            let back = read_groups(back)?;
            with_run(front, back)
        }
    }
}

impl Ip {
    /// The address that the text spells: four numbers with dots between them, or eight groups of hexadecimal digits with
    /// colons between them, where `::` may stand for one run of zero groups (RFC 4291, section 2.2). A dotted tail and a
    /// zone aren't read. `None` exactly where the text spells no address.
    pub fn read(text: &[u8]) -> Option<Ip>
        ensures { result ≡ address text.now }
    {
        if text.contains(&b':') {
            Some(Ip::V6(read_v6(text)?))
        } else {
            Some(Ip::V4(read_v4(text)?))
        }
    }

    /// How many bits the address has: 32 or 128.
    pub(crate) fn width(&self) -> u32
        ensures { result ≡ width self.now }
    {
        match self {
            Ip::V4(_) => 32,
            Ip::V6(_) => 128,
        }
    }
}
