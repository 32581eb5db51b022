// Networks.

ghost use Rattle.std.specs.Prelude.{◌≡◌, ◌≤◌};
ghost use Rattle.da_nets.specs.Networks.{network, leading, has, entry_has, allowed};

use crate::address::Ip;
use da_tabline::{decimal_number, split_at_byte};
use std::marker::Model;

/// A network: the addresses of one kind whose leading bits are those of its own address.
#[derive(Clone, Copy, Debug, Drop, PartialEq, Eq)]
pub struct Net {
    ip: Ip,
    bits: u32,
}

impl Model for Net {
    ghost use Rattle.std.specs.Prelude.{◌≤◌};
    ghost use Rattle.da_nets.specs.Addresses.{width};
    ghost use Rattle.da_nets.specs.Networks.{Network};

    ghost Value = { Network };

    ghost view = { λ n. record { ip = n.ip; bits = n.bits } };

    ghost invariant = { λ n. n.bits ≤ width n.ip };

    ghost inverse = { λ n. record { ip = n.ip; bits = n.bits } };
}

/// The first bits of a number that has `width` bits.
fn leading(width: u32, bits: u32, value: u128) -> u128
    requires width { width ≤ 128 }
    requires bits { bits ≤ width }
    ensures { result ≡ leading width bits value }
{
    let behind = width - bits;
    if behind == 128 { 0 } else { value >> behind }
}

impl Net {
    /// The network that the text spells: an address, or an address, `/` and how many leading bits count, at most as many
    /// as the address has. Without a number all bits count. `None` exactly where the text spells no network.
    pub fn read(text: &[u8]) -> Option<Net>
        ensures { result ≡ network text.now }
    {
        match split_at_byte(text, b'/') {
            None => {
                let ip = Ip::read(text)?;
                let bits = ip.width();
                Some(Net { ip, bits })
            }
            Some((address, bits)) => {
                let ip = Ip::read(address)?;
                let bits = decimal_number(bits, u64::from(ip.width()))?;
                Some(Net {
                    ip,
                    bits: bits as u32,
                })
            }
        }
    }

    /// Whether the address is of the network's kind and has its leading bits. It takes no memory.
    pub fn has(&self, ip: &Ip) -> bool
        ensures { result ≡ has self.now ip.now }
    {
        match (self.ip, *ip) {
            (Ip::V4(own), Ip::V4(other)) => {
                leading(32, self.bits, u128::from(own)) == leading(32, self.bits, u128::from(other))
            }
            (Ip::V6(own), Ip::V6(other)) => {
                leading(128, self.bits, own) == leading(128, self.bits, other)
            }
            _ => false,
        }
    }
}

fn entry_has(entry: &[u8], ip: &Ip) -> bool
    ensures { result ≡ entry_has ip.now entry.now }
{
    match Net::read(entry) {
        Some(net) => net.has(ip),
        None => false,
    }
}

/// Whether some entry of the comma list is a network that has the address. An entry that can't be read has no address,
/// and an address that can't be read is in no network. It takes no memory.
pub fn allowed(nets: &[u8], ip: &[u8]) -> bool
    ensures { result ≡ allowed nets.now ip.now }
{
    let Some(ip) = Ip::read(ip) else {
        return false;
    };
    nets.split(|byte| *byte == b',')
        .any(|entry| entry_has(entry, &ip))
}
