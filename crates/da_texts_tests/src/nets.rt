use crate::cases::cut;
use da_nets::*;

const V4: [(&str, u32); 3] = [
    ("0.0.0.0", 0),
    ("192.0.2.33", 0xc000_0221),
    ("255.255.255.255", 0xffff_ffff),
];

const V6: [(&str, u128); 6] = [
    ("::", 0),
    ("::1", 1),
    ("1::", 1 << 112),
    (
        "2001:DB8::8:800:200c:417A",
        0x2001_0db8_0000_0000_0008_0800_200c_417a,
    ),
    ("1:2:3:4:5:6:7:8", 0x0001_0002_0003_0004_0005_0006_0007_0008),
    ("1:2:3:4:5:6:7::", 0x0001_0002_0003_0004_0005_0006_0007_0000),
];

// Texts that are no address.
const NONE: &[u8] = b"256.0.0.1|1.2.3|1.2.3.4.5|1.2.3.04|1.2.3.4 ||1:2:3:4::5:6:7:8|1:2:3:4:5:6:7|\
1:2:3:4:5:6:7:8:9|1::2::3|:::|:1:2:3:4:5:6:7|12345::|::g|::ffff:192.0.2.1|fe80::1%eth0";

#[test]
fn addresses_are_read_as_they_are_spelled(rt: HostRuntime) {
    for (text, number) in V4 {
        assert!(rt; Ip::read(text.as_bytes()) == Some(Ip::V4(number)));
    }
    for (text, number) in V6 {
        assert!(rt; Ip::read(text.as_bytes()) == Some(Ip::V6(number)));
    }
}

#[test]
fn other_texts_are_no_addresses(rt: HostRuntime) {
    for text in NONE.split(|byte| *byte == b'|') {
        assert!(rt; Ip::read(text).is_none());
    }
}

// Networks, each list with an address behind `;`, and behind `+` where it has the address and behind `-` where it doesn't.
const NETWORKS: &[u8] =
    b"+10.0.0.0/8;10.255.255.255\n-10.0.0.0/8;11.0.0.0\n-10.0.0.0/9;10.128.0.0\n\
+0.0.0.0/0;203.0.113.9\n-0.0.0.0/0;::1\n+192.0.2.1;192.0.2.1\n-192.0.2.1/32;192.0.2.0\n+192.0.2.1/31;192.0.2.0\n\
-192.0.2.1/33;192.0.2.1\n-192.0.2.1/08;192.0.2.1\n-192.0.2.1/;192.0.2.1\n+2001:db8::/32;2001:db8:ffff::1\n\
-2001:db8::/32;2001:db9::\n+::/0;ff02::1\n-::/0;0.0.0.0\n+::1/128;::1\n-::1/128;::\n-::1/129;::1\n\
+off,10.0.0.0/8,::1;10.1.2.3\n+off,10.0.0.0/8,::1;::1\n-10.0.0.0/8 ,::1;10.1.2.3\n-;10.1.2.3\n\
-0.0.0.0/0,::/0;localhost";

fn network_is_right(case: &[u8]) -> bool {
    let Some((sign, words)) = case.split_first() else {
        return false;
    };
    let (nets, ip) = cut(words, b';');
    allowed(nets, ip) == (*sign == b'+')
}

#[test]
fn a_network_has_the_addresses_with_its_leading_bits(rt: HostRuntime) {
    for case in NETWORKS.split(|byte| *byte == b'\n') {
        assert!(rt; network_is_right(case));
    }
}
