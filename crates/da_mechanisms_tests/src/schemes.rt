// Outside vectors: RFC 2202 and 4231 (HMAC), RFC 8018's function with SHA-256, RFC 7677's password, and digests of `abc`.

use crate::cases::stored_of;
use da_schemes::{
    Checked, Octets, Scheme, SchemeFault, ScramKeys, Stored, hi, hmac_md5, hmac_sha256, make,
    scram_keys, scram_salt,
};
use std::alloc::Global;
use std::process::Abort;
use std::test::Fail;

// Whether these digits are the bytes.
fn spells<R: Abort>(rt: &R, alloc: Global, digits: &str, bytes: &[u8]) -> bool {
    hex::encode(alloc, bytes).expect(rt, "memory").as_str() == digits
}

const KEY: &[u8] =
    b"\x01\x02\x03\x04\x05\x06\x07\x08\x09\x0a\x0b\x0c\x0d\x0e\x0f\x10\x11\x12\x13\x14\x15\x16\x17\x18\x19";

const FIRST: &[u8] = b"Test Using Larger Than Block-Size Key - Hash Key First";

const LARGER: &[u8] = b"Test Using Larger Than Block-Size Key and Larger Than One Block-Size Data";

const LARGEST: &[u8] =
    b"This is a test using a larger than block-size key and a larger than block-size data. The key needs to be hashed before being used by the HMAC algorithm.";

fn is_md5<R: Abort>(rt: &R, alloc: Global, key: &[u8], text: &[u8], digest: &str) -> bool {
    spells(rt, alloc, digest, &hmac_md5(key, text))
}

// Key, text, and digest in hexadecimal digits.
#[test]
fn md5_digests_are_those_of_the_standard(rt: HostRuntime) {
    let alloc = rt.alloc();
    assert!(rt;
        is_md5(
            &rt,
            alloc,
            &[0x0b; 16],
            b"Hi There",
            "9294727a3638bb1c13f48ef8158bfc9d"
        )
    );
    assert!(rt;
        is_md5(
            &rt,
            alloc,
            b"Jefe",
            b"what do ya want for nothing?",
            "750c783e6ab0b503eaa86e310a5db738"
        )
    );
    assert!(rt;
        is_md5(
            &rt,
            alloc,
            &[0xaa; 16],
            &[0xdd; 50],
            "56be34521d144c88dbb8c733f0e8b3f6"
        )
    );
    assert!(rt;
        is_md5(
            &rt,
            alloc,
            KEY,
            &[0xcd; 50],
            "697eaf0aca3a3aea3a75164746ffaa79"
        )
    );
    assert!(rt;
        is_md5(
            &rt,
            alloc,
            &[0x0c; 16],
            b"Test With Truncation",
            "56461ef2342edc00f9bab995690efd4c"
        )
    );
    assert!(rt;
        is_md5(
            &rt,
            alloc,
            &[0xaa; 80],
            FIRST,
            "6b1ab7fe4bd7bf8f0b62e6ce61b9d0cd"
        )
    );
    assert!(rt;
        is_md5(
            &rt,
            alloc,
            &[0xaa; 80],
            LARGER,
            "6f630fad67cda0ee1fb1f562db3aa53e"
        )
    );
}

fn is_sha256<R: Abort>(rt: &R, alloc: Global, key: &[u8], text: &[u8], digest: &str) -> bool {
    spells(rt, alloc, digest, &hmac_sha256(key, text))
}

#[test]
fn sha256_digests_are_those_of_the_standard(rt: HostRuntime) {
    let alloc = rt.alloc();
    assert!(rt;
        is_sha256(
            &rt,
            alloc,
            &[0x0b; 20],
            b"Hi There",
            "b0344c61d8db38535ca8afceaf0bf12b881dc200c9833da726e9376c2e32cff7"
        )
    );
    assert!(rt;
        is_sha256(
            &rt,
            alloc,
            b"Jefe",
            b"what do ya want for nothing?",
            "5bdcc146bf60754e6a042426089575c75a003f089d2739839dec58b964ec3843"
        )
    );
    assert!(rt;
        is_sha256(
            &rt,
            alloc,
            &[0xaa; 20],
            &[0xdd; 50],
            "773ea91e36800e46854db8ebd09181a72959098b3ef8c122d9635514ced565fe"
        )
    );
    assert!(rt;
        is_sha256(
            &rt,
            alloc,
            KEY,
            &[0xcd; 50],
            "82558a389a443c0ea4cc819899f2083a85f0faa3e578f8077a2e3ff46729665b"
        )
    );
    assert!(rt;
        is_sha256(
            &rt,
            alloc,
            &[0x0c; 20],
            b"Test With Truncation",
            "a3b6167473100ee06e0c796c2955552bfa6f7c0a6a8aef8b93f860aab0cd20c5"
        )
    );
    assert!(rt;
        is_sha256(
            &rt,
            alloc,
            &[0xaa; 131],
            FIRST,
            "60e431591ee0b67f0d8a26aacbf5b77f8e0bc6213728c5140546040f0ee37f54"
        )
    );
    assert!(rt;
        is_sha256(
            &rt,
            alloc,
            &[0xaa; 131],
            LARGEST,
            "9b09ffa71b942fcb27635fbcd5b0e944bfdc63644f0713938a7f51535c3a35e2"
        )
    );
}

// Rounds and the key of `password` and `salt`.
const HI: [(u32, &str); 3] = [
    (
        1,
        "120fb6cffcf8b32c43e7225256c4f837a86548c92ccc35480805987cb70be17b",
    ),
    (
        2,
        "ae4d0c95af6b46d32d0adff928f06dd02a303f8ef3c251dfd6e2d85a95474c43",
    ),
    (
        4096,
        "c5e478d59288c841aa530db6845c4c8d962893a001ce4e11a4963873aa98134a",
    ),
];

fn is_hi<R: Abort>(rt: &R, alloc: Global, rounds: u32, digits: &str) -> bool {
    rounds > 0 && spells(rt, alloc, digits, &hi(b"password", b"salt", rounds))
}

#[test]
fn rounds_are_those_of_pbkdf2(rt: HostRuntime) {
    for (rounds, digits) in HI {
        assert!(rt; is_hi(&rt, rt.alloc(), rounds, digits));
    }
}

const SALT: [u8; 16] = [0, 1, 2, 3, 4, 5, 6, 7, 8, 9, 10, 11, 12, 13, 14, 15];

// What `abc` is stored as under each scheme.
const MADE: [(Scheme, &str); 13] = [
    (Scheme::Plain, "{PLAIN}abc"),
    (Scheme::Clear, "{CLEAR}abc"),
    (Scheme::Cleartext, "{CLEARTEXT}abc"),
    (
        Scheme::PlainMd5,
        "{PLAIN-MD5}900150983cd24fb0d6963f7d28e17f72",
    ),
    (Scheme::LdapMd5, "{LDAP-MD5}kAFQmDzST7DWlj99KOF/cg=="),
    (Scheme::Sha, "{SHA}qZk+NkcGgWq6PiVxeFDCbJzQ2J0="),
    (
        Scheme::Sha256,
        "{SHA256}ungWv48Bz+pBQUDeXa4iI7ADYaOWF3qctBD/YfIAFa0=",
    ),
    (
        Scheme::Sha512,
        "{SHA512}3a81oZNherrMQXNJriBBMRLm+k6JqX6iCp7u5ktV05ohkpkqJ0/BqDa6PCOj/uu9RU1EI2Q86A4qmslPpUyknw==",
    ),
    (Scheme::Smd5, "{SMD5}/aGgDJGSWL4ZBNXQaGy6vgABAgMEBQYH"),
    (
        Scheme::Ssha,
        "{SSHA}nQMCHrz/xgDD+y21BCjoWed2M3AAAQIDBAUGBw==",
    ),
    (
        Scheme::Ssha256,
        "{SSHA256}BXMI+CmKCFWMQ6VA4i+XXvMN5drIyTQ2pckQvuqJHFsAAQIDBAUGBw==",
    ),
    (
        Scheme::Ssha512,
        "{SSHA512}CNO+8r/juESfHahz2kyuBeD3l0HJ4+hrEbcqYTQ3/aebfUgAdenAknUsST+EpQmWArjcaU6UcN86xoTQTpEhaAABAgMEBQYH",
    ),
    (
        Scheme::ScramSha256,
        "{SCRAM-SHA-256}4096,AAECAwQFBgcICQoLDA0ODw==,ZqC1iY2SxJOy0kFxsSH7uobijoO9MiJVzuirw/1k69Q=,tpQNmxjqy2U+SUPOj6rkA9+87TtcoUd/6mPETlU9tqA=",
    ),
];

fn is_made<R: Abort>(rt: &R, alloc: Global, scheme: Scheme, text: &[u8]) -> bool {
    make(alloc, scheme, b"abc", &SALT)
        .expect(rt, "memory")
        .as_slice()
        == text
}

fn is_read_again<R: Abort>(rt: &R, alloc: Global, scheme: Scheme, text: &[u8]) -> bool {
    let stored = stored_of(rt, alloc, Scheme::Plain, text);
    let copy = stored.copy(alloc).expect(rt, "memory");
    copy.scheme() == scheme && copy.matches(b"abc") && !copy.matches(b"abd")
}

#[test]
fn a_made_password_is_read_as_its_scheme(rt: HostRuntime) {
    for (scheme, text) in MADE {
        assert!(rt; is_made(&rt, rt.alloc(), scheme, text.as_bytes()));
        assert!(rt; is_read_again(&rt, rt.alloc(), scheme, text.as_bytes()));
    }
}

// Texts of the default scheme SHA, or of the scheme that they name, held against `abc`, with spaces between them.
const MATCHES: &[u8] = b"qZk+NkcGgWq6PiVxeFDCbJzQ2J0= {sha}qZk+NkcGgWq6PiVxeFDCbJzQ2J0= \
{Sha.HEX}A9993E364706816ABA3E25717850C26C9CD0D89D {SHA.Base64}qZk+NkcGgWq6PiVxeFDCbJzQ2J0= \
{PLAIN}abc {clear.b64}YWJj {PLAIN-MD5}900150983CD24FB0D6963F7D28E17F72 \
{PLAIN-MD5.b64}kAFQmDzST7DWlj99KOF/cg== {SSHA}qZk+NkcGgWq6PiVxeFDCbJzQ2J0= \
{SSHA}99KdagUfgT1TFd7EJwPKV9bJuvVwZXBwZXI= {SMD5.hex}b1a85930d233609029cc0b18a97b2d5d78";

const DIFFERS: &[u8] =
    b"{SHA}y0zCjfD9vg7PnZZi4pSxGAkqVzU= {PLAIN}{SHA} {PLAIN} {SSHA}PIghcXcId2ZXGNJDi5M7sfeNuxNwZXBwZXI=";

const MALFORMED: &[u8] =
    b"{SHA}a9993e364706816aba3e25717850c26c9cd0d89d {SHA.hex}a9993e364706816aba3e25717850c26c9cd0d89 \
{SHA}x {SHA {PLAIN-MD5}kAFQmDzST7DWlj99KOF/cg== {SSHA}qZk+NkcGgWq6PiVxeFDCbJzQ2A== \
{SHA}qZk+NkcGgWq6PiVxeFDCbJzQ2J14";

const UNKNOWN: &[u8] =
    b"{CRYPT}x {SHA.rot13}qZk+NkcGgWq6PiVxeFDCbJzQ2J0= {}abc {SHA.}qZk+NkcGgWq6PiVxeFDCbJzQ2J0= {.hex}abc";

fn reported(alloc: Global, text: &[u8]) -> &'static str {
    match Stored::read(alloc, Scheme::Sha, text) {
        Ok(stored) => {
            if stored.matches(b"abc") {
                "matches"
            } else {
                "differs"
            }
        }
        Err(SchemeFault::UnknownScheme) => "unknown",
        Err(SchemeFault::BadText) => "malformed",
        Err(SchemeFault::NoMemory) => "no memory",
    }
}

// Whether this is reported of each text.
fn are_all(alloc: Global, texts: &[u8], wanted: &str) -> bool {
    let mut right = true;
    for text in texts.split(|byte| *byte == b' ') {
        right = right && reported(alloc, text) == wanted;
    }
    right
}

#[test]
fn texts_are_read_by_their_form(rt: HostRuntime) {
    assert!(rt; are_all(rt.alloc(), MATCHES, "matches"));
    assert!(rt; are_all(rt.alloc(), DIFFERS, "differs"));
    assert!(rt; are_all(rt.alloc(), MALFORMED, "malformed"));
    assert!(rt; are_all(rt.alloc(), UNKNOWN, "unknown"));
}

// The two keys of `abc` under two rounds, and a key that isn't looked at.
const STORED_AND_SERVER: &[u8] =
    b"M7UHTTTisj/QfH7rKF8EdH2KPOjg6wiuG07eKoR3i0I=,AQEBAQEBAQEBAQEBAQEBAQEBAQEBAQEBAQEBAQEBAQE=";

// Texts of keys, in which `*` stands for the two, with spaces between them.
const KEYS_MATCHES: &[u8] = b"{scram-sha-256}2,cw==,*";

const KEYS_DIFFERS: &[u8] = b"{SCRAM-SHA-256}3,cw==,* \
{SCRAM-SHA-256}2,YWFhYWFhYWFhYWFhYWFhYWFhYWFhYWFhYWFhYWFhYWFhYWFhYWFhYWFhYWFhYWFhYWFhYWFhYWFhYWFhYWFhYQ==,*";

const KEYS_MALFORMED: &[u8] =
    b"{SCRAM-SHA-256.b64}2,cw==,* {SCRAM-SHA-256}0,cw==,* {SCRAM-SHA-256}100001,cw==,* \
{SCRAM-SHA-256}02,cw==,* {SCRAM-SHA-256}2,,* \
{SCRAM-SHA-256}2,YWFhYWFhYWFhYWFhYWFhYWFhYWFhYWFhYWFhYWFhYWFhYWFhYWFhYWFhYWFhYWFhYWFhYWFhYWFhYWFhYWFhYWE=,* \
{SCRAM-SHA-256}2,cw==,*, {SCRAM-SHA-256}2,cw==,*x";

const KEYS_UNKNOWN: &[u8] = b"{SCRAM-SHA-256.rot13}2,cw==,*";

fn add<R: Abort>(rt: &R, whole: &mut Vec<u8>, piece: &[u8]) {
    whole.extend_from_slice(piece).expect(rt, "memory");
}

fn with_keys<R: Abort>(rt: &R, alloc: Global, text: &[u8]) -> Vec<u8> {
    let mut whole = Vec::new(alloc);
    for byte in text {
        if *byte == b'*' {
            add(rt, &mut whole, STORED_AND_SERVER);
        } else {
            add(rt, &mut whole, &[*byte]);
        }
    }
    whole
}

fn are_all_keys<R: Abort>(rt: &R, alloc: Global, texts: &[u8], wanted: &str) -> bool {
    are_all(alloc, &with_keys(rt, alloc, texts), wanted)
}

#[test]
fn keys_are_read_by_their_form(rt: HostRuntime) {
    assert!(rt; are_all_keys(&rt, rt.alloc(), KEYS_MATCHES, "matches"));
    assert!(rt; are_all_keys(&rt, rt.alloc(), KEYS_DIFFERS, "differs"));
    assert!(rt; are_all_keys(&rt, rt.alloc(), KEYS_MALFORMED, "malformed"));
    assert!(rt; are_all_keys(&rt, rt.alloc(), KEYS_UNKNOWN, "unknown"));
}

// RFC 7677's salt, and the two keys of `pencil` under it.
const PENCIL_SALT: [u8; 16] = [
    0x5b, 0x6d, 0x99, 0x68, 0x9d, 0x12, 0x35, 0x8e, 0xec, 0xa0, 0x4b, 0x14, 0x12, 0x36, 0xfa, 0x81,
];

const PENCIL_STORED: [u8; 32] = [
    0x58, 0x6e, 0x5d, 0xf2, 0x83, 0xe6, 0xdc, 0xeb, 0x5c, 0x3e, 0x79, 0x1d, 0x8b, 0x85, 0x28, 0xec,
    0x19, 0x1e, 0x66, 0x40, 0x45, 0xce, 0x97, 0x17, 0x92, 0xe2, 0xe6, 0xb5, 0xbb, 0x13, 0xe2, 0xa6,
];

const PENCIL_SERVER: [u8; 32] = [
    0xc1, 0xf3, 0xcb, 0xc1, 0xc1, 0x3a, 0x9d, 0x35, 0xa1, 0x4c, 0x09, 0x90, 0xee, 0xd9, 0x76, 0x29,
    0xea, 0x22, 0x58, 0x63, 0xe5, 0x66, 0xa4, 0x31, 0x4a, 0xb9, 0x9f, 0x3f, 0x00, 0xe5, 0xd9, 0xd5,
];

fn keys_under<R: Abort>(rt: &R, alloc: Global, text: &[u8], salt: &[u8; 16]) -> Option<ScramKeys> {
    let stored = stored_of(rt, alloc, Scheme::Plain, text);
    scram_keys(alloc, &stored, salt).expect(rt, "memory")
}

fn are_those_of_pencil(keys: &Option<ScramKeys>) -> bool {
    match keys {
        Some(keys) => {
            keys.rounds == 4096 && keys.stored == PENCIL_STORED && keys.server == PENCIL_SERVER
        }
        None => false,
    }
}

#[test]
fn keys_are_made_of_a_plaintext_alone(rt: HostRuntime) {
    let keys = keys_under(&rt, rt.alloc(), b"pencil", &PENCIL_SALT);
    assert!(rt; are_those_of_pencil(&keys));
    let digest = b"{SHA}qZk+NkcGgWq6PiVxeFDCbJzQ2J0=";
    assert!(rt; keys_under(&rt, rt.alloc(), digest, &SALT).is_none());
}

#[test]
fn a_salt_is_told_with_its_rounds(rt: HostRuntime) {
    let stored = stored_of(&rt, rt.alloc(), Scheme::Plain, b"pencil");
    assert!(rt; scram_salt(&stored, &PENCIL_SALT) == Some((PENCIL_SALT.as_slice(), 4096)));
}

#[test]
fn a_plaintext_is_told(rt: HostRuntime) {
    let stored = stored_of(&rt, rt.alloc(), Scheme::Sha, b"{clear}pw");
    assert!(rt; stored.plain().is_some());
}

fn octets<R: Abort>(rt: &R, alloc: Global, bytes: &[u8]) -> Octets {
    Octets::new(Vec::from_slice(alloc, bytes).expect(rt, "memory"))
}

// Whether the stored password `pw` is held to match these.
fn is_held_right<R: Abort>(rt: &R, alloc: Global, plain: Octets) -> bool {
    let stored = stored_of(rt, alloc, Scheme::Plain, b"pw");
    Checked::new(stored.copy(alloc).expect(rt, "memory"), plain).answer()
}

#[test]
fn a_password_is_held_once(rt: HostRuntime) -> Result<(), Fail> {
    let plain = octets(&rt, rt.alloc(), b"pw");
    assert!(rt; plain.copy(rt.alloc())?.bytes() == b"pw".as_slice());
    assert!(rt; is_held_right(&rt, rt.alloc(), plain));
    assert!(rt; !is_held_right(&rt, rt.alloc(), Octets::new(Vec::new(rt.alloc()))));
    Ok(())
}
