use crate::cases::{stored_of, text};
use da_fields::{Said, Text};
use da_schemes::{Scheme, Stored};
use da_scram::*;
use std::alloc::Global;
use std::process::Abort;

// The example of RFC 7677, section 3.
const NONCE: &[u8] = b"%hvYDpWUa2RaTCAfuxFIlj)hNlF$k0";

const SALT: [u8; 16] = [
    0x5B, 0x6D, 0x99, 0x68, 0x9D, 0x12, 0x35, 0x8E, 0xEC, 0xA0, 0x4B, 0x14, 0x12, 0x36, 0xFA, 0x81,
];

const FIRST: &[u8] = b"n,,n=user,r=rOprNGfwEbeRWgbNEkqO";

const CHALLENGE: &[u8] =
    b"r=rOprNGfwEbeRWgbNEkqO%hvYDpWUa2RaTCAfuxFIlj)hNlF$k0,s=W22ZaJ0SNY7soEsUEjb6gQ==,i=4096";

const LAST: &[u8] =
    b"c=biws,r=rOprNGfwEbeRWgbNEkqO%hvYDpWUa2RaTCAfuxFIlj)hNlF$k0,p=dHzbZapWIk4jUhN+Ute9ytag9zjfMHgsqmmiz7AndVQ=";

const SERVER_FINAL: &[u8] = b"v=6rriTRBi23WpRR/wtup+mMhUZUn/dB5nLTJRsjl95G4=";

// What comes of a first message before the password is known, by its first letter, and then the message.
const FIRST_MESSAGES: &[u8] =
    b"Nn,,n=user,r=rOprNGfwEbeRWgbNEkqO\nNy,,n=user,r=x\nNn,a=admin,n=user,r=x\nNn,,n=a=2Cb,r=x\n\
Nn,,n=a=3Db,r=x\nNn,,n=user,r=x,a=\nNn,,n=user,r=x,Z=b,p==\nNn,,n= ,r=!~\n\
Bp=tls-unique,,n=user,r=x\nBn,,m=x,n=user,r=x\nBm=x,n,,n=user,r=x\nBn,,n=a=2cb,r=x\nBn,,n=a=2,r=x\nBn,,n=a=,r=x\nBn,,n=a=4Cb,r=x\n\
Bn,,n==,r=x\nBn,,n=a\0b,r=x\nBn,,n=,r=x\nBn,a=,n=user,r=x\nBn,b=admin,n=user,r=x\nBn,,user,r=x\nBn,,n=user,r=\n\
Bn,,n=user,r=a b\nBn,,n=user,r=\x7F\nBn,,n=user\nBn,,n=user,r=x,\nBn,,n=user,r=x,1=a\nBn,,n=user,r=x,ab\nBN,,n=user,r=x\nBn\nB\nB,,n=user,r=x\nBny,,n=user,r=x";

// What comes of a last message after the example's first one: `W` is a wrong proof.
const LAST_MESSAGES: &[u8] =
    b"Wc=biws,r=rOprNGfwEbeRWgbNEkqO%hvYDpWUa2RaTCAfuxFIlj)hNlF$k0,p=dXzbZapWIk4jUhN+Ute9ytag9zjfMHgsqmmiz7AndVQ=\n\
Wc=biws,r=rOprNGfwEbeRWgbNEkqO%hvYDpWUa2RaTCAfuxFIlj)hNlF$k0,x=y,p=dHzbZapWIk4jUhN+Ute9ytag9zjfMHgsqmmiz7AndVQ=\n\
Wc=biws,r=rOprNGfwEbeRWgbNEkqO%hvYDpWUa2RaTCAfuxFIlj)hNlF$k0,p=x,p=dHzbZapWIk4jUhN+Ute9ytag9zjfMHgsqmmiz7AndVQ=\n\
Bc=eSws,r=rOprNGfwEbeRWgbNEkqO%hvYDpWUa2RaTCAfuxFIlj)hNlF$k0,p=dHzbZapWIk4jUhN+Ute9ytag9zjfMHgsqmmiz7AndVQ=\n\
Bc=biws,r=rOprNGfwEbeRWgbNEkqO,p=dHzbZapWIk4jUhN+Ute9ytag9zjfMHgsqmmiz7AndVQ=\n\
Bc=biws,r=rOprNGfwEbeRWgbNEkqO%hvYDpWUa2RaTCAfuxFIlj)hNlF$k1,p=dHzbZapWIk4jUhN+Ute9ytag9zjfMHgsqmmiz7AndVQ=\n\
Bc=biws,r=sOprNGfwEbeRWgbNEkqO%hvYDpWUa2RaTCAfuxFIlj)hNlF$k0,p=dHzbZapWIk4jUhN+Ute9ytag9zjfMHgsqmmiz7AndVQ=\n\
Bc=biws,r=rOprNGfwEbeRWgbNEkqO%hvYDpWUa2RaTCAfuxFIlj)hNlF$k0,p=dHzbZapWIk4jUhN+Ute9ytag9zjfMHgsqmmiz7AndQ==\n\
Bc=biws,r=rOprNGfwEbeRWgbNEkqO%hvYDpWUa2RaTCAfuxFIlj)hNlF$k0,p=dHzbZapWIk4jUhN+Ute9ytag9zjfMHgsqmmiz7AndVQ\n\
Bc=biws,r=rOprNGfwEbeRWgbNEkqO%hvYDpWUa2RaTCAfuxFIlj)hNlF$k0\n\
Bc=biws,r=rOprNGfwEbeRWgbNEkqO%hvYDpWUa2RaTCAfuxFIlj)hNlF$k0,x,p=dHzbZapWIk4jUhN+Ute9ytag9zjfMHgsqmmiz7AndVQ=\n\
Br=rOprNGfwEbeRWgbNEkqO%hvYDpWUa2RaTCAfuxFIlj)hNlF$k0,c=biws,p=dHzbZapWIk4jUhN+Ute9ytag9zjfMHgsqmmiz7AndVQ=\nB";

fn letter(said: &Said) -> u8 {
    match said {
        Said::Challenge(text) if text.bytes() == CHALLENGE => b'C',
        Said::Need { .. } => b'N',
        Said::Proof {
            right: true,
            last: Some(last),
        } if last.bytes() == SERVER_FINAL => b'R',
        Said::Proof {
            right: false,
            last: None,
        } => b'W',
        Said::Bad => b'B',
        _ => b'?',
    }
}

fn texts_of<R: Abort>(rt: &R, alloc: Global, list: &[&[u8]]) -> Vec<Text> {
    let mut texts = Vec::new(alloc);
    for bytes in list {
        texts.push(text(rt, alloc, bytes)).expect(rt, "memory");
    }
    texts
}

fn said<R: Abort>(
    rt: &R,
    alloc: Global,
    messages: &[&[u8]],
    salt: &[u8; 16],
    stored: Option<&Stored>,
) -> Said {
    let texts = texts_of(rt, alloc, messages);
    says(alloc, &texts, NONCE, salt, stored).expect(rt, "memory")
}

fn is_first<R: Abort>(rt: &R, alloc: Global, case: &[u8]) -> bool {
    match case.split_first() {
        Some((wanted, message)) => letter(&said(rt, alloc, &[message], &SALT, None)) == *wanted,
        None => false,
    }
}

#[test]
fn a_first_message_is_on_its_form(rt: HostRuntime) {
    for case in FIRST_MESSAGES.split(|byte| *byte == b'\n') {
        assert!(rt; is_first(&rt, rt.alloc(), case));
    }
}

// Whether this user is needed, to be authorized as the other.
fn needs(said: &Said, name: &[u8], other: &[u8]) -> bool {
    match said {
        Said::Need {
            user,
            authzid,
            password: None,
        } => user.bytes() == name && authzid.bytes() == other,
        _ => false,
    }
}

#[test]
fn names_are_told_without_their_escapes(rt: HostRuntime) {
    let message = b"n,a==3D=2C,n=a=2Cb,r=x";
    let said = said(&rt, rt.alloc(), &[message], &SALT, None);
    assert!(rt; needs(&said, b"a,b", b"=,"));
}

fn is_last<R: Abort>(rt: &R, alloc: Global, case: &[u8], stored: &Stored) -> bool {
    match case.split_first() {
        Some((wanted, message)) => {
            let said = said(rt, alloc, &[FIRST, message], &[0; 16], Some(stored));
            letter(&said) == *wanted
        }
        None => false,
    }
}

const STORED: &[u8] =
    b"{SCRAM-SHA-256}4096,W22ZaJ0SNY7soEsUEjb6gQ==,WG5d8oPm3OtcPnkdi4Uo7BkeZkBFzpcXkuLmtbsT4qY=,wfPLwcE6nTWhTAmQ7tl2KeoiWGPlZqQxSrmfPwDl2dU=";

#[test]
fn a_last_message_is_on_its_form(rt: HostRuntime) {
    let stored = stored_of(&rt, rt.alloc(), Scheme::Plain, STORED);
    for case in LAST_MESSAGES.split(|byte| *byte == b'\n') {
        assert!(rt; is_last(&rt, rt.alloc(), case, &stored));
    }
}

fn answers<R: Abort>(rt: &R, alloc: Global, messages: &[&[u8]], stored: &Stored) -> u8 {
    letter(&said(rt, alloc, messages, &SALT, Some(stored)))
}

#[test]
fn the_example_is_answered_with_its_rounds(rt: HostRuntime) {
    let alloc = rt.alloc();
    let stored = stored_of(&rt, alloc, Scheme::Sha, b"{PLAIN}pencil");
    assert!(rt; letter(&said(&rt, alloc, &[], &SALT, None)) == b'?');
    assert!(rt; answers(&rt, alloc, &[FIRST], &stored) == b'C');
    assert!(rt; answers(&rt, alloc, &[FIRST, LAST], &stored) == b'R');
    assert!(rt; answers(&rt, alloc, &[FIRST, LAST, b"more"], &stored) == b'B');
}
