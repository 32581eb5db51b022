use crate::cases::texts;
use da_fields::{Said, Text};
use da_plain::*;
use std::alloc::Global;
use std::process::Abort;

// What comes of some messages, by its first letter, and then the messages, each with a `;` before it.
const PLAIN: &[u8] =
    b"C\nN;\0alice\0pw\nN;bob\0alice\0p w\nB;\nB;alice\nB;alice\0pw\nB;\0\0pw\nB;\0alice\0\n\
B;a\0\0\nB;\0alice\0pw\0\nB;\0a\0b\0c\0d\nB;\0alice\0pw;\nB;\0alice\0pw;\0alice\0pw";

const LOGIN: &[u8] =
    b"C\nC;alice\nN;alice;pw\nB;\nB;;pw\nB;alice;\nB;alice;pw;\nB;alice;pw;more\nN;a\0b; ";

fn letter(said: &Said) -> u8 {
    match said {
        Said::Challenge(_) => b'C',
        Said::Need { .. } => b'N',
        Said::Proof { .. } => b'P',
        Said::Bad => b'B',
    }
}

fn plain<R: Abort>(rt: &R, alloc: Global, messages: &[Text]) -> Said {
    plain_says(alloc, messages).expect(rt, "memory")
}

fn login<R: Abort>(rt: &R, alloc: Global, messages: &[Text]) -> Said {
    login_says(alloc, messages).expect(rt, "memory")
}

fn is_plain<R: Abort>(rt: &R, alloc: Global, case: &[u8]) -> bool {
    match texts(rt, alloc, case).split_first() {
        Some((first, messages)) => {
            first.bytes() == [letter(&plain(rt, alloc, messages))].as_slice()
        }
        None => false,
    }
}

fn is_login<R: Abort>(rt: &R, alloc: Global, case: &[u8]) -> bool {
    match texts(rt, alloc, case).split_first() {
        Some((first, messages)) => {
            first.bytes() == [letter(&login(rt, alloc, messages))].as_slice()
        }
        None => false,
    }
}

#[test]
fn plain_takes_one_message_of_three_parts(rt: HostRuntime) {
    for case in PLAIN.split(|byte| *byte == b'\n') {
        assert!(rt; is_plain(&rt, rt.alloc(), case));
    }
}

#[test]
fn login_takes_a_name_and_a_password(rt: HostRuntime) {
    for case in LOGIN.split(|byte| *byte == b'\n') {
        assert!(rt; is_login(&rt, rt.alloc(), case));
    }
}

// Whether these are needed.
fn needs(said: &Said, name: &[u8], other: &[u8], word: &[u8]) -> bool {
    match said {
        Said::Need {
            user,
            authzid,
            password: Some(password),
        } => user.bytes() == name && authzid.bytes() == other && password.bytes() == word,
        _ => false,
    }
}

fn challenges(said: &Said, prompt: &[u8]) -> bool {
    match said {
        Said::Challenge(text) => text.bytes() == prompt,
        _ => false,
    }
}

#[test]
fn the_parts_are_told_in_their_places(rt: HostRuntime) {
    let alloc = rt.alloc();
    let by_plain = plain(&rt, alloc, &texts(&rt, alloc, b"bob\0alice\0pw"));
    assert!(rt; needs(&by_plain, b"alice", b"bob", b"pw"));
    let by_login = login(&rt, alloc, &texts(&rt, alloc, b"alice;pw"));
    assert!(rt; needs(&by_login, b"alice", b"", b"pw"));
}

#[test]
fn login_prompts_for_a_name_and_then_for_a_password(rt: HostRuntime) {
    let alloc = rt.alloc();
    assert!(rt; challenges(&plain(&rt, alloc, &[]), b""));
    assert!(rt; challenges(&login(&rt, alloc, &[]), b"Username:"));
    let name = texts(&rt, alloc, b"alice");
    assert!(rt; challenges(&login(&rt, alloc, &name), b"Password:"));
}
