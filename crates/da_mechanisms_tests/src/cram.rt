use crate::cases::{stored_of, texts};
use da_cram::*;
use da_fields::{Said, Text};
use da_schemes::{Scheme, Stored};
use std::alloc::Global;
use std::process::Abort;
use std::test::Fail;

// The example of RFC 2195, section 2.
const CHALLENGE: &[u8] = b"<1896.697170952@postoffice.reston.mci.net>";

const STORED: &[u8] = b"{PLAIN}tanstaaftanstaaf";

// What comes of some messages without credentials, by its first letter, and then the messages, each with a `;` before it.
const UNKNOWN: &[u8] =
    b"C\nN;tim b913a602c7eda7a495b4e6e7334d3890\nN;t i m b913a602c7eda7a495b4e6e7334d3890\n\
B;tim B913a602c7eda7a495b4e6e7334d3890\nB; b913a602c7eda7a495b4e6e7334d3890\nB;b913a602c7eda7a495b4e6e7334d3890\n\
B;tim\tb913a602c7eda7a495b4e6e7334d3890\nB;tim b913a602c7eda7a495b4e6e7334d389\n\
B;tim b913a602c7eda7a495b4e6e7334d389g\nB;tim b913a602c7eda7a495b4e6e7334d38900\nB;\n\
B;tim b913a602c7eda7a495b4e6e7334d3890;\nB;tim b913a602c7eda7a495b4e6e7334d3890 ";

// The same with the example's password: `R` is a right digest, `W` a wrong one.
const KNOWN: &[u8] =
    b"C\nR;tim b913a602c7eda7a495b4e6e7334d3890\nR;anyone b913a602c7eda7a495b4e6e7334d3890\n\
W;tim b913a602c7eda7a495b4e6e7334d3891\nW;tim c913a602c7eda7a495b4e6e7334d3890\n\
B;tim B913a602c7eda7a495b4e6e7334d3890\nB;tim b913a602c7eda7a495b4e6e7334d3890;more";

fn letter(said: &Said) -> u8 {
    match said {
        Said::Challenge(text) if text.bytes() == CHALLENGE => b'C',
        Said::Need { .. } => b'N',
        Said::Proof {
            right: true,
            last: None,
        } => b'R',
        Said::Proof {
            right: false,
            last: None,
        } => b'W',
        Said::Bad => b'B',
        _ => b'?',
    }
}

fn letter_to<R: Abort>(rt: &R, alloc: Global, messages: &[Text], stored: Option<&Stored>) -> u8 {
    letter(&says(alloc, messages, CHALLENGE, stored).expect(rt, "memory"))
}

fn is_said<R: Abort>(rt: &R, alloc: Global, case: &[u8], stored: Option<&Stored>) -> bool {
    match texts(rt, alloc, case).split_first() {
        Some((first, messages)) => {
            first.bytes() == [letter_to(rt, alloc, messages, stored)].as_slice()
        }
        None => false,
    }
}

#[test]
fn a_response_has_a_name_and_small_digits(rt: HostRuntime) {
    for case in UNKNOWN.split(|byte| *byte == b'\n') {
        assert!(rt; is_said(&rt, rt.alloc(), case, None));
    }
}

#[test]
fn a_digest_is_right_or_wrong(rt: HostRuntime) {
    let stored = stored_of(&rt, rt.alloc(), Scheme::Plain, STORED);
    for case in KNOWN.split(|byte| *byte == b'\n') {
        assert!(rt; is_said(&rt, rt.alloc(), case, Some(&stored)));
    }
}

#[test]
fn a_password_that_is_kept_as_a_digest_is_of_no_use(rt: HostRuntime) {
    let text = b"{SHA}qZk+NkcGgWq6PiVxeFDCbJzQ2J0=";
    let stored = stored_of(&rt, rt.alloc(), Scheme::Plain, text);
    assert!(rt; letter_to(&rt, rt.alloc(), &[], Some(&stored)) == b'B');
}

#[test]
fn a_challenge_has_the_digits_the_moment_and_the_host(rt: HostRuntime) -> Result<(), Fail> {
    let text = challenge(rt.alloc(), &[0; 16], 1003, b"localhost")?;
    let wanted = b"<00000000000000000000000000000000.1003@localhost>".as_slice();
    assert!(rt; text.as_slice() == wanted);
    Ok(())
}
