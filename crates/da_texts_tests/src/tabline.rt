use crate::cases::cut;
use da_tabline::*;
use std::alloc::{AllocError, Global};
use std::test::Fail;

// Texts, each with its field behind `=`.
const WRITTEN: &[u8] = b"a\x00\x01\x09\x0d\x0ab=a\x010\x011\x01t\x01r\x01nb|x=x";

// Fields, each with its text behind `=`.
const READ: &[u8] = b"a\x010\x011\x01t\x01r\x01nb=a\x00\x01\x09\x0d\x0ab|\x01x=x|b\x01=b";

fn is_written(alloc: Global, case: &[u8]) -> Result<bool, AllocError> {
    let (text, field) = cut(case, b'=');
    Ok(escape(alloc, text)?.as_slice() == field)
}

fn is_read(alloc: Global, case: &[u8]) -> Result<bool, AllocError> {
    let (field, text) = cut(case, b'=');
    Ok(unescape(alloc, field)?.as_slice() == text)
}

#[test]
fn escapes_are_written_and_read(rt: HostRuntime) -> Result<(), Fail> {
    for case in WRITTEN.split(|byte| *byte == b'|') {
        assert!(rt; is_written(rt.alloc(), case)?);
    }
    for case in READ.split(|byte| *byte == b'|') {
        assert!(rt; is_read(rt.alloc(), case)?);
    }
    Ok(())
}

// Bytes, each with its text behind `>` (RFC 4648, section 10).
const ENCODED: &[u8] = b">|f>Zg==|fo>Zm8=|foo>Zm9v|foob>Zm9vYg==|fooba>Zm9vYmE=|foobar>Zm9vYmFy";

// Texts without their padding, with bits that are left over, and with bytes of no alphabet or another one.
const NOT_ENCODED: &[u8] = b"Zg|Zg=|Zh==|Zm9v\n|Z_==|Zg==Zg==";

fn is_decoded(alloc: Global, text: &[u8], bytes: &[u8]) -> Result<bool, AllocError> {
    match from_base64(alloc, text)? {
        Some(read) => Ok(read.as_slice() == bytes),
        None => Ok(false),
    }
}

fn is_encoded(alloc: Global, case: &[u8]) -> Result<bool, AllocError> {
    let (bytes, text) = cut(case, b'>');
    Ok(to_base64(alloc, bytes)?.as_slice() == text && is_decoded(alloc, text, bytes)?)
}

fn is_pushed(alloc: Global) -> Result<bool, AllocError> {
    let mut text = Vec::from_slice(alloc, b"c=")?;
    push_base64(&mut text, alloc, b"n,,")?;
    Ok(text.as_slice() == b"c=biws".as_slice())
}

#[test]
fn base64_is_that_of_rfc_4648(rt: HostRuntime) -> Result<(), Fail> {
    for case in ENCODED.split(|byte| *byte == b'|') {
        assert!(rt; is_encoded(rt.alloc(), case)?);
    }
    for text in NOT_ENCODED.split(|byte| *byte == b'|') {
        assert!(rt; from_base64(rt.alloc(), text)?.is_none());
    }
    assert!(rt; is_pushed(rt.alloc())?);
    Ok(())
}

// Texts with a comma behind each.
fn listed(alloc: Global, texts: &[Vec<u8>]) -> Result<Vec<u8>, AllocError> {
    let mut all = Vec::new(alloc);
    for text in texts {
        all.extend_from_slice(text)?;
        all.extend_from_slice(b",")?;
    }
    Ok(all)
}

fn cut_as_it_is(alloc: Global, line: &[u8]) -> Result<Vec<u8>, AllocError> {
    listed(alloc, &fields(alloc, line)?)
}

fn cut_and_read(alloc: Global, line: &[u8]) -> Result<Vec<u8>, AllocError> {
    listed(alloc, &unescaped_fields(alloc, line)?)
}

#[test]
fn a_line_is_cut_at_each_tab(rt: HostRuntime) -> Result<(), Fail> {
    let alloc = rt.alloc();
    assert!(rt; cut_as_it_is(alloc, b"a\t\tb")?.as_slice() == b"a,,b,".as_slice());
    assert!(rt; cut_as_it_is(alloc, b"")?.as_slice() == b",".as_slice());
    assert!(rt; cut_and_read(alloc, b"\x01t\t\x01")?.as_slice() == b"\t,,".as_slice());
    Ok(())
}

#[test]
fn numbers_have_no_leading_zeros_and_fit(rt: HostRuntime) {
    assert!(rt; decimal_u32(b"0") == Some(0));
    assert!(rt; decimal_u32(b"4294967295") == Some(4_294_967_295));
    for text in b"4294967296||00|+1".split(|byte| *byte == b'|') {
        assert!(rt; decimal_u32(text).is_none());
    }
    assert!(rt; decimal_number(b"18446744073709551615", u64::MAX) == Some(u64::MAX));
    assert!(rt; decimal_number(b"18446744073709551616", u64::MAX).is_none());
    assert!(rt; decimal_number(b"10", 9).is_none());
}

// Whether the next line has so many bytes.
fn has_next(lines: &mut Lines, wanted: usize) -> bool {
    match lines.next() {
        Some(line) => line.len() == wanted,
        None => false,
    }
}

fn is_cut(lines: &mut Lines, longest: &[u8]) -> bool {
    lines.feed(b"a\nb").is_ok()
        && lines.pending() == 1
        && lines.feed(b"\n").is_ok()
        && lines.feed(longest).is_ok()
        && lines.feed(b"\n").is_ok()
        && lines.pending() == 0
}

fn gives_three(lines: &mut Lines) -> bool {
    has_next(lines, 1) && has_next(lines, 1) && has_next(lines, 8192) && lines.next().is_none()
}

fn refuses_a_longer_one(lines: &mut Lines, longest: &[u8]) -> bool {
    lines.feed(b"c\nd").is_ok()
        && lines.feed(longest) == Err(LineFault::TooLong)
        && lines.feed(b"\ne\n") == Err(LineFault::TooLong)
        && has_next(lines, 1)
        && lines.next().is_none()
}

#[test]
fn the_longest_line_has_as_many_bytes_as_are_allowed(rt: HostRuntime) -> Result<(), Fail> {
    let longest = vec![in rt.alloc(); b'x'; 8192]?;
    let mut lines = Lines::new(rt.alloc(), 8192);
    assert!(rt; is_cut(&mut lines, &longest));
    assert!(rt; gives_three(&mut lines));
    assert!(rt; refuses_a_longer_one(&mut lines, &longest));
    Ok(())
}
