// What the program says on standard error.

use crate::usage::usage_text;
use da_app::Status;
use da_outside::{Failed, Sink};
use da_stream::write_all;
use da_unix::shown;
use std::alloc::{AllocError, Global};

/// Says why the program ended.
pub fn complain<K: Sink>(to: &mut K, words: &[u8]) -> Result<(), Failed> {
    write_all(to, b"dauth: ")?;
    write_all(to, words)?;
    write_all(to, b"\n")
}

/// Tells the words of a status, if it has any, and where it is `usage` how the program is used. Where no memory is left for
/// the words, that is told; where none is left for the usage text, nothing is.
pub fn tell<K: Sink>(alloc: Global, to: &mut K, status: &Status) {
    let told = match words_of(alloc, status) {
        Ok(words) if words.is_empty() => Ok(()),
        Ok(words) => complain(to, &words),
        Err(AllocError) => complain(to, b"no memory"),
    };
    if told.is_ok() && matches!(status, Status::Usage) {
        tell_usage(alloc, to);
    }
}

fn tell_usage<K: Sink>(alloc: Global, to: &mut K) {
    if let Ok(text) = usage_text(alloc) {
        let _ = write_all(to, text.as_bytes());
    }
}

// They may have a key of a settings file in them, which can be any text.
fn words_of(alloc: Global, status: &Status) -> Result<Vec<u8>, AllocError> {
    shown(alloc, &status.words(alloc)?)
}
