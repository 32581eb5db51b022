// A client that introduces itself, and ends so or so.

use crate::service::bytes_of;
use crate::session::{Client, Session, run_session};
use da_session::{ReadEnd, WriteEnd};
use std::alloc::Global;
use std::process::Abort;
use std::sync::Wait;

const AT_ONCE: &[u8] = b"failure_delay = 0\n";

const INTRODUCTION: &[u8] = b"VERSION\t1\t1\nCPID\t7\n";

const GREETING: &[u8] = b"VERSION\t1\t2\n\
MECH\tPLAIN\tplaintext\n\
SPID\t1\n\
CUID\t1\n\
COOKIE\t00000000000000000000000000000000\n\
DONE\n";

const OPENED: &[u8] = b"5 open client -\n";

const VERSIONED: &[u8] = b"5 open client -\n\
5 line 1 - VERSION\t1\t1\n";

const INTRODUCED: &[u8] = b"5 open client -\n\
5 line 1 - VERSION\t1\t1\n\
5 line 1 - CPID\t7\n";

fn client(sends: &[u8]) -> Client<'_> {
    Client {
        settings: AT_ONCE,
        moment: 5,
        random: 0,
        sends,
        most: 0,
        read_fails: 0,
        write_fails: 0,
    }
}

// Whether the client was sent this and no more, to the end.
fn was_sent(session: &Session, sent: &[u8]) -> bool {
    session.write == WriteEnd::Ended && session.sink.inner.bytes() == sent
}

// Whether the client was read to this end, and the history has these entries and then these.
fn was_read(session: &Session, end: ReadEnd, entries: &[u8], last: &[u8]) -> bool {
    let script = session.script.as_slice();
    session.read == end
        && script.len() == entries.len().saturating_add(last.len())
        && script.starts_with(entries)
        && script.ends_with(last)
}

// Whether a client is greeted, and is read to this end, with these entries and then these.
fn ends_so<R: Wait + Abort>(
    rt: &R,
    alloc: Global,
    client: &Client<'_>,
    end: ReadEnd,
    entries: &[u8],
    last: &[u8],
) -> bool {
    let session = run_session(rt, alloc, client);
    was_sent(&session, GREETING) && was_read(&session, end, entries, last)
}

// Whether a client that introduces itself and then sends this is read so.
fn goes_on_so<R: Wait + Abort>(
    rt: &R,
    alloc: Global,
    rest: &[u8],
    end: ReadEnd,
    last: &[u8],
) -> bool {
    let mut sends = bytes_of(rt, alloc, INTRODUCTION);
    sends.extend_from_slice(rest).expect(rt, "memory");
    ends_so(rt, alloc, &client(&sends), end, INTRODUCED, last)
}

// The same with so many letters.
fn goes_on_with<R: Wait + Abort>(
    rt: &R,
    alloc: Global,
    letters: usize,
    end: ReadEnd,
    last: &[u8],
) -> bool {
    let rest = vec![in alloc; b'x'; letters].expect(rt, "memory");
    goes_on_so(rt, alloc, &rest, end, last)
}

#[test]
fn a_client_is_greeted_and_ends(rt: HostRuntime) {
    let alloc = rt.alloc();
    let gone = b"5 gone 1\n";
    let other = b"VERSION\t2\t0\nCPID\t8\n";
    let refused = b"5 line 1 - VERSION\t2\t0\n";
    assert!(rt; goes_on_so(&rt, alloc, b"", ReadEnd::Ended, gone));
    assert!(rt; goes_on_so(&rt, alloc, b"AUTH", ReadEnd::Ended, gone));
    assert!(rt; goes_on_with(&rt, alloc, 8192, ReadEnd::Ended, gone));
    assert!(rt; goes_on_with(&rt, alloc, 8193, ReadEnd::Closed, b"5 broken 1\n"));
    assert!(rt; goes_on_so(&rt, alloc, other, ReadEnd::Closed, refused));
}

const OTHER_GREETING: &[u8] = b"VERSION\t1\t2\n\
MECH\tPLAIN\tplaintext\n\
SPID\t1\n\
CUID\t1\n\
COOKIE\t11111111111111111111111111111111\n\
DONE\n";

const OTHER_HISTORY: &[u8] = b"6 open client 11111111111111111111111111111111\n\
6 line 1 11111111111111111111111111111111 VERSION\t1\t1\n\
6 line 1 11111111111111111111111111111111 CPID\t7\n";

#[test]
fn each_entry_has_its_moment_and_its_random_bytes(rt: HostRuntime) {
    let other = Client {
        moment: 6,
        random: 0x11,
        ..client(INTRODUCTION)
    };
    let session = run_session(&rt, rt.alloc(), &other);
    assert!(rt; was_sent(&session, OTHER_GREETING));
    assert!(rt; was_read(&session, ReadEnd::Ended, OTHER_HISTORY, b"6 gone 1\n"));
}

#[test]
fn pieces_of_any_size_give_the_same_entries(rt: HostRuntime) {
    for most in 0..INTRODUCTION.len() {
        let cut = Client {
            most,
            ..client(INTRODUCTION)
        };
        assert!(rt;
            ends_so(
                &rt,
                rt.alloc(),
                &cut,
                ReadEnd::Ended,
                INTRODUCED,
                b"5 gone 1\n"
            )
        );
    }
}

// The entries of a client that sent so many bytes of its introduction.
fn entries_after(count: u64) -> &'static [u8] {
    if count < 12 {
        OPENED
    } else if count < 19 {
        VERSIONED
    } else {
        INTRODUCED
    }
}

// The introduction has 19 bytes. One read more finds that nothing comes after them.
#[test]
fn a_read_that_fails_ends_the_connection(rt: HostRuntime) {
    for count in 0..20 {
        let failing = Client {
            most: 1,
            read_fails: count + 1,
            ..client(INTRODUCTION)
        };
        let entries = entries_after(count);
        assert!(rt;
            ends_so(
                &rt,
                rt.alloc(),
                &failing,
                ReadEnd::Cut,
                entries,
                b"5 gone 1\n"
            )
        );
    }
}

// Whether a client whose sink takes so many bytes, one at a time, and then fails has these bytes of its greeting.
fn is_cut_after<R: Wait + Abort>(rt: &R, alloc: Global, count: usize) -> bool {
    let failing = Client {
        most: 1,
        write_fails: (count as u64).saturating_add(1),
        ..client(INTRODUCTION)
    };
    let session = run_session(rt, alloc, &failing);
    let sent = session.sink.inner.bytes();
    session.write == WriteEnd::Cut && sent.len() == count && GREETING.starts_with(sent)
}

#[test]
fn a_write_that_fails_leaves_a_front(rt: HostRuntime) {
    for count in 0..GREETING.len() {
        assert!(rt; is_cut_after(&rt, rt.alloc(), count));
    }
}

#[test]
fn a_full_history_ends_both(rt: HostRuntime) {
    let narrow = Client {
        settings: b"failure_delay = 0\nhistory_entries = 3\n",
        ..client(INTRODUCTION)
    };
    assert!(rt; ends_so(&rt, rt.alloc(), &narrow, ReadEnd::Full, INTRODUCED, b""));
}
