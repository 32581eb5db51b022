// What a client is sent, and what is printed of it.

use crate::one_client::{Client, HELLO, SHORT, Served, serve};
use da_session::{ReadEnd, WriteEnd};
use std::alloc::Global;
use std::process::Abort;
use std::sync::Wait;
use std::test::Fail;

const GREETING: &[u8] = b"VERSION\t1\t2\n\
MECH\tPLAIN\tplaintext\n\
SPID\t1\n\
CUID\t1\n\
COOKIE\t00000000000000000000000000000000\n\
DONE\n";

const GREETING_WITH_ELEVENS: &[u8] = b"VERSION\t1\t2\n\
MECH\tPLAIN\tplaintext\n\
SPID\t1\n\
CUID\t1\n\
COOKIE\t11111111111111111111111111111111\n\
DONE\n";

const PRINTED: &[u8] = b"5 open client -\n\
5 line 1 - VERSION\t1\t1\n\
5 line 1 - CPID\t7\n\
5 gone 1\n";

const PRINTED_WITH_ELEVENS: &[u8] = b"6 open client 11111111111111111111111111111111\n\
6 line 1 11111111111111111111111111111111 VERSION\t1\t1\n\
6 line 1 11111111111111111111111111111111 CPID\t7\n\
6 gone 1\n";

const BROKEN: &[u8] = b"5 open client -\n\
5 line 1 - VERSION\t1\t1\n\
5 line 1 - CPID\t7\n\
5 broken 1\n";

const FULL: &[u8] = b"5 open client -\n\
5 line 1 - VERSION\t1\t1\n\
5 line 1 - CPID\t7\n";

/// How a client is served, and what it is sent and what is printed then.
#[derive(Clone, Copy, Drop)]
struct Ends {
    read: ReadEnd,
    status: u8,
    sent: &'static [u8],
    printed: &'static [u8],
}

fn is_so(served: &Served, ends: Ends) -> bool {
    served.read == ends.read
        && served.write == WriteEnd::Ended
        && served.status == ends.status
        && served.sent.bytes() == ends.sent
        && served.printed.inner.bytes() == ends.printed
}

fn ends_so<R: Wait + Abort>(rt: &R, alloc: Global, client: &Client<'_>, ends: Ends) -> bool {
    is_so(&serve(rt, alloc, client), ends)
}

#[test]
fn a_client_gets_its_handshake_and_its_end_is_printed(rt: HostRuntime) {
    let ends = Ends {
        read: ReadEnd::Ended,
        status: 0,
        sent: GREETING,
        printed: PRINTED,
    };
    assert!(rt; ends_so(&rt, rt.alloc(), &SHORT, ends));
}

#[test]
fn moments_and_random_bytes_are_those_handed_in(rt: HostRuntime) {
    let client = Client {
        moment: 6,
        random: 0x11,
        ..SHORT
    };
    let ends = Ends {
        read: ReadEnd::Ended,
        status: 0,
        sent: GREETING_WITH_ELEVENS,
        printed: PRINTED_WITH_ELEVENS,
    };
    assert!(rt; ends_so(&rt, rt.alloc(), &client, ends));
}

#[test]
fn a_line_that_is_too_long_is_printed_as_broken(rt: HostRuntime) -> Result<(), Fail> {
    let mut sends = Vec::from_slice(rt.alloc(), HELLO)?;
    sends.resize(HELLO.len() + 8193, b'x')?;
    let client = Client {
        sends: &sends,
        ..SHORT
    };
    let ends = Ends {
        read: ReadEnd::Closed,
        status: 0,
        sent: GREETING,
        printed: BROKEN,
    };
    assert!(rt; ends_so(&rt, rt.alloc(), &client, ends));
    Ok(())
}

#[test]
fn a_full_history_ends_the_reader_and_is_printed(rt: HostRuntime) {
    let client = Client {
        settings: b"failure_delay = 0\nhistory_entries = 3\n",
        ..SHORT
    };
    let ends = Ends {
        read: ReadEnd::Full,
        status: 75,
        sent: GREETING,
        printed: FULL,
    };
    assert!(rt; ends_so(&rt, rt.alloc(), &client, ends));
}

// Whether so many bytes of the history are printed, and then a write fails.
fn is_printed_until(served: &Served, count: usize) -> bool {
    let printed = served.printed.inner.bytes();
    served.status == 74 && printed.len() == count && PRINTED.starts_with(printed)
}

// Whether so many bytes of the history are printed where the write of the next one fails.
fn is_cut_after<R: Wait + Abort>(rt: &R, alloc: Global, count: usize) -> bool {
    let client = Client {
        write_fails: (count as u64).saturating_add(1),
        ..SHORT
    };
    is_printed_until(&serve(rt, alloc, &client), count)
}

#[test]
fn a_write_that_fails_leaves_a_front_of_the_history(rt: HostRuntime) {
    for count in 0..PRINTED.len() {
        assert!(rt; is_cut_after(&rt, rt.alloc(), count));
    }
}
