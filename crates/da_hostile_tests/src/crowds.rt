// A client with as many open requests as it may have.

use crate::events::{AUTH, gives, is_greeted};
use da_core::Core;
use da_player::{Look, looks_right};
use std::alloc::{AllocError, Global};
use std::test::Fail;

// The most requests of a connection that may be open.
const MOST: u32 = 1000;

const CANCEL: &[u8] = b"0 line # - CANCEL\t@";

const CLOSED: &[u8] = b"1 close #\n";

// Whether as many requests are let in as may be open.
fn are_let_in(alloc: Global, core: &mut Core) -> Result<bool, AllocError> {
    for id in 0..MOST {
        if !gives(alloc, core, AUTH, 1, id, b"")? {
            return Ok(false);
        }
    }
    Ok(true)
}

/// Once one of them is cancelled, one more is let in, and the next one closes the connection.
#[derive(Drop)]
struct Crowd {}

impl Look for Crowd {
    fn is_right(&self, alloc: Global, core: &mut Core) -> Result<bool, AllocError> {
        Ok(
            is_greeted(alloc, core, 1)?
                && are_let_in(alloc, core)?
                && gives(alloc, core, CANCEL, 1, 0, b"")?
                && gives(alloc, core, AUTH, 1, 1000, b"")?
                && gives(alloc, core, AUTH, 1, 1001, CLOSED)?,
        )
    }
}

#[test]
fn a_client_may_have_a_thousand_requests_open(rt: HostRuntime) -> Result<(), Fail> {
    assert!(rt; looks_right(rt.alloc(), b"failure_delay = 0\n", None, &Crowd {})?);
    Ok(())
}
