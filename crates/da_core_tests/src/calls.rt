// The calls that ask a server something, each at some places of a script.

use da_core::{Core, Due, Goal};
use da_player::{Look, looks_right, reply_to};
use da_tabline::{decimal_number, split_at_byte};
use std::alloc::{AllocError, Global};
use std::test::Fail;

/// Failures are held back for two seconds, and queries may run for a second.
pub const SLOW: &[u8] = b"failure_delay = 2000\nquery_limit = 1000\n";

// In each row stand letters for what the server tells at a moment after an event; no event after it means that none
// happens. They are `w` for a query that waits, `r` for one that runs, `c` where the clock is needed, `d` where a reply is
// due at the moment, `l` where the first query is late then, `f` for a full history, `o` where the goal is met, and `e`
// where the first connection's bytes ended.

/// A login that fails, whose reply is held back.
const HELD: &[u8] = b"e|5000|\n\
|5000|1 open client -\n\
|5000|2 line 1 - VERSION\t1\t1\n\
|5000|3 line 1 - CPID\t4711\n\
wc|5000|10 line 1 - AUTH\t1\tPLAIN\tservice=imap\tresp=AGFsaWNlAHB3\n\
rc|1009|10 take\n\
rcl|1010|\n\
rc|0|\n\
c|2019|20 answer UNKNOWN\t1\n\
cd|2020|\n\
c|2019|2019 tick\n\
cd|2020|\n\
|2020|2020 tick\n\
|0|\n\
e|9000|3000 gone 1";

/// A login may take a hundred milliseconds.
const SHORT: &[u8] = b"failure_delay = 2000\nquery_limit = 1000\nrequest_limit = 100\n";

/// A login that takes too long, and whose query is late.
const TIMED_OUT: &[u8] = b"|5000|1 open client -\n\
|5000|2 line 1 - VERSION\t1\t1\n\
|5000|3 line 1 - CPID\t4711\n\
wc|109|10 line 1 - AUTH\t1\tPLAIN\tservice=imap\tresp=AGFsaWNlAHB3\n\
wcd|110|\n\
rc|109|10 take\n\
rcd|110|\n\
rcdl|1010|\n\
rc|1009|110 tick\n\
rcl|1010|\n\
|9000|1010 late 1";

/// The third entry is the last one.
const FULL: &[u8] = b"|0|1 open client -\n|0|2 tick\nfe|0|3 tick\nfe|0|4 tick";

/// One client is to come and go.
const GOAL: &[u8] = b"|0|1 open client -\n\
|0|2 line 1 - VERSION\t1\t1\n\
|0|3 line 1 - CPID\t4711\n\
wc|0|10 line 1 - AUTH\t1\tPLAIN\tservice=imap\tresp=AGFsaWNlAHB3\n\
rc|0|11 take\n\
|0|20 answer FOUND\t1\t{PLAIN}pw\n\
wc|0|21 line 1 - AUTH\t2\tPLAIN\tservice=imap\tresp=AGFsaWNlAHB3\n\
rc|0|22 take\n\
rcoe|0|23 gone 1";

fn is_due_as_told(core: &Core, moment: u64, letters: &[u8]) -> bool {
    let query = if letters.contains(&b'l') {
        Some(1)
    } else {
        None
    };
    let reply = letters.contains(&b'd');
    core.due(moment) == Due { reply, query } && core.needs_clock() == letters.contains(&b'c')
}

fn is_ended_as_told(core: &Core, letters: &[u8]) -> bool {
    core.is_full() == letters.contains(&b'f')
        && core.is_over() == letters.contains(&b'o')
        && core.take_lines(1, 1000, &mut []).ended == letters.contains(&b'e')
}

fn are_queries_as_told(core: &Core, letters: &[u8]) -> bool {
    core.waiting() == usize::from(letters.contains(&b'w'))
        && core.running() == usize::from(letters.contains(&b'r'))
}

/// Whether the server tells at the moment what the letters say.
fn is_as_told(core: &Core, moment: &[u8], letters: &[u8]) -> bool {
    let Some(moment) = decimal_number(moment, u64::MAX) else {
        return false;
    };
    is_due_as_told(core, moment, letters)
        && is_ended_as_told(core, letters)
        && are_queries_as_told(core, letters)
}

fn is_row_right(alloc: Global, core: &mut Core, row: &[u8]) -> Result<bool, AllocError> {
    let Some((letters, rest)) = split_at_byte(row, b'|') else {
        return Ok(false);
    };
    let Some((moment, event)) = split_at_byte(rest, b'|') else {
        return Ok(false);
    };
    reply_to(alloc, core, 1, event)?;
    Ok(is_as_told(core, moment, letters))
}

/// Looks at each row.
#[derive(Drop)]
struct Rows {
    rows: &'static [u8],
}

impl Look for Rows {
    fn is_right(&self, alloc: Global, core: &mut Core) -> Result<bool, AllocError> {
        for row in self.rows.split(|byte| *byte == b'\n') {
            if !is_row_right(alloc, core, row)? {
                return Ok(false);
            }
        }
        Ok(true)
    }
}

#[test]
fn replies_and_queries_come_due(rt: HostRuntime) -> Result<(), Fail> {
    assert!(rt; looks_right(rt.alloc(), SLOW, None, &Rows { rows: HELD })?);
    Ok(())
}

#[test]
fn the_limit_of_a_login_comes_due(rt: HostRuntime) -> Result<(), Fail> {
    assert!(rt; looks_right(rt.alloc(), SHORT, None, &Rows { rows: TIMED_OUT })?);
    Ok(())
}

#[test]
fn a_history_is_full(rt: HostRuntime) -> Result<(), Fail> {
    assert!(rt;
        looks_right(
            rt.alloc(),
            b"history_entries = 3\n",
            None,
            &Rows { rows: FULL }
        )?
    );
    Ok(())
}

#[test]
fn a_goal_is_met(rt: HostRuntime) -> Result<(), Fail> {
    let goal = Some(Goal {
        clients: 1,
        masters: 0,
    });
    assert!(rt; looks_right(rt.alloc(), SLOW, goal, &Rows { rows: GOAL })?);
    Ok(())
}
