// What clients and workers do with a port.

ghost use Rattle.std.specs.Prelude.{◌≡◌};
ghost use Rattle.da_turn.specs.Seats.{IsFree, IsOf};

use da_fields::{Answer, Text};
use da_msgs::ConnKind;
use da_port::{Port, Seat};
use std::alloc::Global;
use std::process::Abort;
use std::sync::Wait;

// In the order of a client that logs in three times.
pub fn line_of(choice: u64) -> &'static [u8] {
    match choice {
        0 => b"VERSION\t1\t1",
        1 => b"CPID\t4711",
        2 => b"AUTH\t1\tPLAIN\tservice=imap\tresp=AGFsaWNlAHB3",
        3 => b"AUTH\t2\tPLAIN\tservice=imap",
        4 => b"CONT\t2\tAGJvYgBwdw==",
        5 => b"AUTH\t3\tPLAIN\tservice=imap\tresp=AGNhcm9sAHB3",
        6 => b"CANCEL\t1",
        _ => b"X",
    }
}

/// Random bytes that name a thread, and what it does.
pub fn named(thread: u8, number: u8) -> [u8; 16] {
    [thread, number, 0, 0, 0, 0, 0, 0, 0, 0, 0, 0, 0, 0, 0, 0]
}

// Without a clause, so that no proof goes through the bytes of a line.
fn text_of<R: Abort>(rt: &R, alloc: Global, line: &[u8]) -> Text {
    Text::from_slice(alloc, line).expect(rt, "memory")
}

/// Opens a connection of a client, and answers its number.
pub fn open<R: Wait>(rt: &R, port: &Port, seat: &mut Seat, thread: u8) -> Option<u32>
    requires { IsOf port.now seat.old × IsFree seat.old }
    ensures { IsOf port.now seat.new × IsFree seat.new }
{
    port.connect(rt, seat, 0, ConnKind::Client, named(thread, 255))
        .ok()
}

/// Sends a line, and answers 1 where the connection is still open, and else 0.
pub fn say<R: Wait + Abort>(
    rt: &R,
    alloc: Global,
    port: &Port,
    seat: &mut Seat,
    conn: u32,
    line: &[u8],
    random: [u8; 16],
) -> Option<u32>
    requires { IsOf port.now seat.old × IsFree seat.old }
    ensures { IsOf port.now seat.new × IsFree seat.new }
{
    let text = text_of(rt, alloc, line);
    match port.line(rt, seat, 0, conn, text, random) {
        Ok(is_open) => Some(u32::from(is_open)),
        Err(_) => None,
    }
}

// The number of the first query that waits.
fn take<R: Wait>(rt: &R, port: &Port, seat: &mut Seat) -> Option<u32>
    requires { IsOf port.now seat.old × IsFree seat.old }
    ensures { IsOf port.now seat.new × IsFree seat.new }
{
    let taken = port.take_query(rt, seat, 0);
    match &taken {
        Ok(Some(query)) => Some(query.number),
        _ => None,
    }
}

/// Takes a query and answers that nobody is known, and answers the number of the query.
pub fn answer<R: Wait>(rt: &R, port: &Port, seat: &mut Seat) -> Option<u32>
    requires { IsOf port.now seat.old × IsFree seat.old }
    ensures { IsOf port.now seat.new × IsFree seat.new }
{
    let number = take(rt, port, seat)?;
    let _ = port.answer(rt, seat, 0, number, Answer::Unknown);
    Some(number)
}
