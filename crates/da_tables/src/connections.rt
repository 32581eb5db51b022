// The connections of the server: which lines close theirs, and changes of them.

ghost use Rattle.std.specs.List.{list_any};
ghost use Rattle.std.specs.Prelude.{◌≡◌, ◌<◌, ◌^◌, ◌-◌, ◌&&◌, ◌==◌, length};
ghost use Rattle.da_base.specs.Words.{number_where, count_where, changed_nth};
ghost use Rattle.da_tables.specs.Connections.{has_pid, has_version, knows_codes, knows_codes_in, open_count, request_number, client_may, master_may, may_authenticate, may_look_up, may_tell_pid, may_tell_version, with_version, with_pid};
ghost use Rattle.da_tables.specs.Tables.{is_client, is_open_in, closed};

use crate::requests::{number_called, pending_count};
use crate::tables::Tables;
use da_fields::Text;
use da_msgs::{ClientMsg, ConnKind, MasterMsg};
use da_request::{Request, row};
use std::marker::Model;

/// How many requests of a connection may be open.
const REQUESTS_MAX: usize = 1000;

/// What is known of a connection.
#[derive(Drop)]
pub struct Connection {
    pub kind: ConnKind,
    /// Its random bytes in hexadecimal digits.
    pub cookie: Text,
    /// The minor version that it sent.
    pub minor: Option<u32>,
    /// The process number that a client sent.
    pub pid: Option<u32>,
    pub is_open: bool,
}

/// Connections, the first at number 1.
#[derive(Drop)]
pub struct Connections {
    pub(crate) items: Vec<Connection>,
}

impl Model for Connections {
    ghost use Rattle.std.specs.Prelude.{List};
    ghost use Rattle.da_tables.specs.declared.connections.Connection.{Connection};

    ghost Value = { List Connection };

    ghost view = { λ t. t.items.items };
}

impl Connection {
    /// Whether a client has it.
    pub fn is_of_client(&self) -> bool
        ensures { result ≡ is_client self.now.kind }
    {
        is_client(self.kind)
    }

    /// Whether it is open, and a client sent this process number on it.
    pub fn has_pid(&self, pid: u32) -> bool
        ensures { result ≡ has_pid pid self.now }
    {
        self.is_of_client() && self.is_open && self.pid == Some(pid)
    }

    /// Whether it sent its version.
    pub fn has_version(&self) -> bool
        ensures { result ≡ has_version self.now }
    {
        self.minor.is_some()
    }

    /// Whether it sent the minor version 2 or a greater one, and so knows the codes of failures.
    pub fn knows_codes(&self) -> bool
        ensures { result ≡ knows_codes self.now }
    {
        match self.minor {
            Some(minor) => 2 <= minor,
            None => false,
        }
    }

    /// Whether its version may be told: once, and of major 1.
    pub fn may_tell_version(&self, major: u32) -> bool
        ensures { result ≡ may_tell_version major self.now }
    {
        !self.has_version() && major == 1
    }

    /// Whether its client may tell its process number, which another open client has or hasn't.
    pub fn may_tell_pid(&self, is_taken: bool) -> bool
        ensures { result ≡ may_tell_pid is_taken self.now }
    {
        self.has_version() && self.pid.is_none() && !is_taken
    }

    /// Whether its client may begin a request: the number of the request that it calls by the same id is handed in, or 0,
    /// and how many of its requests are open.
    pub fn may_authenticate(&self, called: u32, pending: usize) -> bool
        ensures { result ≡ may_authenticate called pending self.now }
    {
        self.has_version() && self.pid.is_some() && called == 0 && pending < REQUESTS_MAX
    }

    /// Whether its master may begin a request: the number of the request that it calls by the same id is handed in, or 0.
    pub fn may_look_up(&self, called: u32) -> bool
        ensures { result ≡ may_look_up called self.now }
    {
        self.has_version() && called == 0
    }
}

impl Connections {
    /// All of them, in order.
    pub fn all(&self) -> &[Connection]
        ensures { result.now ≡ self.now }
    {
        &self.items
    }

    pub(crate) fn close(&mut self, conn: u32)
        ensures { self.new ≡ changed_nth closed self.old conn }
    {
        close(&mut self.items, conn);
    }
}

impl Tables {
    /// Whether the connection is open.
    pub fn is_open(&self, conn: u32) -> bool
        ensures { result ≡ is_open_in self.now conn }
    {
        match row(&self.connections.items, conn) {
            Some(connection) => connection.is_open,
            None => false,
        }
    }

    /// Whether the connection knows the codes of failures.
    pub fn knows_codes(&self, conn: u32) -> bool
        ensures { result ≡ knows_codes_in self.now conn }
    {
        match row(&self.connections.items, conn) {
            Some(connection) => connection.knows_codes(),
            None => false,
        }
    }

    /// How many connections are open.
    pub fn open_count(&self) -> usize
        ensures { result ≡ open_count self.now }
    {
        count_open(&self.connections.items)
    }

    /// The number of the request that the connection calls by this id, or 0.
    pub fn request_number(&self, conn: u32, id: u32) -> u32
        requires { length self.now.requests < 2 ^ 32 - 1 }
        ensures { result ≡ request_number self.now conn id }
    {
        number_called(&self.requests.items, conn, id)
    }

    /// The number of the open connection on which a client sent this process number, or 0.
    pub fn connection_with(&self, pid: u32) -> u32
        requires { length self.now.connections < 2 ^ 32 - 1 }
        ensures { result ≡ number_where (has_pid pid) self.now.connections }
    {
        number_with_pid(&self.connections.items, pid)
    }

    /// Whether a client may send this message: first its version, of major 1, and then its process number, which no other
    /// open client has; a new request has an id of its own, and finds fewer than 1,000 requests of its connection open.
    pub fn client_may(&self, conn: u32, connection: &Connection, message: &ClientMsg) -> bool
        requires { length self.now.requests < 2 ^ 32 - 1 }
        ensures { result ≡ client_may self.now conn connection.now message.now }
    {
        match message {
            ClientMsg::Version { major, .. } => connection.may_tell_version(*major),
            ClientMsg::Pid { pid } => {
                connection.may_tell_pid(some_has_pid(&self.connections.items, *pid))
            }
            ClientMsg::Auth { id, .. } => {
                let pending = pending_count(&self.requests.items, conn);
                connection.may_authenticate(self.request_number(conn, *id), pending)
            }
            _ => connection.has_version() && connection.pid.is_some(),
        }
    }

    /// Whether a master may send this message: first its version; a request has an id of its own.
    pub fn master_may(&self, conn: u32, connection: &Connection, message: &MasterMsg) -> bool
        requires { length self.now.requests < 2 ^ 32 - 1 }
        ensures { result ≡ master_may self.now conn connection.now message.now }
    {
        match message {
            MasterMsg::Version { major, .. } => connection.may_tell_version(*major),
            MasterMsg::Request { id, .. } => {
                connection.may_look_up(self.request_number(conn, *id))
            }
            MasterMsg::Other => connection.has_version(),
        }
    }
}

fn is_client(kind: ConnKind) -> bool
    ensures { result ≡ is_client kind }
{
    match kind {
        ConnKind::Client => true,
        ConnKind::Master => false,
    }
}

/// The number of the open client connection of this process number, or 0.
pub fn number_with_pid(connections: &[Connection], pid: u32) -> u32
    requires { length connections.now < 2 ^ 32 - 1 }
    ensures { result ≡ number_where (has_pid pid) connections.now }
{
    let mut before: u32 = 0;
    for connection in connections {
        if connection.has_pid(pid) {
            return before + 1;
        }
        before += 1;
    }
    0
}

/// Whether an open client connection has this process number.
pub fn some_has_pid(connections: &[Connection], pid: u32) -> bool
    ensures { result ≡ list_any (has_pid pid) connections.now }
{
    connections.iter().any(|connection| connection.has_pid(pid))
}

/// How many connections are open.
pub fn count_open(connections: &[Connection]) -> usize
    ensures { result ≡ count_where (λ c. c.is_open) connections.now }
{
    connections
        .iter()
        .filter(|connection| connection.is_open)
        .count()
}

fn close(connections: &mut [Connection], conn: u32)
    ensures { connections.new ≡ changed_nth closed connections.old conn }
{
    if conn > 0 && conn as usize <= connections.len() {
        connections[conn as usize - 1].is_open = false;
    }
}

pub(crate) fn set_version(connections: &mut [Connection], conn: u32, minor: u32)
    ensures { connections.new ≡ changed_nth (with_version minor) connections.old conn }
{
    if conn > 0 && conn as usize <= connections.len() {
        connections[conn as usize - 1].minor = Some(minor);
    }
}

pub(crate) fn set_pid(connections: &mut [Connection], conn: u32, pid: u32)
    ensures { connections.new ≡ changed_nth (with_pid pid) connections.old conn }
{
    if conn > 0 && conn as usize <= connections.len() {
        connections[conn as usize - 1].pid = Some(pid);
    }
}
