// What a session is told, and what it does.

ghost use Rattle.std.specs.Prelude.{◌≡◌};

use da_fields::{Fields, Text};

/// The side whose event a session awaits.
#[derive(Clone, Copy, Drop, PartialEq, Eq)]
pub enum Side {
    /// The auth service, by a line.
    Auth,
    /// The master side of the auth service, by a line.
    Master,
    /// The client: by a line, by one that is too long, or by its end.
    Client,
    /// The mail program, which is up or isn't.
    Mail,
    /// Nobody: the session is over.
    Over,
}

/// What a session is told. Lines stand without their line ends.
#[derive(Drop)]
pub enum Event {
    /// A line of the client (RFC 1939).
    Client(Text),
    /// A line of the client that is too long.
    ClientLong,
    /// The client sends nothing more.
    ClientEnd,
    /// A line of the auth service.
    Auth(Text),
    /// A line of the master side of the auth service.
    Master(Text),
    /// The mail program was started.
    MailUp,
    /// The mail program could not be started.
    MailDown,
}

impl Event {
    ghost use Rattle.da_pop3.specs.State.{side_of};

    /// The side whose event it is.
    pub fn side(&self) -> Side
        ensures { result ≡ side_of self.now }
    {
        match self {
            Event::Client(_) | Event::ClientLong | Event::ClientEnd => Side::Client,
            Event::Auth(_) => Side::Auth,
            Event::Master(_) => Side::Master,
            Event::MailUp | Event::MailDown => Side::Mail,
        }
    }
}

/// What a session does. Lines stand without their line ends.
#[derive(Drop)]
pub enum Act {
    /// A line to the client.
    Say(Text),
    /// A line to the auth service.
    ToAuth(Text),
    /// A line to the master side of the auth service.
    ToMaster(Text),
    /// The mail program is started for this user, with the fields that the user databases gave.
    Start { user: Text, fields: Fields },
    /// The client is left.
    End,
}

/// Why a step has no acts.
#[derive(Drop)]
pub enum StepFault {
    /// The line of the auth service or of its master side, which isn't one that may come here.
    BadPeer { line: Text },
    /// Memory is wanted.
    NoMemory,
}
