// A session.

ghost use Rattle.std.specs.Prelude.{◌≡◌, IfOk};
ghost use Rattle.da_pop3.specs.State.{side_at};
ghost use Rattle.da_pop3.specs.Table.{fresh, moved};

use crate::event::Side;
use crate::place::{AuthPlace, Place};
use da_fields::Text;
use std::alloc::{AllocError, Global};
use std::marker::Model;

/// A session of a POP3 login process (RFC 1939, with the AUTH of RFC 5034): a client, the auth service on one link, and the
/// service's master side on another. It reads and writes nothing by itself: it is told events and answers acts.
#[derive(Drop)]
pub struct Pop3 {
    pub(crate) alloc: Global,
    pub(crate) pid: u32,
    pub(crate) place: Place,
    pub(crate) mechanisms: Vec<Text>,
    pub(crate) cookie: Option<Text>,
    pub(crate) name: Option<Text>,
    pub(crate) failures: u32,
}

impl Model for Pop3 {
    ghost use Rattle.std.specs.Prelude.{◌≤◌};
    ghost use Rattle.da_pop3.specs.State.{State};

    ghost Value = { State };

    ghost view = { λ p. record { pid = p.pid; place = p.place; mechanisms = p.mechanisms.items; cookie = p.cookie; name = p.name; failures = p.failures } };

    ghost invariant = { λ p. p.failures ≤ 2 };
}

impl Pop3 {
    /// A session of the login process of this number, at its beginning.
    pub fn new(alloc: Global, pid: u32) -> Result<Pop3, AllocError>
        ensures { IfOk result (λ session. session ≡ fresh pid) }
    {
        Ok(Pop3 {
            alloc,
            pid,
            place: Place::AtAuth(AuthPlace::AuthVersion),
            mechanisms: Vec::new(alloc),
            cookie: None,
            name: None,
            failures: 0,
        })
    }

    /// The side whose event the session awaits.
    pub fn waits(&self) -> Side
        ensures { result ≡ side_at self.now.place }
    {
        match self.place {
            Place::AtAuth(_) => Side::Auth,
            Place::AtMaster(_) => Side::Master,
            Place::AtClient(_) => Side::Client,
            Place::Starting => Side::Mail,
            Place::Ended => Side::Over,
        }
    }

    pub(crate) fn move_to(&mut self, place: Place)
        ensures { self.new ≡ moved place self.old }
    {
        self.place = place;
    }
}
