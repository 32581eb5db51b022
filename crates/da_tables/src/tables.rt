// The tables of the server: what is known of connections, requests and queries at the end of a history.

ghost use Rattle.std.specs.Prelude.{◌≡◌, ◌<◌, ◌^◌, ◌-◌, OnOk, length, IfOk, ◌++◌, ◌∷◌, [], None, false, true, option_map};
ghost use Rattle.da_base.specs.Words.{hex, nth};
ghost use Rattle.da_request.specs.Requests.{with_text, with_decision, cancelled};
ghost use Rattle.da_tables.specs.Bridges.{with_effect};
ghost use Rattle.da_tables.specs.Connections.{is_used, with_version, with_pid};
ghost use Rattle.da_tables.specs.Queries.{as_taken};
ghost use Rattle.da_tables.specs.Tables.{with_request, continuing_new, with_due_replied, with_timed_out, with_query, at_start, with_end, with_connection};

use crate::connections::{Connection, Connections, set_pid, set_version};
use crate::input_effect::InputEffect;
use crate::keys::Keys;
use crate::numbers::Numbers;
use crate::queries::{Queries, QueryRow, take_row};
use crate::requests::{Requests, cancel, decide_row, push_text, some_is_granted_for};
use da_fields::Text;
use da_msgs::ConnKind;
use da_request::{Request, row};
use da_settings::Settings;
use da_tabline::hex_digits;
use std::alloc::{AllocError, Global};

/// The tables at the end of a history.
#[derive(Drop)]
pub struct Tables {
    pub connections: Connections,
    pub requests: Requests,
    pub queries: Queries,
    /// The queries whose answers were recorded and may be kept, the last first.
    pub cacheable: Numbers,
    /// The keys of the cache, the most recent first.
    pub keys: Keys,
}

impl Tables {
    /// Whether a lookup was granted for the request of this number.
    pub fn is_used(&self, number: u32) -> bool
        ensures { result ≡ is_used self.now number }
    {
        some_is_granted_for(&self.requests.items, number)
    }

    /// The request of this number has one message of its client more.
    pub fn push_text(&mut self, number: u32, text: Text) -> Result<(), AllocError>
        ensures { OnOk result (self.new ≡ with_request (with_text text) number self.old) }
    {
        push_text(&mut self.requests.items, number, text)
    }

    /// A new request, which is the one that continues.
    pub fn add_request(&mut self, request: Request) -> Result<InputEffect, AllocError>
        requires { length self.old.requests < 2 ^ 32 - 1 }
        ensures { IfOk result (λ h. with_effect self.new h ≡ continuing_new request self.old) }
    {
        let number = self.requests.items.len() as u32 + 1;
        self.requests.items.push(request)?;
        Ok(InputEffect::continuing(number))
    }

    /// The requests whose limit is reached are timed out.
    #[tactic(auto, unfolding(crate::specs::Tables::with_timed_out))]
    pub fn time_out(&mut self, settings: &Settings, moment: u64)
        ensures { self.new ≡ with_timed_out settings.now moment self.old }
    {
        self.requests.time_out(settings, moment);
    }

    /// The replies that are due are given.
    #[tactic(auto, unfolding(crate::specs::Tables::with_due_replied))]
    pub fn reply_due(
        &mut self,
        alloc: Global,
        settings: &Settings,
        moment: u64,
    ) -> Result<(), AllocError>
        ensures { OnOk result (self.new ≡ with_due_replied settings.now moment self.old) }
    {
        self.requests.reply_due(alloc, settings, moment)
    }

    /// One connection more, which is open and has told nothing of itself.
    pub fn push_connection(
        &mut self,
        alloc: Global,
        kind: ConnKind,
        random: &[u8; 16],
    ) -> Result<(), AllocError>
        ensures { OnOk result (self.new ≡ record self.old { connections = self.old.connections ++ record { kind = kind; cookie = hex random.now; minor = None; pid = None; is_open = true } ∷ [] }) }
    {
        let cookie = Text::new(hex_digits(alloc, random)?);
        self.connections.items.push(Connection {
            kind,
            cookie,
            minor: None,
            pid: None,
            is_open: true,
        })?;
        Ok(())
    }

    /// The query of this number is handed out at this moment.
    pub fn take(&mut self, moment: u64, number: u32)
        ensures { self.new ≡ with_query (as_taken moment) number self.old }
    {
        take_row(&mut self.queries.items, moment, number);
    }

    /// The request of this number is decided at this moment, and replied where that is due at once.
    pub fn decide(
        &mut self,
        alloc: Global,
        settings: &Settings,
        moment: u64,
        number: u32,
    ) -> Result<(), AllocError>
        ensures { OnOk result (self.new ≡ with_request (with_decision settings.now moment) number self.old) }
    {
        decide_row(&mut self.requests.items, alloc, settings, moment, number)
    }

    /// The tables before any entry. They take no memory.
    pub fn new(alloc: Global) -> Tables
        ensures { result ≡ at_start }
    {
        Tables {
            connections: Connections {
                items: Vec::new(alloc),
            },
            requests: Requests {
                items: Vec::new(alloc),
            },
            queries: Queries {
                items: Vec::new(alloc),
            },
            cacheable: Numbers::new(Vec::new(alloc)),
            keys: Keys {
                items: Vec::new(alloc),
            },
        }
    }

    /// The connection of this number. `None` exactly where there is none.
    pub fn connection(&self, number: u32) -> Option<&Connection>
        ensures { option_map (λ c. c.now) result ≡ nth self.now.connections number }
    {
        row(&self.connections.items, number)
    }

    /// The request of this number. `None` exactly where there is none.
    pub fn request(&self, number: u32) -> Option<&Request>
        ensures { option_map (λ r. r.now) result ≡ nth self.now.requests number }
    {
        row(&self.requests.items, number)
    }

    /// The query of this number. `None` exactly where there is none.
    pub fn query(&self, number: u32) -> Option<&QueryRow>
        ensures { option_map (λ q. q.now) result ≡ nth self.now.queries number }
    {
        row(&self.queries.items, number)
    }

    /// The end of a connection cancels its requests.
    #[tactic(auto, unfolding(crate::specs::Tables::with_end))]
    pub fn end(&mut self, conn: u32)
        ensures { self.new ≡ with_end conn self.old }
    {
        self.connections.close(conn);
        self.requests.cancel_of(conn);
    }

    /// The connection sent its version, of this minor.
    pub fn set_version(&mut self, conn: u32, minor: u32)
        ensures { self.new ≡ with_connection (with_version minor) conn self.old }
    {
        set_version(&mut self.connections.items, conn, minor);
    }

    /// The client of the connection sent its process number.
    pub fn set_pid(&mut self, conn: u32, pid: u32)
        ensures { self.new ≡ with_connection (with_pid pid) conn self.old }
    {
        set_pid(&mut self.connections.items, conn, pid);
    }

    /// The request of this number is cancelled.
    pub fn cancel(&mut self, number: u32)
        ensures { self.new ≡ with_request cancelled number self.old }
    {
        cancel(&mut self.requests.items, number);
    }
}
