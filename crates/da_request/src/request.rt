// A request: what it is for, what was said and answered, and whether it is open.

ghost use Rattle.std.specs.Prelude.{◌≡◌, ◌<◌, ◌^◌, ◌-◌, ◌&&◌, ◌==◌, IfOk, OnOk, ◌∷◌};
ghost use Rattle.da_base.specs.Words.{passes_option};
ghost use Rattle.da_request.specs.Requests.{is_of, is_pending, is_undecided, is_awaiting, decision, is_login_success, is_granted_for, with_text, new_request, with_answer, with_late_answer};

use crate::stages::{Decision, Stage};
use da_fields::{Answer, Fields, Text};
use da_settings::{Settings, Texts};
use da_userdb::Lookup;
use std::alloc::{AllocError, Global};
use std::marker::Model;

/// Whom a master's request was granted: for which request of a client, and what is looked up.
#[derive(Drop)]
pub struct Grant {
    pub request: u32,
    pub lookup: Lookup,
}

/// What a request is for.
#[derive(Drop)]
pub enum Body {
    /// A client authenticates: the mechanism's name, the parameters, the text of `resp=` and those of its `CONT` lines.
    Authenticates {
        mech: Text,
        params: Fields,
        resp: Option<Text>,
        texts: Texts,
    },
    /// A master looks a user up, where that is granted.
    LooksUp(Option<Grant>),
}

/// What is known of a request.
#[derive(Drop)]
pub struct Request {
    pub conn: u32,
    pub id: u32,
    pub random: [u8; 16],
    /// The moment at which it was accepted.
    pub start: u64,
    pub body: Body,
    /// The answers of its own queries and its hits, each under its database.
    pub answers: Answers,
    pub is_cancelled: bool,
    /// Its limit came before a decision, and so decided it.
    pub is_timed_out: bool,
    /// The moment at which it was decided, and the one at which it was replied.
    pub decided: Option<u64>,
    pub replied: Option<u64>,
}

/// Answers, each under its database's number.
#[derive(Drop)]
pub struct Answers {
    pub(crate) items: Vec<(u32, Answer)>,
}

impl Model for Answers {
    ghost use Rattle.std.specs.Prelude.{List, ℕ};
    ghost use Rattle.da_fields.specs.declared.answer.Answer.{Answer};

    ghost Value = { List (ℕ × Answer) };

    ghost view = { λ t. t.items.items };
}

impl Answers {
    /// All of them, in the order in which they came.
    pub fn all(&self) -> &[(u32, Answer)]
        ensures { result.now ≡ self.now }
    {
        &self.items
    }
}

impl Request {
    /// Whether the connection calls it by this id.
    pub fn is_called(&self, conn: u32, id: u32) -> bool
        ensures { result ≡ is_of conn self.now && (self.now.id == id) }
    {
        self.conn == conn && self.id == id
    }

    /// Whether it is open: neither cancelled nor replied.
    pub fn is_pending(&self) -> bool
        ensures { result ≡ is_pending self.now }
    {
        !self.is_cancelled && self.replied.is_none()
    }

    /// Whether it is an open request of this connection.
    pub fn is_pending_of(&self, conn: u32) -> bool
        ensures { result ≡ is_of conn self.now && is_pending self.now }
    {
        self.conn == conn && self.is_pending()
    }

    /// Whether it is open, and not decided.
    pub fn is_undecided(&self) -> bool
        ensures { result ≡ is_undecided self.now }
    {
        self.is_pending() && self.decided.is_none()
    }

    /// Whether it awaits a message of the client.
    pub fn is_awaiting(&self, alloc: Global, settings: &Settings) -> Result<bool, AllocError>
        ensures { IfOk result (λ awaiting. awaiting ≡ is_awaiting settings.now self.now) }
    {
        if !self.is_undecided() {
            return Ok(false);
        }
        match self.stage(alloc, settings)? {
            Stage::Awaits(_) => Ok(true),
            _ => Ok(false),
        }
    }

    /// Whether its decision is that a login succeeded.
    pub fn has_succeeded(&self, alloc: Global, settings: &Settings) -> Result<bool, AllocError>
        ensures { IfOk result (λ success. success ≡ passes_option is_login_success (decision settings.now self.now)) }
    {
        match self.decision(alloc, settings)? {
            Some(Decision::Success { .. }) => Ok(true),
            _ => Ok(false),
        }
    }

    /// Whether it is a lookup that was granted for the request of this number.
    pub fn is_granted_for(&self, number: u32) -> bool
        ensures { result ≡ is_granted_for number self.now.body }
    {
        match &self.body {
            Body::LooksUp(Some(grant)) => grant.request == number,
            _ => false,
        }
    }

    /// The next message of the client.
    pub fn push_text(&mut self, text: Text) -> Result<(), AllocError>
        ensures { OnOk result (self.new ≡ with_text text self.old) }
    {
        match &mut self.body {
            Body::Authenticates { texts, .. } => texts.push(text),
            Body::LooksUp(_) => Ok(()),
        }
    }
}

/// A request that was accepted at this moment, before anything is known of it.
pub fn new_request(
    alloc: Global,
    moment: u64,
    conn: u32,
    id: u32,
    random: &[u8; 16],
    body: Body,
) -> Request
    ensures { result ≡ new_request moment conn id random.now body }
{
    Request {
        conn,
        id,
        random: *random,
        start: moment,
        body,
        answers: Answers {
            items: Vec::new(alloc),
        },
        is_cancelled: false,
        is_timed_out: false,
        decided: None,
        replied: None,
    }
}

/// The request has this answer under its database.
pub fn add_answer(request: &mut Request, db: u32, answer: Answer) -> Result<(), AllocError>
    ensures { OnOk result (request.new ≡ with_answer db answer request.old) }
{
    request.answers.items.push((db, answer))?;
    Ok(())
}

/// A request that isn't decided, or was timed out, has this answer under its database.
pub fn add_late_answer(request: &mut Request, db: u32, answer: Answer) -> Result<(), AllocError>
    ensures { OnOk result (request.new ≡ with_late_answer db answer request.old) }
{
    if request.decided.is_some() && !request.is_timed_out {
        return Ok(());
    }
    add_answer(request, db, answer)
}
