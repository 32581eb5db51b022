// The requests of the server, and changes of them.

ghost use Rattle.std.specs.List.{list_any};
ghost use Rattle.std.specs.Prelude.{◌≡◌, ◌<◌, ◌^◌, ◌-◌, ◌&&◌, ◌==◌, length, OnOk, ◌++◌, ◌∷◌, [], map};
ghost use Rattle.da_base.specs.Words.{number_where, count_where, changed_nth, nth, passes_option};
ghost use Rattle.da_request.specs.Requests.{is_of, is_pending, with_text, is_granted_for, replied_if_due, timed_out_if_over, with_decision, is_undecided, with_answer, with_late_answer, cancelled, as_cancelled_of};

use da_fields::{Answer, Text};
use da_request::{Request, add_answer, add_late_answer, row, row_index};
use da_settings::Settings;
use std::alloc::{AllocError, Global};
use std::marker::Model;

/// Requests, the first at number 1.
#[derive(Drop)]
pub struct Requests {
    pub(crate) items: Vec<Request>,
}

impl Model for Requests {
    ghost use Rattle.std.specs.Prelude.{List};
    ghost use Rattle.da_request.specs.declared.request.Request.{Request};

    ghost Value = { List Request };

    ghost view = { λ t. t.items.items };
}

impl Requests {
    /// All of them, in order.
    pub fn all(&self) -> &[Request]
        ensures { result.now ≡ self.now }
    {
        &self.items
    }

    /// The requests whose replies are due at this moment are replied now.
    pub fn reply_due(
        &mut self,
        alloc: Global,
        settings: &Settings,
        moment: u64,
    ) -> Result<(), AllocError>
        ensures { OnOk result (self.new ≡ map (replied_if_due settings.now moment) self.old) }
    {
        reply_all_due(&mut self.items, alloc, settings, moment)
    }

    /// The requests whose limit is reached at this moment are timed out now.
    pub fn time_out(&mut self, settings: &Settings, moment: u64)
        ensures { self.new ≡ map (timed_out_if_over settings.now moment) self.old }
    {
        time_all_out(&mut self.items, settings, moment);
    }

    pub(crate) fn cancel_of(&mut self, conn: u32)
        ensures { self.new ≡ map (as_cancelled_of conn) self.old }
    {
        cancel_all_of(&mut self.items, conn);
    }
}

/// The number of the request that the connection calls by this id, or 0.
pub fn number_called(requests: &[Request], conn: u32, id: u32) -> u32
    requires { length requests.now < 2 ^ 32 - 1 }
    ensures { result ≡ number_where (λ r. is_of conn r && (r.id == id)) requests.now }
{
    let mut before: u32 = 0;
    for request in requests {
        if request.is_called(conn, id) {
            return before + 1;
        }
        before += 1;
    }
    0
}

/// How many requests of the connection are open.
pub fn pending_count(requests: &[Request], conn: u32) -> usize
    ensures { result ≡ count_where (λ r. is_of conn r && is_pending r) requests.now }
{
    requests
        .iter()
        .filter(|request| request.is_pending_of(conn))
        .count()
}

pub(crate) fn push_text(requests: &mut [Request], number: u32, text: Text) -> Result<(), AllocError>
    ensures { OnOk result (requests.new ≡ changed_nth (with_text text) requests.old number) }
{
    if number > 0 && number as usize <= requests.len() {
        let request = &mut requests[number as usize - 1];
        request.push_text(text)?;
    }
    Ok(())
}

/// Whether a lookup was granted for the request of this number.
pub fn some_is_granted_for(requests: &[Request], number: u32) -> bool
    ensures { result ≡ list_any (λ q. is_granted_for number q.body) requests.now }
{
    requests
        .iter()
        .any(|request| request.is_granted_for(number))
}

fn reply_all_due(
    requests: &mut [Request],
    alloc: Global,
    settings: &Settings,
    moment: u64,
) -> Result<(), AllocError>
    ensures { OnOk result (requests.new ≡ map (replied_if_due settings.now moment) requests.old) }
{
    for request in requests.iter_mut() {
        request.reply_if_due(alloc, settings, moment)?;
    }
    Ok(())
}

fn time_all_out(requests: &mut [Request], settings: &Settings, moment: u64)
    ensures { requests.new ≡ map (timed_out_if_over settings.now moment) requests.old }
{
    for request in requests.iter_mut() {
        request.time_out_if_over(settings, moment);
    }
}

pub(crate) fn decide_row(
    requests: &mut [Request],
    alloc: Global,
    settings: &Settings,
    moment: u64,
    number: u32,
) -> Result<(), AllocError>
    ensures { OnOk result (requests.new ≡ changed_nth (with_decision settings.now moment) requests.old number) }
{
    if number > 0 && number as usize <= requests.len() {
        let request = &mut requests[number as usize - 1];
        request.decide(alloc, settings, moment)?;
    }
    Ok(())
}

/// Whether the request of this number is there, open and not decided.
pub fn is_undecided_in(requests: &[Request], number: u32) -> bool
    ensures { result ≡ passes_option is_undecided (nth requests.now number) }
{
    match row(requests, number) {
        Some(request) => request.is_undecided(),
        None => false,
    }
}

/// The request of this number has this answer under its database.
pub fn answer_in_row(
    requests: &mut Requests,
    number: u32,
    db: u32,
    answer: Answer,
) -> Result<(), AllocError>
    ensures { OnOk result (requests.new ≡ changed_nth (with_answer db answer) requests.old number) }
{
    let Some(index) = row_index(&requests.items, number) else {
        return Ok(());
    };
    let request = &mut requests.items[index];
    add_answer(request, db, answer)
}

/// A request of this number that isn't decided, or was timed out, has this answer under its database.
pub fn late_answer_in_row(
    requests: &mut Requests,
    number: u32,
    db: u32,
    answer: Answer,
) -> Result<(), AllocError>
    ensures { OnOk result (requests.new ≡ changed_nth (with_late_answer db answer) requests.old number) }
{
    let Some(index) = row_index(&requests.items, number) else {
        return Ok(());
    };
    let request = &mut requests.items[index];
    add_late_answer(request, db, answer)
}

pub(crate) fn cancel(requests: &mut [Request], number: u32)
    ensures { requests.new ≡ changed_nth cancelled requests.old number }
{
    if number > 0 && number as usize <= requests.len() {
        requests[number as usize - 1].is_cancelled = true;
    }
}

fn cancel_of(request: &mut Request, conn: u32)
    ensures { request.new ≡ as_cancelled_of conn request.old }
{
    if request.conn == conn {
        request.is_cancelled = true;
    }
}

fn cancel_all_of(requests: &mut [Request], conn: u32)
    ensures { requests.new ≡ map (as_cancelled_of conn) requests.old }
{
    for request in requests.iter_mut() {
        cancel_of(request, conn);
    }
}
