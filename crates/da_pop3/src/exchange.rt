// Exchanges of the client with the auth service, and how they end.

ghost use Rattle.std.specs.Prelude.{◌≡◌, [], IfOk};
ghost use Rattle.da_pop3.specs.State.{request_id};
ghost use Rattle.da_pop3.specs.Giving.{Gives};
ghost use Rattle.da_pop3.specs.Table.{failed, failure_text, cancelled, too_long, left, asked, exchange_turn, own_request, requested, last_answer_turn, challenged, accepted};

use crate::acts::{one, said, said_at_the_end, say};
use crate::commands::is_base64;
use crate::event::Act;
use crate::own_lines::{cancel_line, cont_line, request_line};
use crate::place::{AuthPlace, ClientPlace, MasterPlace, Place};
use crate::pop3::Pop3;
use crate::service::Failure;
use da_fields::Text;
use da_tabline::LONGEST_LINE;
use std::alloc::{AllocError, Global};

// How many failures a session may have and go on.
const MOST_FAILURES: u32 = 2;

pub(crate) fn failure_text(failure: Failure) -> &'static [u8]
    ensures { result.now ≡ failure_text failure }
{
    match failure {
        Failure::Credentials => b"-ERR [AUTH] Authentication failed.",
        Failure::Temporary => b"-ERR [SYS/TEMP] Temporary failure.",
    }
}

impl Pop3 {
    /// The id of the AUTH under way, or of the next one.
    pub(crate) fn request_id(&self) -> u32
        ensures { result ≡ request_id self.now }
    {
        self.failures + 1
    }

    /// A failure to log in, after these acts. The third one ends the session.
    pub(crate) fn fail(
        &mut self,
        failure: Failure,
        before: Vec<Act>,
    ) -> Result<Vec<Act>, AllocError>
        ensures { Gives (failed (failure_text failure) before.items self.old) self.old result self.new }
    {
        let mut acts = before;
        acts.push(say(self.alloc, failure_text(failure))?)?;
        if self.failures == MOST_FAILURES {
            acts.push(Act::End)?;
            self.place = Place::Ended;
        } else {
            self.failures += 1;
            self.place = Place::AtClient(ClientPlace::Command);
        }
        Ok(acts)
    }

    /// A failure to log in, and nothing before it.
    pub(crate) fn fail_at_once(&mut self, failure: Failure) -> Result<Vec<Act>, AllocError>
        ensures { Gives (failed (failure_text failure) [] self.old) self.old result self.new }
    {
        let none = Vec::new(self.alloc);
        self.fail(failure, none)
    }

    fn cancel(&mut self) -> Result<Vec<Act>, AllocError>
        ensures { Gives (cancelled self.old) self.old result self.new }
    {
        let line = cancel_line(self.alloc, self.request_id())?;
        let acts = one(self.alloc, Act::ToAuth(line))?;
        self.fail(Failure::Credentials, acts)
    }

    /// A line of the client is too long, or what would be sent for it.
    pub(crate) fn break_off(&mut self) -> Result<Vec<Act>, AllocError>
        ensures { Gives (too_long self.old) self.old result self.new }
    {
        let acts = said_at_the_end(self.alloc, b"-ERR Line too long.")?;
        self.move_to(Place::Ended);
        Ok(acts)
    }

    /// The client sends nothing more.
    pub(crate) fn leave(&mut self) -> Result<Vec<Act>, AllocError>
        ensures { Gives (left self.old) self.old result self.new }
    {
        let acts = one(self.alloc, Act::End)?;
        self.move_to(Place::Ended);
        Ok(acts)
    }

    /// Sends a line to the auth service, if it is one.
    pub(crate) fn ask(&mut self, line: Vec<u8>) -> Result<Vec<Act>, AllocError>
        ensures { Gives (asked self.old line.items) self.old result self.new }
    {
        if line.len() > LONGEST_LINE {
            return self.break_off();
        }
        let acts = one(self.alloc, Act::ToAuth(Text::new(line)))?;
        self.move_to(Place::AtAuth(AuthPlace::Replying));
        Ok(acts)
    }

    /// The client's answer to a challenge.
    pub(crate) fn answer(&mut self, line: &[u8]) -> Result<Vec<Act>, AllocError>
        ensures { Gives (exchange_turn self.old line.now) self.old result self.new }
    {
        if line == b"*".as_slice() || !is_base64(line) {
            return self.cancel();
        }
        let sent = cont_line(self.alloc, self.request_id(), line)?;
        self.ask(sent)
    }

    /// Asks the master side for the user.
    fn request(&mut self) -> Result<Vec<Act>, AllocError>
        ensures { Gives (requested self.old) self.old result self.new }
    {
        let line = self.request_line()?;
        let acts = one(self.alloc, Act::ToMaster(line))?;
        self.move_to(Place::AtMaster(MasterPlace::LookingUp));
        Ok(acts)
    }

    fn request_line(&self) -> Result<Text, AllocError>
        ensures { IfOk result (λ line. line ≡ own_request self.now) }
    {
        let cookie = match &self.cookie {
            Some(cookie) => cookie.bytes(),
            None => b"",
        };
        request_line(self.alloc, self.request_id(), self.pid, cookie)
    }

    /// The client's answer to the last message.
    pub(crate) fn answer_last(&mut self, line: &[u8]) -> Result<Vec<Act>, AllocError>
        ensures { Gives (last_answer_turn self.old line.now) self.old result self.new }
    {
        if line.is_empty() {
            self.request()
        } else {
            self.cancel()
        }
    }

    /// A message of the auth service for the client.
    pub(crate) fn challenge(&mut self, place: Place, text: &[u8]) -> Result<Vec<Act>, AllocError>
        ensures { Gives (challenged place text.now self.old) self.old result self.new }
    {
        let mut line = Vec::from_slice(self.alloc, b"+ ")?;
        line.extend_from_slice(text)?;
        let acts = said(self.alloc, &line)?;
        self.move_to(place);
        Ok(acts)
    }

    /// The auth service authenticated the client, possibly with a last message.
    pub(crate) fn accept(&mut self, last: &Option<Text>) -> Result<Vec<Act>, AllocError>
        ensures { Gives (accepted self.old last.now) self.old result self.new }
    {
        match last {
            None => self.request(),
            Some(text) => self.challenge(Place::AtClient(ClientPlace::LastAnswer), text.bytes()),
        }
    }
}
