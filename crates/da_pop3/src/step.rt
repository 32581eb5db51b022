// One step of a session.

ghost use Rattle.std.specs.Prelude.{◌≡◌};
ghost use Rattle.da_pop3.specs.State.{side_at, side_of};
ghost use Rattle.da_pop3.specs.Giving.{Gives, MayGive, MayTake, StepGives, link_line};
ghost use Rattle.da_pop3.specs.Table.{row, step, mail_started, mail_failed};

use crate::acts::{said, said_at_the_end};
use crate::event::{Act, Event, StepFault};
use crate::exchange::failure_text;
use crate::place::{AuthPlace, ClientPlace, MasterPlace, Place};
use crate::pop3::Pop3;
use crate::service::{Failure, lookup_of, opening_of, reply_of};
use da_fields::Text;
use da_msgs::texts_of;
use std::alloc::{AllocError, Global};

impl Pop3 {
    /// What comes of an event of the side awaited: the acts, in their order. `BadPeer` exactly where a line of the auth
    /// service or of its master side may not come here; then, and where memory is wanted, the session is as it was.
    pub fn step(&mut self, event: Event) -> Result<Vec<Act>, StepFault>
        requires { side_of event ≡ side_at self.old.place }
        ensures { StepGives self.old event result self.new }
    {
        match self.turn(&event) {
            Ok(Some(acts)) => Ok(acts),
            Ok(None) => Err(StepFault::BadPeer {
                line: link_line(self.alloc, event),
            }),
            Err(_) => Err(StepFault::NoMemory),
        }
    }

    fn turn(&mut self, event: &Event) -> Result<Option<Vec<Act>>, AllocError>
        ensures { MayGive (step self.old event.now) self.old result self.new }
    {
        match event {
            Event::Auth(line) => self.auth_turn(line.bytes()),
            Event::Master(line) => self.master_turn(line.bytes()),
            Event::Client(line) => self.client_turn(line.bytes()),
            Event::ClientLong => self.long_turn(),
            Event::ClientEnd => self.end_turn(),
            Event::MailUp => self.up_turn(),
            Event::MailDown => self.down_turn(),
        }
    }

    fn auth_turn(&mut self, line: &[u8]) -> Result<Option<Vec<Act>>, AllocError>
        ensures { MayGive (step self.old (Event.Auth line.now)) self.old result self.new }
    {
        let Place::AtAuth(place) = self.place else {
            return Ok(None);
        };
        let fields = texts_of(self.alloc, line)?;
        match place {
            AuthPlace::AuthVersion => {
                Ok(self.take_version(&fields, Place::AtAuth(AuthPlace::AuthOpening)))
            }
            AuthPlace::AuthOpening => {
                let opening = opening_of(self.alloc, &fields)?;
                self.take_opening(opening)
            }
            AuthPlace::Replying => match reply_of(self.alloc, &fields)? {
                Some(reply) => self.take_reply(&reply),
                None => Ok(None),
            },
        }
    }

    fn master_turn(&mut self, line: &[u8]) -> Result<Option<Vec<Act>>, AllocError>
        ensures { MayGive (step self.old (Event.Master line.now)) self.old result self.new }
    {
        let Place::AtMaster(place) = self.place else {
            return Ok(None);
        };
        let fields = texts_of(self.alloc, line)?;
        match place {
            MasterPlace::MasterVersion => {
                Ok(self.take_version(&fields, Place::AtMaster(MasterPlace::MasterOpening)))
            }
            MasterPlace::MasterOpening => Ok(Some(self.take_server(&fields)?)),
            MasterPlace::LookingUp => match lookup_of(self.alloc, &fields)? {
                Some(lookup) => self.take_lookup(lookup),
                None => Ok(None),
            },
        }
    }

    fn client_turn(&mut self, line: &[u8]) -> Result<Option<Vec<Act>>, AllocError>
        ensures { MayGive (step self.old (Event.Client line.now)) self.old result self.new }
    {
        let Place::AtClient(place) = self.place else {
            return Ok(None);
        };
        let acts = match place {
            ClientPlace::Command => self.command(line)?,
            ClientPlace::Exchange => self.answer(line)?,
            ClientPlace::LastAnswer => self.answer_last(line)?,
        };
        Ok(Some(acts))
    }

    fn long_turn(&mut self) -> Result<Option<Vec<Act>>, AllocError>
        ensures { MayGive (step self.old Event.ClientLong) self.old result self.new }
    {
        let Place::AtClient(_) = self.place else {
            return Ok(None);
        };
        Ok(Some(self.break_off()?))
    }

    fn end_turn(&mut self) -> Result<Option<Vec<Act>>, AllocError>
        ensures { MayGive (step self.old Event.ClientEnd) self.old result self.new }
    {
        let Place::AtClient(_) = self.place else {
            return Ok(None);
        };
        Ok(Some(self.leave()?))
    }

    fn up_turn(&mut self) -> Result<Option<Vec<Act>>, AllocError>
        ensures { MayGive (step self.old Event.MailUp) self.old result self.new }
    {
        let Place::Starting = self.place else {
            return Ok(None);
        };
        let acts = said(self.alloc, b"+OK Logged in.")?;
        self.move_to(Place::Ended);
        Ok(Some(acts))
    }

    fn down_turn(&mut self) -> Result<Option<Vec<Act>>, AllocError>
        ensures { MayGive (step self.old Event.MailDown) self.old result self.new }
    {
        let Place::Starting = self.place else {
            return Ok(None);
        };
        let acts = said_at_the_end(self.alloc, failure_text(Failure::Temporary))?;
        self.move_to(Place::Ended);
        Ok(Some(acts))
    }
}

// The line of a link, and no bytes for another event.
fn link_line(alloc: Global, event: Event) -> Text
    ensures { result ≡ link_line event }
{
    match event {
        Event::Auth(line) => line,
        Event::Master(line) => line,
        _ => Text::new(Vec::new(alloc)),
    }
}
