// Lines of the auth service and of its master side.

ghost use Rattle.std.specs.Prelude.{◌≡◌, Some};
ghost use Rattle.da_tabline.specs.Escapes.{line_fields};
ghost use Rattle.da_pop3.specs.ServiceLines.{opening_of, reply_of, lookup_of};
ghost use Rattle.da_pop3.specs.Giving.{Gives, MayGive, MayTake};
ghost use Rattle.da_pop3.specs.Table.{version_turn, greeted, opening_turn, server_turn, reply_turn, lookup_turn};

use crate::acts::{one, say, two};
use crate::event::Act;
use crate::own_lines::{pid_line, version_line};
use crate::place::{ClientPlace, MasterPlace, Place};
use crate::pop3::Pop3;
use crate::service::{
    Failure, Lookup, Opening, Reply, is_server, is_version, lookup_of, opening_of, reply_of,
};
use da_fields::Text;
use std::alloc::AllocError;

impl Pop3 {
    /// The version of a side, which comes first.
    pub(crate) fn take_version(&mut self, fields: &[Text], next: Place) -> Option<Vec<Act>>
        ensures { MayTake (version_turn next self.old fields.now) self.old result self.new }
    {
        if !is_version(fields) {
            return None;
        }
        self.move_to(next);
        Some(Vec::new(self.alloc))
    }

    /// A further line of the auth service's opening.
    pub(crate) fn take_opening(&mut self, opening: Opening) -> Result<Option<Vec<Act>>, AllocError>
        ensures { MayGive (opening_turn self.old opening) self.old result self.new }
    {
        match opening {
            Opening::Cookie(digits) => {
                self.cookie = Some(digits);
                Ok(Some(Vec::new(self.alloc)))
            }
            Opening::Mechanism(name) => {
                self.mechanisms.push(name)?;
                Ok(Some(Vec::new(self.alloc)))
            }
            Opening::Done => {
                if self.cookie.is_none() {
                    return Ok(None);
                }
                Ok(Some(self.greet()?))
            }
            Opening::Other => Ok(Some(Vec::new(self.alloc))),
        }
    }

    // Both lines to the auth service, whose opening is over.
    fn greet(&mut self) -> Result<Vec<Act>, AllocError>
        ensures { Gives (greeted self.old) self.old result self.new }
    {
        let version = version_line(self.alloc)?;
        let pid = pid_line(self.alloc, self.pid)?;
        let acts = two(self.alloc, Act::ToAuth(version), Act::ToAuth(pid))?;
        self.move_to(Place::AtMaster(MasterPlace::MasterVersion));
        Ok(acts)
    }

    /// A further line of the master side's opening.
    pub(crate) fn take_server(&mut self, fields: &[Text]) -> Result<Vec<Act>, AllocError>
        ensures { Gives (server_turn self.old fields.now) self.old result self.new }
    {
        if !is_server(fields) {
            return Ok(Vec::new(self.alloc));
        }
        let version = version_line(self.alloc)?;
        let ready = say(self.alloc, b"+OK dauth ready.")?;
        let acts = two(self.alloc, Act::ToMaster(version), ready)?;
        self.move_to(Place::AtClient(ClientPlace::Command));
        Ok(acts)
    }

    /// What the auth service says of the login under way.
    pub(crate) fn take_reply(&mut self, reply: &Reply) -> Result<Option<Vec<Act>>, AllocError>
        ensures { MayGive (reply_turn self.old (Some reply.now)) self.old result self.new }
    {
        let current = self.request_id();
        match reply {
            Reply::Challenge { id, text } => {
                if *id != current {
                    return Ok(None);
                }
                let place = Place::AtClient(ClientPlace::Exchange);
                Ok(Some(self.challenge(place, text.bytes())?))
            }
            Reply::Refusal { id, failure } => {
                if *id < current {
                    return Ok(Some(Vec::new(self.alloc)));
                }
                if *id != current {
                    return Ok(None);
                }
                Ok(Some(self.fail_at_once(*failure)?))
            }
            Reply::Success { id, last } => {
                if *id != current {
                    return Ok(None);
                }
                Ok(Some(self.accept(last)?))
            }
        }
    }

    /// What the master side says of the request under way.
    pub(crate) fn take_lookup(&mut self, lookup: Lookup) -> Result<Option<Vec<Act>>, AllocError>
        ensures { MayGive (lookup_turn self.old (Some lookup)) self.old result self.new }
    {
        let current = self.request_id();
        match lookup {
            Lookup::Found { id, user, fields } => {
                if id != current {
                    return Ok(None);
                }
                let acts = one(self.alloc, Act::Start { user, fields })?;
                self.move_to(Place::Starting);
                Ok(Some(acts))
            }
            Lookup::Missing { id } => {
                if id != current {
                    return Ok(None);
                }
                Ok(Some(self.fail_at_once(Failure::Temporary)?))
            }
        }
    }
}
