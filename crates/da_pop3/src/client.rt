// Commands of the client.

ghost use Rattle.std.specs.Prelude.{◌≡◌, IfOk};
ghost use Rattle.da_pop3.specs.Giving.{Gives};
ghost use Rattle.da_pop3.specs.Table.{unknown, quitted, capabilities, named, password_turn, auth_turn, auth_turn_with, auth_command, bare_command, command_with, command_turn};

use crate::acts::{one, said, said_at_the_end, say};
use crate::commands::{capitals, first_message, is_argument, is_first_message, is_mechanism};
use crate::event::Act;
use crate::own_lines::{auth_line, auth_line_with, plain_text, sasl_text};
use crate::place::Place;
use crate::pop3::Pop3;
use da_fields::Text;
use da_tabline::split_at_byte;
use std::alloc::AllocError;

impl Pop3 {
    /// A command: a word; or a word, a space and all that follows it.
    pub(crate) fn command(&mut self, line: &[u8]) -> Result<Vec<Act>, AllocError>
        ensures { Gives (command_turn self.old line.now) self.old result self.new }
    {
        match split_at_byte(line, b' ') {
            Some((word, argument)) => self.command_with(word, argument),
            None => self.bare_command(line),
        }
    }

    fn bare_command(&mut self, word: &[u8]) -> Result<Vec<Act>, AllocError>
        ensures { Gives (bare_command self.old word.now) self.old result self.new }
    {
        let word = capitals(self.alloc, word)?;
        if word.as_slice() == b"CAPA".as_slice() {
            self.tell_capabilities()
        } else if word.as_slice() == b"QUIT".as_slice() {
            self.quit()
        } else {
            self.refuse()
        }
    }

    fn command_with(&mut self, word: &[u8], argument: &[u8]) -> Result<Vec<Act>, AllocError>
        ensures { Gives (command_with self.old word.now argument.now) self.old result self.new }
    {
        if !is_argument(argument) {
            return self.refuse();
        }
        let word = capitals(self.alloc, word)?;
        if word.as_slice() == b"USER".as_slice() {
            self.keep_name(argument)
        } else if word.as_slice() == b"PASS".as_slice() {
            self.send_password(argument)
        } else if word.as_slice() == b"AUTH".as_slice() {
            self.begin_exchange(argument)
        } else {
            self.refuse()
        }
    }

    fn refuse(&mut self) -> Result<Vec<Act>, AllocError>
        ensures { Gives (unknown self.old) self.old result self.new }
    {
        said(self.alloc, b"-ERR Unknown command.")
    }

    fn quit(&mut self) -> Result<Vec<Act>, AllocError>
        ensures { Gives (quitted self.old) self.old result self.new }
    {
        let acts = said_at_the_end(self.alloc, b"+OK Bye.")?;
        self.move_to(Place::Ended);
        Ok(acts)
    }

    fn tell_capabilities(&mut self) -> Result<Vec<Act>, AllocError>
        ensures { Gives (capabilities self.old) self.old result self.new }
    {
        let mut acts = one(self.alloc, say(self.alloc, b"+OK")?)?;
        acts.push(say(self.alloc, b"USER")?)?;
        acts.push(say(self.alloc, &sasl_text(self.alloc, &self.mechanisms)?)?)?;
        acts.push(say(self.alloc, b".")?)?;
        Ok(acts)
    }

    fn keep_name(&mut self, name: &[u8]) -> Result<Vec<Act>, AllocError>
        ensures { Gives (named self.old name.now) self.old result self.new }
    {
        let acts = said(self.alloc, b"+OK")?;
        let name = Text::from_slice(self.alloc, name)?;
        self.name = Some(name);
        Ok(acts)
    }

    fn send_password(&mut self, password: &[u8]) -> Result<Vec<Act>, AllocError>
        ensures { Gives (password_turn self.old self.old.name password.now) self.old result self.new }
    {
        let text = match &self.name {
            Some(name) => plain_text(self.alloc, name.bytes(), password)?,
            None => return self.refuse(),
        };
        let line = auth_line_with(self.alloc, self.request_id(), b"PLAIN", &text)?;
        self.ask(line)
    }

    // AUTH with a mechanism; or with a mechanism, a space and a first message.
    fn begin_exchange(&mut self, argument: &[u8]) -> Result<Vec<Act>, AllocError>
        ensures { Gives (auth_command self.old argument.now) self.old result self.new }
    {
        match split_at_byte(argument, b' ') {
            Some((mechanism, text)) => self.begin_with(mechanism, text),
            None => self.begin(argument),
        }
    }

    fn begin(&mut self, mechanism: &[u8]) -> Result<Vec<Act>, AllocError>
        ensures { Gives (auth_turn self.old mechanism.now) self.old result self.new }
    {
        if !is_mechanism(mechanism) {
            return self.refuse();
        }
        let line = auth_line(self.alloc, self.request_id(), mechanism)?;
        self.ask(line)
    }

    fn begin_with(&mut self, mechanism: &[u8], text: &[u8]) -> Result<Vec<Act>, AllocError>
        ensures { Gives (auth_turn_with self.old mechanism.now text.now) self.old result self.new }
    {
        if !is_mechanism(mechanism) || !is_first_message(text) {
            return self.refuse();
        }
        let message = first_message(text);
        let line = auth_line_with(self.alloc, self.request_id(), mechanism, message)?;
        self.ask(line)
    }
}
