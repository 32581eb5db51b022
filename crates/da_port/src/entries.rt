// The calls that make an entry each, or none where they are refused.

ghost use Rattle.std.specs.Prelude.{◌≡◌, ⊤, Some, IfOk, IfErr, is_none};
ghost use Rattle.da_turn.specs.Seats.{IsOf, IsFree, seen};
ghost use Rattle.da_play.specs.History.{tables_of};
ghost use Rattle.da_play.specs.declared.input.Input.TheVariants.{Answered, Broken, Gone, Late, Line, Opened, Tick};
ghost use Rattle.da_port.specs.Bridges.{no_query};
ghost use Rattle.da_port.specs.Calls.{Answers, Refuses, Stays, TakesQuery};
ghost use Rattle.da_tables.specs.Tables.{is_open_in};

use crate::port::Port;
use crate::shared::Seat;
use da_fields::{Answer, Query, Text};
use da_msgs::ConnKind;
use da_play::{Input, Refused};
use std::sync::Wait;

// What a Take that is refused comes to for whoever asked for a query.
fn no_query(refused: Refused) -> Result<Option<Query>, Refused>
    ensures { result ≡ no_query refused }
{
    if refused == Refused::NothingWaits {
        return Ok(None);
    }
    Err(refused)
}

impl Port {
    /// Opens a connection, and answers its number.
    pub fn connect<R: Wait>(
        &self,
        rt: &R,
        seat: &mut Seat,
        moment: u64,
        kind: ConnKind,
        random: [u8; 16],
    ) -> Result<u32, Refused>
        requires own { IsOf self.now seat.old × IsFree seat.old }
        ensures seat { Stays seat.old seat.new }
        ensures ok { IfOk result (λ conn. Answers self.now.fixed seat.old seat.new moment (Opened kind random) (λ out. out.conn ≡ Some conn)) }
        ensures err { IfErr result (λ refused. Refuses self.now.fixed seat.old seat.new moment (Opened kind random) refused) }
    {
        let out = self.enter(rt, seat, moment, Input::Opened { kind, random }, None)?;
        let Some(conn) = out.conn else { unreachable!() };
        Ok(conn)
    }

    /// Records a line of a connection, and answers whether the connection is still open.
    pub fn line<R: Wait>(
        &self,
        rt: &R,
        seat: &mut Seat,
        moment: u64,
        conn: u32,
        text: Text,
        random: [u8; 16],
    ) -> Result<bool, Refused>
        requires own { IsOf self.now seat.old × IsFree seat.old }
        ensures seat { Stays seat.old seat.new }
        ensures ok { IfOk result (λ is_open. Answers self.now.fixed seat.old seat.new moment (Line conn text random) (λ out. is_open ≡ is_none out.closed)) }
        ensures open { IfOk result (λ is_open. is_open ≡ is_open_in (tables_of self.now.fixed.settings (seen seat.new)) conn) }
        ensures err { IfErr result (λ refused. Refuses self.now.fixed seat.old seat.new moment (Line conn text random) refused) }
    {
        let is_open = self.line_quietly(rt, seat, moment, conn, text, random);
        self.wake_lines(conn);
        is_open
    }

    /// As `line`, but whoever waits for lines of this connection is left asleep: a reader that has more of its lines at
    /// hand calls `wake_lines` after the last of them.
    pub fn line_quietly<R: Wait>(
        &self,
        rt: &R,
        seat: &mut Seat,
        moment: u64,
        conn: u32,
        text: Text,
        random: [u8; 16],
    ) -> Result<bool, Refused>
        requires own { IsOf self.now seat.old × IsFree seat.old }
        ensures seat { Stays seat.old seat.new }
        ensures ok { IfOk result (λ is_open. Answers self.now.fixed seat.old seat.new moment (Line conn text random) (λ out. is_open ≡ is_none out.closed)) }
        ensures open { IfOk result (λ is_open. is_open ≡ is_open_in (tables_of self.now.fixed.settings (seen seat.new)) conn) }
        ensures err { IfErr result (λ refused. Refuses self.now.fixed seat.old seat.new moment (Line conn text random) refused) }
    {
        let input = Input::Line { conn, text, random };
        let out = self.enter(rt, seat, moment, input, Some(conn))?;
        Ok(out.closed.is_none())
    }

    /// Records that a connection sent a line that is too long. The server closes the connection.
    pub fn broken<R: Wait>(
        &self,
        rt: &R,
        seat: &mut Seat,
        moment: u64,
        conn: u32,
    ) -> Result<(), Refused>
        requires own { IsOf self.now seat.old × IsFree seat.old }
        ensures seat { Stays seat.old seat.new }
        ensures ok { IfOk result (λ _. Answers self.now.fixed seat.old seat.new moment (Broken conn) (λ _. ⊤)) }
        ensures err { IfErr result (λ refused. Refuses self.now.fixed seat.old seat.new moment (Broken conn) refused) }
    {
        self.enter(rt, seat, moment, Input::Broken { conn }, None)?;
        Ok(())
    }

    /// Records that a connection ended.
    pub fn gone<R: Wait>(
        &self,
        rt: &R,
        seat: &mut Seat,
        moment: u64,
        conn: u32,
    ) -> Result<(), Refused>
        requires own { IsOf self.now seat.old × IsFree seat.old }
        ensures seat { Stays seat.old seat.new }
        ensures ok { IfOk result (λ _. Answers self.now.fixed seat.old seat.new moment (Gone conn) (λ _. ⊤)) }
        ensures err { IfErr result (λ refused. Refuses self.now.fixed seat.old seat.new moment (Gone conn) refused) }
    {
        self.enter(rt, seat, moment, Input::Gone { conn }, None)?;
        Ok(())
    }

    /// Takes the first query that waits. `None` exactly where none waits and the history isn't full.
    pub fn take_query<R: Wait>(
        &self,
        rt: &R,
        seat: &mut Seat,
        moment: u64,
    ) -> Result<Option<Query>, Refused>
        requires own { IsOf self.now seat.old × IsFree seat.old }
        ensures seat { Stays seat.old seat.new }
        ensures taken { TakesQuery self.now.fixed seat.old seat.new moment result }
    {
        match self.enter(rt, seat, moment, Input::Take, None) {
            Ok(out) => Ok(out.query),
            Err(refused) => no_query(refused),
        }
    }

    /// Records the answer to a query that was taken.
    pub fn answer<R: Wait>(
        &self,
        rt: &R,
        seat: &mut Seat,
        moment: u64,
        query: u32,
        answer: Answer,
    ) -> Result<(), Refused>
        requires own { IsOf self.now seat.old × IsFree seat.old }
        ensures seat { Stays seat.old seat.new }
        ensures ok { IfOk result (λ _. Answers self.now.fixed seat.old seat.new moment (Answered query answer) (λ _. ⊤)) }
        ensures err { IfErr result (λ refused. Refuses self.now.fixed seat.old seat.new moment (Answered query answer) refused) }
    {
        self.enter(rt, seat, moment, Input::Answered { query, answer }, None)?;
        Ok(())
    }

    /// Records that a query that was taken is answered too late.
    pub fn late<R: Wait>(
        &self,
        rt: &R,
        seat: &mut Seat,
        moment: u64,
        query: u32,
    ) -> Result<(), Refused>
        requires own { IsOf self.now seat.old × IsFree seat.old }
        ensures seat { Stays seat.old seat.new }
        ensures ok { IfOk result (λ _. Answers self.now.fixed seat.old seat.new moment (Late query) (λ _. ⊤)) }
        ensures err { IfErr result (λ refused. Refuses self.now.fixed seat.old seat.new moment (Late query) refused) }
    {
        self.enter(rt, seat, moment, Input::Late { query }, None)?;
        Ok(())
    }

    /// Lets time pass.
    pub fn moment<R: Wait>(&self, rt: &R, seat: &mut Seat, moment: u64) -> Result<(), Refused>
        requires own { IsOf self.now seat.old × IsFree seat.old }
        ensures seat { Stays seat.old seat.new }
        ensures ok { IfOk result (λ _. Answers self.now.fixed seat.old seat.new moment Tick (λ _. ⊤)) }
        ensures err { IfErr result (λ refused. Refuses self.now.fixed seat.old seat.new moment Tick refused) }
    {
        self.enter(rt, seat, moment, Input::Tick, None)?;
        Ok(())
    }
}
