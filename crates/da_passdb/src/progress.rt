// The state of a chain.

ghost use Rattle.std.specs.Prelude.{◌≡◌, IfOk};
ghost use Rattle.da_passdb.specs.LoginChain.{Ended, by_rule, ended, is_expired, no_progress};
ghost use Rattle.da_passdb.specs.Places.{are_masters, course_move, JumpsFrom};

use crate::chain::VerdictKind;
use crate::part::Part;
use da_fields::{Fields, Rule};
use da_schemes::Stored;
use std::alloc::{AllocError, Global};

/// What a chain does after a database.
#[derive(Clone, Copy, Drop)]
pub(crate) enum Course {
    /// It goes on to the next database of its part.
    GoesOn,
    /// It ends.
    Ends(VerdictKind),
    /// It goes on to the first database that authenticates users.
    Jumps,
}

/// The state of a chain.
#[derive(Drop)]
pub(crate) struct Progress {
    pub(crate) success: bool,
    /// A password has been checked.
    pub(crate) checked: bool,
    /// A database gave no answer.
    pub(crate) internal: bool,
    pub(crate) fields: Fields,
    pub(crate) credentials: Option<Stored>,
}

impl Progress {
    /// The state before the first database.
    pub(crate) fn new(alloc: Global) -> Progress
        ensures { result ≡ no_progress }
    {
        Progress {
            success: false,
            checked: false,
            internal: false,
            fields: Fields::new(alloc),
            credentials: None,
        }
    }

    /// An equal state.
    pub(crate) fn copy(&self, alloc: Global) -> Result<Progress, AllocError>
        ensures { IfOk result (λ progress. progress ≡ self.now) }
    {
        let credentials = match &self.credentials {
            Some(stored) => Some(stored.copy(alloc)?),
            None => None,
        };
        Ok(Progress {
            success: self.success,
            checked: self.checked,
            internal: self.internal,
            fields: self.fields.copy(alloc)?,
            credentials,
        })
    }

    /// The kind of a verdict with this state.
    pub(crate) fn end(&self) -> VerdictKind
        ensures { Ended result self.now ≡ ended self.now }
    {
        if self.success {
            if self.is_expired() {
                VerdictKind::Expired
            } else {
                VerdictKind::Ok
            }
        } else if self.internal {
            VerdictKind::Temp
        } else {
            VerdictKind::Fail
        }
    }

    // Whether the fields say that the password is expired.
    fn is_expired(&self) -> bool
        ensures { result ≡ is_expired self.now }
    {
        self.fields.get(b"expired").is_some()
    }

    /// Obeys a rule: whether there is success, and how the chain goes on.
    pub(crate) fn apply(&mut self, rule: Rule, succeeded: bool, part: Part) -> Course
        ensures moves { course_move result self.new ≡ by_rule rule succeeded (are_masters part) self.old }
        ensures jumps { JumpsFrom part result }
    {
        match rule {
            Rule::ReturnOk => self.success = true,
            Rule::ReturnFail => self.success = false,
            Rule::Return => {}
            Rule::ContinueOk => {
                self.success = true;
                self.checked = true;
            }
            Rule::ContinueFail => {
                self.success = false;
                self.checked = false;
            }
            Rule::Continue => self.checked = self.checked || succeeded,
        }
        match rule {
            Rule::ReturnOk | Rule::ReturnFail | Rule::Return => Course::Ends(self.end()),
            Rule::ContinueOk | Rule::ContinueFail | Rule::Continue => {
                if succeeded && part.is_masters() {
                    Course::Jumps
                } else {
                    Course::GoesOn
                }
            }
        }
    }
}
