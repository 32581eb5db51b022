// The state of a chain.

ghost use Rattle.std.specs.Prelude.{◌≡◌, IfOk};
ghost use Rattle.da_userdb.specs.UserChain.{by_user_rule, no_user_progress, user_end};
ghost use Rattle.da_userdb.specs.UserPlaces.{course_move};

use crate::database::UserChain;
use da_fields::{Fields, Rule};
use std::alloc::{AllocError, Global};

/// What a chain does after a database.
#[derive(Clone, Copy, Drop)]
pub(crate) enum Course {
    /// It goes on to the next database.
    GoesOn,
    /// It ends with the state so far.
    Ends,
}

/// The state of a chain.
#[derive(Drop)]
pub(crate) struct UserProgress {
    pub(crate) found: bool,
    /// A database that was asked gave no answer.
    pub(crate) internal: bool,
    pub(crate) fields: Fields,
}

impl UserProgress {
    /// The state before the first database.
    pub(crate) fn new(alloc: Global) -> UserProgress
        ensures { result ≡ no_user_progress }
    {
        UserProgress {
            found: false,
            internal: false,
            fields: Fields::new(alloc),
        }
    }

    /// An equal state.
    pub(crate) fn copy(&self, alloc: Global) -> Result<UserProgress, AllocError>
        ensures { IfOk result (λ progress. progress ≡ self.now) }
    {
        Ok(UserProgress {
            found: self.found,
            internal: self.internal,
            fields: self.fields.copy(alloc)?,
        })
    }

    /// What a chain that ends here finds.
    pub(crate) fn end(&self, alloc: Global) -> Result<UserChain, AllocError>
        ensures { IfOk result (λ chain. chain ≡ user_end self.now) }
    {
        if self.found {
            let fields = self.fields.copy(alloc)?;
            Ok(UserChain::Found { fields })
        } else if self.internal {
            Ok(UserChain::Temp)
        } else {
            Ok(UserChain::NotFound)
        }
    }

    /// Obeys a rule: whether there is success, and whether the chain goes on.
    pub(crate) fn apply(&mut self, rule: Rule) -> Course
        ensures { course_move result self.new ≡ by_user_rule rule self.old }
    {
        match rule {
            Rule::ReturnOk | Rule::ContinueOk => self.found = true,
            Rule::ReturnFail | Rule::ContinueFail => self.found = false,
            Rule::Return | Rule::Continue => {}
        }
        match rule {
            Rule::ReturnOk | Rule::ReturnFail | Rule::Return => Course::Ends,
            Rule::ContinueOk | Rule::ContinueFail | Rule::Continue => Course::GoesOn,
        }
    }
}
