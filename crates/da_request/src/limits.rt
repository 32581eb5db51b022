// The limit of a client's request: how long it may go without a decision.

ghost use Rattle.std.specs.Prelude.{◌≡◌, ◌<◌, ◌^◌, ◌-◌, IfOk};
ghost use Rattle.da_request.specs.Requests.{has_limit, is_over_limit, is_wanted, limit_moment, timed_failure, timed_out_if_over};

use crate::failures::FailedBy;
use crate::request::Request;
use crate::stages::Decision;
use crate::uses::is_authentication;
use da_fields::Text;
use da_settings::Settings;
use std::alloc::{AllocError, Global};

impl Request {
    /// The moment from which it is timed out, where it isn't decided before.
    pub fn limit_moment(&self, settings: &Settings) -> u64
        ensures { result ≡ limit_moment settings.now self.now }
    {
        self.start.saturating_add(settings.request_limit)
    }

    /// Whether its limit is still to come: it is a client's request that isn't decided. A master's has none.
    pub fn has_limit(&self) -> bool
        ensures { result ≡ has_limit self.now }
    {
        is_authentication(&self.body) && self.is_undecided()
    }

    /// Whether its queries may be handed out: it is neither cancelled nor timed out.
    pub fn is_wanted(&self) -> bool
        ensures { result ≡ is_wanted self.now }
    {
        !self.is_cancelled && !self.is_timed_out
    }

    /// It is timed out at this moment, where its limit is reached then.
    pub fn time_out_if_over(&mut self, settings: &Settings, moment: u64)
        ensures { self.new ≡ timed_out_if_over settings.now moment self.old }
    {
        if self.is_over_limit(settings, moment) {
            self.is_timed_out = true;
            self.decided = Some(moment);
        }
    }

    // Whether its limit is reached at this moment.
    #[tactic(auto, unfolding(crate::specs::Requests::is_over_limit))]
    fn is_over_limit(&self, settings: &Settings, moment: u64) -> bool
        ensures { result ≡ is_over_limit settings.now moment self.now }
    {
        self.has_limit() && self.limit_moment(settings) <= moment
    }

    // What it is told where it is timed out.
    pub(crate) fn timed_failure(
        &self,
        alloc: Global,
        settings: &Settings,
    ) -> Result<Decision, AllocError>
        ensures { IfOk result (λ decision. decision ≡ timed_failure settings.now self.now) }
    {
        let user = match self.login(alloc, settings)? {
            Some(login) => Some(login.user),
            None => None,
        };
        Ok(Decision::Failure {
            user,
            authz: false,
            temp: false,
            disabled: false,
            code: FailedBy::Limit.code(false),
            reason: Some(Text::from_slice(alloc, b"Timed out")?),
        })
    }
}
