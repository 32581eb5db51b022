// The stage of a request, its decision, and the moment at which its reply is due.

ghost use Rattle.std.specs.Prelude.{◌≡◌, ◌<◌, ◌^◌, ◌-◌, ◌++◌, ◌∷◌, [], OnOk, IfOk, option_and_then, codes, is_some};
ghost use Rattle.da_fields.specs.Answers.{answer_fields};
ghost use Rattle.da_fields.specs.FieldList.{field};
ghost use Rattle.da_request.specs.Attempts.{said, login_in};
ghost use Rattle.da_request.specs.Requests.{replied_if_due, with_decision, request_stage, decision_in, decision, login_of, due_from, due_moment, is_due, is_held, reply_delay, attempt_by, grant_stage, lookup_stage, has_nodelay};

use crate::attempts::{Attempt, attempt_stage};
use crate::messages::said;
use crate::openings::{Opening, opening_of};
use crate::request::{Answers, Body, Grant, Request};
use da_fields::{Answer, Fields, QueryKind, Text};
use da_msgs::{Code, Mech};
use da_passdb::Login;
use da_settings::{Settings, Texts};
use da_userdb::{Lookup, UserChain, user_next};
use std::alloc::{AllocError, Global};

/// What a request asks: the database, the name that it is asked for, and whether a password was checked before.
#[derive(Drop)]
pub struct Question {
    pub db: u32,
    pub kind: QueryKind,
    pub user: Text,
    pub checked: bool,
}

/// The content of a final reply.
#[derive(Drop)]
pub enum Decision {
    Success {
        user: Text,
        fields: Fields,
        last: Option<Text>,
    },
    Failure {
        user: Option<Text>,
        authz: bool,
        temp: bool,
        disabled: bool,
        /// Why it failed, whether the client is told or not.
        code: Code,
        reason: Option<Text>,
    },
    UserGiven {
        user: Text,
        fields: Fields,
    },
    UserUnknown,
    UserFailure,
}

/// Where a request stands.
#[derive(Drop)]
pub enum Stage {
    /// It sent this challenge and awaits a message of the client.
    Awaits(Text),
    /// It asks a database.
    Asks(Question),
    Decided(Decision),
}

impl Request {
    /// It is replied now, where its reply is due.
    pub fn reply_if_due(
        &mut self,
        alloc: Global,
        settings: &Settings,
        moment: u64,
    ) -> Result<(), AllocError>
        ensures { OnOk result (self.new ≡ replied_if_due settings.now moment self.old) }
    {
        if self.is_due(alloc, settings, moment)? {
            self.replied = Some(moment);
        }
        Ok(())
    }

    /// It is decided now, and replied where that is due at once.
    pub fn decide(
        &mut self,
        alloc: Global,
        settings: &Settings,
        moment: u64,
    ) -> Result<(), AllocError>
        ensures { OnOk result (self.new ≡ with_decision settings.now moment self.old) }
    {
        self.decided = Some(moment);
        self.reply_if_due(alloc, settings, moment)
    }

    /// Where the request stands, by what is known of it alone.
    #[tactic(auto, unfolding(crate::specs::Requests::request_stage))]
    pub fn stage(&self, alloc: Global, settings: &Settings) -> Result<Stage, AllocError>
        ensures { IfOk result (λ stage. stage ≡ request_stage settings.now self.now) }
    {
        match &self.body {
            Body::Authenticates {
                mech,
                params,
                resp,
                texts,
            } => {
                let mech = Mech::named(alloc, mech.bytes(), settings.mechanisms.all())?;
                let attempt = attempt_by(alloc, mech, self, params, resp, texts.all())?;
                attempt_stage(alloc, settings, &attempt)
            }
            Body::LooksUp(grant) => grant_stage(alloc, settings, &self.answers, grant),
        }
    }

    /// The decision, where there is one: that of its limit where it was timed out, and else that of its stage.
    #[tactic(auto, unfolding(crate::specs::Requests::decision))]
    pub fn decision(
        &self,
        alloc: Global,
        settings: &Settings,
    ) -> Result<Option<Decision>, AllocError>
        ensures { IfOk result (λ value. value ≡ decision settings.now self.now) }
    {
        if self.is_timed_out {
            return Ok(Some(self.timed_failure(alloc, settings)?));
        }
        self.stage_decision(alloc, settings)
    }

    // The decision of its stage, where that is decided.
    fn stage_decision(
        &self,
        alloc: Global,
        settings: &Settings,
    ) -> Result<Option<Decision>, AllocError>
        ensures { IfOk result (λ value. value ≡ decision_in (request_stage settings.now self.now)) }
    {
        match self.stage(alloc, settings)? {
            Stage::Decided(decision) => Ok(Some(decision)),
            Stage::Awaits(_) | Stage::Asks(_) => Ok(None),
        }
    }

    /// The login that the request makes, once its names are known.
    #[tactic(auto, unfolding(crate::specs::Requests::login_of))]
    pub fn login(&self, alloc: Global, settings: &Settings) -> Result<Option<Login>, AllocError>
        ensures { IfOk result (λ login. login ≡ login_of settings.now self.now) }
    {
        match &self.body {
            Body::Authenticates {
                mech,
                params,
                resp,
                texts,
            } => {
                let mech = Mech::named(alloc, mech.bytes(), settings.mechanisms.all())?;
                let attempt = attempt_by(alloc, mech, self, params, resp, texts.all())?;
                Ok(login_in(opening_of(alloc, settings, &attempt)?))
            }
            Body::LooksUp(_) => Ok(None),
        }
    }

    /// The moment at which the final reply is due, once there is a decision.
    pub fn due_moment(&self, alloc: Global, settings: &Settings) -> Result<Option<u64>, AllocError>
        ensures { IfOk result (λ due. due ≡ due_moment settings.now self.now) }
    {
        match self.decided {
            Some(moment) => Ok(Some(self.due_from(alloc, settings, moment)?)),
            None => Ok(None),
        }
    }

    // When the reply is due, where it was decided at this moment.
    fn due_from(&self, alloc: Global, settings: &Settings, decided: u64) -> Result<u64, AllocError>
        ensures { IfOk result (λ due. due ≡ due_from settings.now self.now decided) }
    {
        if self.is_timed_out {
            return Ok(self.limit_moment(settings));
        }
        let delay = self.reply_delay(alloc, settings)?;
        Ok(decided.saturating_add(delay))
    }

    /// Whether the request is to be replied at an entry of this moment.
    #[tactic(auto, unfolding(crate::specs::Requests::is_due))]
    pub fn is_due(
        &self,
        alloc: Global,
        settings: &Settings,
        moment: u64,
    ) -> Result<bool, AllocError>
        ensures { IfOk result (λ due. due ≡ is_due settings.now moment self.now) }
    {
        if !self.is_held() {
            return Ok(false);
        }
        match self.due_moment(alloc, settings)? {
            Some(due) => Ok(due <= moment),
            None => Ok(false),
        }
    }

    // Decided, not cancelled and not replied.
    fn is_held(&self) -> bool
        ensures { result ≡ is_held self.now }
    {
        self.decided.is_some() && !self.is_cancelled && self.replied.is_none()
    }

    // How long the decision is held back, in milliseconds.
    #[tactic(auto, unfolding(crate::specs::Requests::reply_delay))]
    fn reply_delay(&self, alloc: Global, settings: &Settings) -> Result<u64, AllocError>
        ensures { IfOk result (λ delay. delay ≡ reply_delay settings.now self.now) }
    {
        if has_nodelay(&self.answers) {
            return Ok(0);
        }
        match self.decision(alloc, settings)? {
            Some(Decision::Failure { .. }) => Ok(settings.failure_delay),
            _ => Ok(0),
        }
    }
}

/// The attempt that a client's request makes.
pub fn attempt_by<'a>(
    alloc: Global,
    mech: Option<Mech>,
    request: &'a Request,
    params: &'a Fields,
    resp: &Option<Text>,
    texts: &[Text],
) -> Result<Attempt<'a>, AllocError>
    ensures { IfOk result (λ attempt. attempt ≡ attempt_by mech request.now params.now resp.now texts.now) }
{
    let messages = messages_by(alloc, mech, resp, texts)?;
    Ok(Attempt {
        mech,
        params,
        messages,
        random: &request.random,
        start: request.start,
        answers: &request.answers.items,
    })
}

fn messages_by(
    alloc: Global,
    mech: Option<Mech>,
    resp: &Option<Text>,
    texts: &[Text],
) -> Result<Option<Texts>, AllocError>
    ensures { IfOk result (λ messages. messages ≡ option_and_then (λ m. said m resp.now texts.now) mech) }
{
    match mech {
        Some(mech) => said(alloc, mech, resp, texts),
        None => Ok(None),
    }
}

fn login_in(opening: Opening) -> Option<Login>
    ensures { result ≡ login_in opening }
{
    match opening {
        Opening::Immediate(_) => None,
        Opening::LogsIn(_, login) => Some(login),
    }
}

fn grant_stage(
    alloc: Global,
    settings: &Settings,
    answers: &Answers,
    grant: &Option<Grant>,
) -> Result<Stage, AllocError>
    ensures { IfOk result (λ stage. stage ≡ grant_stage settings.now answers.now grant.now) }
{
    match grant {
        None => Ok(Stage::Decided(Decision::UserUnknown)),
        Some(grant) => {
            let lookup = &grant.lookup;
            let chain = user_next(
                alloc,
                settings.userdbs(),
                &lookup.user,
                &lookup.passdb_fields,
                &lookup.vars,
                &answers.items,
            )?;
            lookup_stage(alloc, lookup, chain)
        }
    }
}

/// The stage of a lookup from where its chain of databases stands, whoever walked it.
pub fn lookup_stage(alloc: Global, lookup: &Lookup, chain: UserChain) -> Result<Stage, AllocError>
    ensures { IfOk result (λ stage. stage ≡ lookup_stage lookup.now chain) }
{
    match chain {
        UserChain::Ask { db } => Ok(Stage::Asks(Question {
            db,
            kind: QueryKind::User,
            user: lookup.user.copy(alloc)?,
            checked: false,
        })),
        UserChain::Found { fields } => Ok(Stage::Decided(Decision::UserGiven {
            user: lookup.user.copy(alloc)?,
            fields,
        })),
        UserChain::NotFound => Ok(Stage::Decided(Decision::UserUnknown)),
        UserChain::Temp => Ok(Stage::Decided(Decision::UserFailure)),
    }
}

// Whether some recorded answer has the field `nodelay`.
fn has_nodelay(answers: &Answers) -> bool
    ensures { result ≡ has_nodelay answers.now }
{
    answers.items.iter().any(|entry| has_field(&entry.1))
}

fn has_field(answer: &Answer) -> bool
    ensures { result ≡ is_some (field (codes "nodelay") (answer_fields answer.now)) }
{
    match answer {
        Answer::Found { fields, .. } | Answer::Passed { fields } => fields
            .get(b"nodelay")
            .is_some(),
        Answer::Mismatch | Answer::Unknown | Answer::Internal(_) => false,
    }
}
