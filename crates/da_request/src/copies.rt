// Copies of a request and of its parts.

ghost use Rattle.std.specs.Prelude.{◌≡◌, IfOk};

use crate::request::{Answers, Body, Grant, Request};
use crate::stages::Question;
use da_fields::{Answer, Text};
use std::alloc::{AllocError, Global};

/// An equal text, where there is one.
pub fn copy_text(alloc: Global, text: &Option<Text>) -> Result<Option<Text>, AllocError>
    ensures { IfOk result (λ copy. copy ≡ text.now) }
{
    match text {
        Some(text) => Ok(Some(text.copy(alloc)?)),
        None => Ok(None),
    }
}

impl Grant {
    /// An equal grant.
    pub fn copy(&self, alloc: Global) -> Result<Grant, AllocError>
        ensures { IfOk result (λ grant. grant ≡ self.now) }
    {
        Ok(Grant {
            request: self.request,
            lookup: self.lookup.copy(alloc)?,
        })
    }
}

impl Body {
    /// An equal body.
    pub fn copy(&self, alloc: Global) -> Result<Body, AllocError>
        ensures { IfOk result (λ body. body ≡ self.now) }
    {
        match self {
            Body::Authenticates {
                mech,
                params,
                resp,
                texts,
            } => Ok(Body::Authenticates {
                mech: mech.copy(alloc)?,
                params: params.copy(alloc)?,
                resp: copy_text(alloc, resp)?,
                texts: texts.copy(alloc)?,
            }),
            Body::LooksUp(Some(grant)) => Ok(Body::LooksUp(Some(grant.copy(alloc)?))),
            Body::LooksUp(None) => Ok(Body::LooksUp(None)),
        }
    }
}

impl Answers {
    /// Equal answers.
    pub fn copy(&self, alloc: Global) -> Result<Answers, AllocError>
        ensures { IfOk result (λ answers. answers ≡ self.now) }
    {
        let mut items = Vec::new(alloc);
        for (db, answer) in &self.items {
            items.push((*db, answer.copy(alloc)?))?;
        }
        Ok(Answers { items })
    }
}

impl Request {
    /// An equal request.
    pub fn copy(&self, alloc: Global) -> Result<Request, AllocError>
        ensures { IfOk result (λ request. request ≡ self.now) }
    {
        Ok(Request {
            conn: self.conn,
            id: self.id,
            random: self.random,
            start: self.start,
            body: self.body.copy(alloc)?,
            answers: self.answers.copy(alloc)?,
            is_cancelled: self.is_cancelled,
            is_timed_out: self.is_timed_out,
            decided: self.decided,
            replied: self.replied,
        })
    }
}

/// An equal answer, where there is one, with its moment.
pub fn answer_copy(
    alloc: Global,
    answer: &Option<(Answer, u64)>,
) -> Result<Option<(Answer, u64)>, AllocError>
    ensures { IfOk result (λ copy. copy ≡ answer.now) }
{
    match answer {
        Some((answer, moment)) => Ok(Some((answer.copy(alloc)?, *moment))),
        None => Ok(None),
    }
}

impl Question {
    /// An equal question.
    pub fn copy(&self, alloc: Global) -> Result<Question, AllocError>
        ensures { IfOk result (λ copy. copy ≡ self.now) }
    {
        Ok(Question {
            db: self.db,
            kind: self.kind,
            user: self.user.copy(alloc)?,
            checked: self.checked,
        })
    }
}
