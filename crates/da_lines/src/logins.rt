// Logins that may still be used by a master.

ghost use Rattle.std.specs.Prelude.{◌≡◌, ◌<◌, ◌^◌, ◌-◌, IfOk, option_and_then};
ghost use Rattle.da_request.specs.Requests.{is_fresh, lookup_with, decision};

use da_request::{Body, Decision, Request, vars_for};
use da_settings::Settings;
use da_userdb::Lookup;
use std::alloc::{AllocError, Global};

/// How long an authenticated id may be used, in milliseconds.
const LOGIN_LIFE: u64 = 150_000;

/// Whether the request isn't cancelled, and was replied at most 150,000 ms ago.
pub(crate) fn is_fresh(request: &Request, moment: u64) -> bool
    ensures { result ≡ is_fresh moment request.now }
{
    !request.is_cancelled
        && match request.replied {
            Some(replied) => moment <= replied.saturating_add(LOGIN_LIFE),
            None => false,
        }
}

/// What is looked up for the login that the request made, where it succeeded.
pub(crate) fn lookup_for(
    request: &Request,
    alloc: Global,
    settings: &Settings,
) -> Result<Option<Lookup>, AllocError>
    ensures { IfOk result (λ lookup. lookup ≡ option_and_then (lookup_with request.now.body) (decision settings.now request.now)) }
{
    match request.decision(alloc, settings)? {
        Some(decision) => lookup_with(alloc, &request.body, decision),
        None => Ok(None),
    }
}

fn lookup_with(alloc: Global, body: &Body, decision: Decision) -> Result<Option<Lookup>, AllocError>
    ensures { IfOk result (λ lookup. lookup ≡ lookup_with body.now decision) }
{
    let Body::Authenticates { params, .. } = body else {
        return Ok(None);
    };
    match decision {
        Decision::Success { user, fields, .. } => {
            let vars = vars_for(alloc, user.bytes(), params)?;
            Ok(Some(Lookup {
                user,
                passdb_fields: fields,
                vars,
            }))
        }
        _ => Ok(None),
    }
}
