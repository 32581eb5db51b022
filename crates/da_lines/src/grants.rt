// Grants: which requests of masters are given a user.

ghost use Rattle.std.specs.Prelude.{◌≡◌, ◌<◌, ◌^◌, ◌-◌, IfOk, length};
ghost use Rattle.da_base.specs.Words.{nth};
ghost use Rattle.da_lines.specs.Grants.{login_grant, grant_for, grant_on, granted};

use crate::logins::{is_fresh, lookup_for};
use da_request::{Grant, Request};
use da_settings::Settings;
use da_tables::Tables;
use std::alloc::{AllocError, Global};

/// The grant of the login of this number: where it may still be used, and serves no other request of a master.
pub fn login_grant(
    alloc: Global,
    settings: &Settings,
    moment: u64,
    serves: bool,
    number: u32,
    request: &Request,
) -> Result<Option<Grant>, AllocError>
    ensures { IfOk result (λ grant. grant ≡ login_grant settings.now moment serves number request.now) }
{
    if !is_fresh(request, moment) || serves {
        return Ok(None);
    }
    match lookup_for(request, alloc, settings)? {
        Some(lookup) => Ok(Some(Grant {
            request: number,
            lookup,
        })),
        None => Ok(None),
    }
}

fn grant_for(
    tables: &Tables,
    alloc: Global,
    settings: &Settings,
    moment: u64,
    number: u32,
) -> Result<Option<Grant>, AllocError>
    ensures { IfOk result (λ grant. grant ≡ grant_for settings.now moment tables.now number (nth tables.now.requests number)) }
{
    match tables.request(number) {
        Some(request) => {
            let serves = tables.is_used(number);
            login_grant(alloc, settings, moment, serves, number, request)
        }
        None => Ok(None),
    }
}

/// The grant by a connection, if it has this cookie.
fn grant_on(
    tables: &Tables,
    alloc: Global,
    settings: &Settings,
    moment: u64,
    client: u32,
    cookie: &[u8],
    conn: u32,
) -> Result<Option<Grant>, AllocError>
    requires { length tables.now.requests < 2 ^ 32 - 1 }
    ensures { IfOk result (λ grant. grant ≡ grant_on settings.now moment tables.now client cookie.now conn (nth tables.now.connections conn)) }
{
    let Some(connection) = tables.connection(conn) else {
        return Ok(None);
    };
    if connection.cookie.bytes() != cookie {
        return Ok(None);
    }
    let number = tables.request_number(conn, client);
    grant_for(tables, alloc, settings, moment, number)
}

/// The grant of a master's request, if it is granted: it names the process number of an open client connection, that
/// connection's cookie, and a request there that was told OK, at most 150,000 ms ago, and is neither cancelled nor used.
#[tactic(auto, unfolding(crate::specs::Grants::granted))]
pub fn granted(
    tables: &Tables,
    alloc: Global,
    settings: &Settings,
    moment: u64,
    pid: u32,
    client: u32,
    cookie: &[u8],
) -> Result<Option<Grant>, AllocError>
    requires requests { length tables.now.requests < 2 ^ 32 - 1 }
    requires connections { length tables.now.connections < 2 ^ 32 - 1 }
    ensures { IfOk result (λ grant. grant ≡ granted settings.now moment tables.now pid client cookie.now) }
{
    let conn = tables.connection_with(pid);
    grant_on(tables, alloc, settings, moment, client, cookie, conn)
}
