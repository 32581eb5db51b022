// What a client's request fails by, and the code of its failure.

ghost use Rattle.std.specs.Prelude.{◌≡◌};
ghost use Rattle.da_request.specs.Attempts.{failure_code};

use da_msgs::Code;
use da_passdb::VerdictKind;

/// What a client's request fails by.
#[derive(Clone, Copy, Drop)]
pub(crate) enum FailedBy {
    /// Its limit came before a decision.
    Limit,
    /// What the client said was no login, or no message of its mechanism.
    Protocol,
    /// The verdict, of the chain of databases or of a wrong proof.
    Verdict(VerdictKind),
}

impl FailedBy {
    /// The code of the failure, which has `authz` or not.
    pub(crate) fn code(self, authz: bool) -> Code
        ensures { result ≡ failure_code self authz }
    {
        match self {
            FailedBy::Limit => Code::Timeout,
            FailedBy::Protocol => Code::Protocol,
            FailedBy::Verdict(kind) => verdict_code(kind, authz),
        }
    }
}

fn verdict_code(kind: VerdictKind, authz: bool) -> Code
    ensures { result ≡ failure_code (FailedBy.Verdict kind) authz }
{
    match kind {
        VerdictKind::Temp => Code::Temp,
        VerdictKind::Disabled => Code::Disabled,
        VerdictKind::Expired => Code::Expired,
        VerdictKind::Ok => plain_code(authz),
        VerdictKind::Fail => plain_code(authz),
    }
}

// The code of a failure that tells of nothing but a wrong login.
fn plain_code(authz: bool) -> Code
    ensures fail { result ≡ failure_code (FailedBy.Verdict VerdictKind.Fail) authz }
    ensures okay { result ≡ failure_code (FailedBy.Verdict VerdictKind.Ok) authz }
{
    if authz {
        Code::Authz
    } else {
        Code::Credentials
    }
}
