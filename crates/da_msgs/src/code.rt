// Codes of failures.

ghost use Rattle.std.specs.Prelude.{◌≡◌};
ghost use Rattle.da_msgs.specs.Replies.{code_word};

/// Why a request is not authenticated, as a client is told that knows codes.
#[derive(Clone, Copy, Drop, PartialEq, Eq)]
pub enum Code {
    /// A database gave no answer.
    Temp,
    /// A deny database has the user.
    Disabled,
    /// The password is right, and expired.
    Expired,
    /// It took too long.
    Timeout,
    /// What the client said was no login, or no message of its mechanism.
    Protocol,
    /// The master is authenticated, and may not log in as the user.
    Authz,
    /// The user isn't known, or the password is wrong.
    Credentials,
}

impl Code {
    /// The word of the code.
    pub fn word(self) -> &'static [u8]
        ensures { result.now ≡ code_word self }
    {
        match self {
            Code::Temp => b"temp",
            Code::Disabled => b"disabled",
            Code::Expired => b"expired",
            Code::Timeout => b"timeout",
            Code::Protocol => b"protocol",
            Code::Authz => b"authz",
            Code::Credentials => b"credentials",
        }
    }
}
