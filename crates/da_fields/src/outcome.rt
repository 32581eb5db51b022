// What comes of a database's answer, and what follows.

/// What comes of asking a database.
#[derive(Clone, Copy, Drop, PartialEq, Eq)]
pub enum Outcome {
    Success,
    Mismatch,
    Unknown,
    /// The answer has no password that the login could be checked against.
    NoScheme,
    Internal,
}

/// What follows of an outcome in a chain of databases.
#[derive(Clone, Copy, Drop, PartialEq, Eq)]
pub enum Rule {
    /// The chain ends with success.
    ReturnOk,
    /// The chain ends without success.
    ReturnFail,
    /// The chain ends with the state so far.
    Return,
    /// There is success, and the chain goes on.
    ContinueOk,
    /// There is no success, and the chain goes on.
    ContinueFail,
    /// The chain goes on.
    Continue,
}
