// Where a session stands: whom it awaits, and in what.

/// Where a session stands.
#[derive(Clone, Copy, Drop)]
pub(crate) enum Place {
    /// It awaits a line of the auth service.
    AtAuth(AuthPlace),
    /// It awaits a line of the service's master side.
    AtMaster(MasterPlace),
    /// It awaits the client.
    AtClient(ClientPlace),
    /// The mail program is being started.
    Starting,
    /// It is over.
    Ended,
}

#[derive(Clone, Copy, Drop)]
pub(crate) enum AuthPlace {
    /// The version comes first.
    AuthVersion,
    /// The rest of the opening.
    AuthOpening,
    /// The reply to an AUTH or to the client's answer.
    Replying,
}

#[derive(Clone, Copy, Drop)]
pub(crate) enum MasterPlace {
    /// The version comes first.
    MasterVersion,
    /// The rest of the opening.
    MasterOpening,
    /// The reply to a REQUEST.
    LookingUp,
}

#[derive(Clone, Copy, Drop)]
pub(crate) enum ClientPlace {
    /// A command.
    Command,
    /// The answer to a challenge.
    Exchange,
    /// The answer to the last message of an exchange, which has no text.
    LastAnswer,
}
