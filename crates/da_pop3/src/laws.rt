// What holds of every session, whatever it is told: each law is a contract, and its function does nothing.

ghost use Rattle.da_pop3.specs.SessionLaws.{StartsOnce, StartsAreDue, IdsRise, PrintedOkIsSpelled, PrintedUserIsSpelled};

/// A session starts the mail program at most once.
pub fn a_session_starts_once()
    ensures { StartsOnce }
{}

/// A session starts the mail program only as an act of a line of the master side that spells `USER` with this user, these
/// fields and an id. The last line to the master side before it was the `REQUEST` of this id, of this process and with the
/// cookie of the auth service's opening, and the auth service told OK for the id, which this session had sent in an `AUTH`
/// and not cancelled.
pub fn each_start_is_due()
    ensures { StartsAreDue }
{}

/// The first `AUTH` of a session has the id 1, and each further one the next number.
pub fn ids_rise()
    ensures { IdsRise }
{}

/// What the service prints for a login that it authenticated, and for a user, spells just that for a session.
pub fn printed_lines_are_spelled()
    ensures okay { PrintedOkIsSpelled }
    ensures user { PrintedUserIsSpelled }
{}
