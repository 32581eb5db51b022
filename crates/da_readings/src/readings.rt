// The tables read as sentences on the history: each law is a contract, and its function does nothing.

ghost use Rattle.da_readings.specs.ListReadings.{TextsAreRead, CacheableAreRead, AnswersAreRead, ComparisonsAreRead};
ghost use Rattle.da_readings.specs.RowReadings.{QueriesAreRead, DecidedIsFirst, TimedOutIsRead, RepliedIsFirst, ConnectionsAreRead};

/// A query was taken exactly where a Take handed it out, and has an answer exactly where an entry gave it one or told that it is late.
pub fn queries_are_read()
    ensures { QueriesAreRead }
{}

/// The moment at which a request was decided is that of the first entry after which it is decided, by its stage or by its
/// limit.
pub fn decided_is_first()
    ensures { DecidedIsFirst }
{}

/// A request is timed out exactly where an entry found it a client's, undecided, and its limit reached; that entry decided
/// it and replied to it.
pub fn timed_out_is_read()
    ensures { TimedOutIsRead }
{}

/// The moment at which a request was replied is that of an entry that found it neither replied nor cancelled.
pub fn replied_is_first()
    ensures { RepliedIsFirst }
{}

/// A connection is open exactly where an entry opened it and none after that ended it.
pub fn connections_are_read()
    ensures { ConnectionsAreRead }
{}

/// The texts of a request are those of the `CONT` lines that continued it, in order.
pub fn texts_are_read()
    ensures { TextsAreRead }
{}

/// The cacheable answers are the queries whose answers may be kept, the last answered first.
pub fn cacheable_are_read()
    ensures { CacheableAreRead }
{}

/// In a legal history the answers of a request are those of its own queries, but for lost ones, and of its hits, in order.
pub fn answers_are_read()
    ensures { AnswersAreRead }
{}

/// In a legal history the tests of an answer are those of its own use and of its hits, the last first.
pub fn comparisons_are_read()
    ensures { ComparisonsAreRead }
{}
