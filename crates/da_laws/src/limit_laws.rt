// Laws on the limit of clients' requests: each is a contract, and its function does nothing.

ghost use Rattle.da_laws.specs.LimitLaws.{LimitsTimeOut, NoLimitIsPassed, TakesTheFirst, TimedOutIsSilent, TimedOutIsTold};

/// After an entry no client's request that was there before it is undecided at its limit or beyond.
pub fn no_limit_is_passed()
    ensures { NoLimitIsPassed }
{}

/// The first entry that finds a client's request undecided at its limit or beyond times it out, tells it so before all else,
/// and tells it nothing more.
pub fn limits_time_out()
    ensures { LimitsTimeOut }
{}

/// Of a request that was timed out before, no entry tells anything more.
pub fn timed_out_is_silent()
    ensures { TimedOutIsSilent }
{}

/// A request that was timed out is told that it took too long, for the user of its login alone.
pub fn timed_out_is_told()
    ensures { TimedOutIsTold }
{}

/// A Take hands out the first query that waited before it, also where its entry times that query's request out.
pub fn takes_the_first()
    ensures { TakesTheFirst }
{}
