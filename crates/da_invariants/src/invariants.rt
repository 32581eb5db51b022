// What holds of the tables after each history: each law is a contract, and its function does nothing.

ghost use Rattle.da_invariants.specs.KeyLaws.{KeysFit};
ghost use Rattle.da_invariants.specs.NameLaws.{IdsAreDistinct, ProcessNumbersAreDistinct};
ghost use Rattle.da_invariants.specs.QueryLaws.{OpenQueriesAreAsked, AnswersAreDistinct};
ghost use Rattle.da_invariants.specs.RepeatLaws.{AskedAgainWhereLost, AskedTwiceAtMost, LostIsAskedAgain};
ghost use Rattle.da_invariants.specs.StandingLaws.{WhatIsDoneStands, UsedStaysUsed, DecisionsStand};

/// What is ended, cancelled, decided, replied, granted, taken or answered stays so, whatever comes later.
pub fn what_is_done_stands()
    ensures { WhatIsDoneStands }
{}

/// A login that served a request of a master is used for ever.
pub fn used_stays_used()
    ensures { UsedStaysUsed }
{}

/// The decision of a request that is decided doesn't change.
pub fn decisions_stand()
    ensures { DecisionsStand }
{}

/// A query without an answer is what its request asks, and that request is undecided, or was cancelled or timed out before.
pub fn open_queries_are_asked()
    ensures { OpenQueriesAreAsked }
{}

/// The keys fit the cache, no key is there twice, and each has an answer that may be repeated for some time.
pub fn keys_fit()
    ensures { KeysFit }
{}

/// In a legal history the answers of a request are those of distinct databases.
pub fn answers_are_distinct()
    ensures { AnswersAreDistinct }
{}

/// No two open clients have one process number, so a master's lookup by it means one connection.
pub fn process_numbers_are_distinct()
    ensures { ProcessNumbersAreDistinct }
{}

/// No two requests of a connection have one id.
pub fn ids_are_distinct()
    ensures { IdsAreDistinct }
{}

/// In a legal history a request asks a database a second time only where its first query was lost: its worker died, and it
/// ran no program. Then it asks the same.
pub fn asked_again_where_lost()
    ensures { AskedAgainWhereLost }
{}

/// In a legal history a request asks a database twice at most.
pub fn asked_twice_at_most()
    ensures { AskedTwiceAtMost }
{}

/// Where a query is lost, and no answer is repeated in its stead, its request asks the same again under the next number,
/// unless it is decided, cancelled or timed out by then.
pub fn lost_is_asked_again()
    ensures { LostIsAskedAgain }
{}
