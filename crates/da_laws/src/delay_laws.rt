// Laws on how long final replies are held back: each is a contract, and its function does nothing.

ghost use Rattle.da_laws.specs.DelayLaws.{FailuresWait, NoneWaitsLonger, OthersAreToldAtOnce};

/// A client is told of a failure no sooner than the delay after it was decided, unless an answer asks for no delay or its
/// request was timed out. No reply waits longer, and each other reply is given at once.
pub fn failures_alone_wait()
    ensures failures { FailuresWait }
    ensures no_longer { NoneWaitsLonger }
    ensures others { OthersAreToldAtOnce }
{}
