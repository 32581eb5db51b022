// Laws on expired passwords, and on the codes of failures: each is a contract, and its function does nothing.

ghost use Rattle.da_laws.specs.CodeLaws.{CodesAreOfTheTable, CodesAreTold, ExpiredHasItsAnswer, ExpiredIsNotGranted, ExpiredIsNotOk, OkIsNotExpired, OthersSeeNoCode};

/// Nobody is told OK whose fields say that the password is expired. A login whose chain of databases ended with that verdict
/// is not told OK, and no master is granted it.
pub fn expired_is_never_in()
    ensures fields { OkIsNotExpired }
    ensures told { ExpiredIsNotOk }
    ensures granted { ExpiredIsNotGranted }
{}

/// Where failures let nobody in, a request that is told that its password is expired has a recorded answer that is a success
/// for its own login, and its proof is right: a wrong password or proof isn't told so.
pub fn expired_has_its_answer()
    ensures { ExpiredHasItsAnswer }
{}

/// The code of a failure is that of the first line of the table that applies.
pub fn codes_are_of_the_table()
    ensures { CodesAreOfTheTable }
{}

/// A failure is told with its code to a client that said a minor version of 2 or more, and to any other without.
pub fn codes_are_told()
    ensures knowing { CodesAreTold }
    ensures others { OthersSeeNoCode }
{}
