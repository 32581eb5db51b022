// Laws of the sequential server: each is a contract, and its function does nothing.

ghost use Rattle.da_laws.specs.ComparisonLaws.{ComparisonsAreOfPasswords, HintsAreCompared, HintsAreTheFirst};
ghost use Rattle.da_laws.specs.EndLaws.{WireIsClosed, FullStaysFull, OverIsClosed};
ghost use Rattle.da_laws.specs.GrantLaws.{GrantedAtMostOnce, UserWasGranted, GrantsStand};
ghost use Rattle.da_laws.specs.HitLaws.{HitsAreUnique, HitsAreHits};
ghost use Rattle.da_laws.specs.PlayLaws.{PlaysAreLegal, LegalIsPlayed};
ghost use Rattle.da_laws.specs.ReplyLaws.{RepliesAtMostOnce, NothingDueIsLeft, RepliesAreLines, RepliesAreDue, DecisionsAreNoted, EndedIsSilent};
ghost use Rattle.da_laws.specs.StageLaws.{StageIsOwn};
ghost use Rattle.da_laws.specs.SuccessLaws.{OkHasItsAnswer};
ghost use Rattle.std.specs.Prelude.{◌≡◌, List, []};
ghost use Rattle.da_play.specs.Legal.{IsLegal};
ghost use Rattle.da_play.specs.Play.{played};
ghost use Rattle.da_play.specs.declared.input.Entry.{Entry};
ghost use Rattle.da_script.specs.Scripts.{AreScripted, events, script};
ghost use Rattle.da_settings.specs.declared.settings.Settings.{Settings};

/// A request has at most one final reply, whatever its history.
pub fn replies_at_most_once()
    ensures { RepliesAtMostOnce }
{}

/// After an entry no reply is left that is due at its moment.
pub fn nothing_due_is_left()
    ensures { NothingDueIsLeft }
{}

/// A final reply is one line, to the connection of its request.
pub fn replies_are_lines()
    ensures { RepliesAreLines }
{}

/// The stage of an attempt to log in depends on the attempt alone, whatever else the history holds.
pub fn stage_is_own()
    ensures { StageIsOwn }
{}

/// A login that was authenticated serves one request of a master at most.
pub fn granted_at_most_once()
    ensures { GrantedAtMostOnce }
{}

/// A user is given to a request that was granted by the entry that was its own `REQUEST`.
pub fn user_was_granted()
    ensures { UserWasGranted }
{}

/// Where failures let nobody in, a request that is told OK has a recorded answer that is a success for its own login.
pub fn ok_has_its_answer()
    ensures { OkHasItsAnswer }
{}

/// There is at most one list of hits.
pub fn hits_are_unique()
    ensures { HitsAreUnique }
{}

/// The hits that the server makes are the hits.
pub fn hits_are_hits()
    ensures { HitsAreHits }
{}

/// What is played is legal.
pub fn plays_are_legal()
    ensures { PlaysAreLegal }
{}

/// A legal history is the one that its own events play.
pub fn legal_is_played()
    ensures { LegalIsPlayed }
{}

/// A master's request is granted only for a client's open connection of its process number and cookie, and a login there that was told OK in time and is neither cancelled nor used.
pub fn grants_stand()
    ensures { GrantsStand }
{}

/// A final reply is one of a request that is decided, by its stage or by its limit, and whose reply is due, never before.
pub fn replies_are_due()
    ensures { RepliesAreDue }
{}

/// What a request's stage or its limit decides is noted as decided, unless it is cancelled.
pub fn decisions_are_noted()
    ensures { DecisionsAreNoted }
{}

/// A connection that has ended gets no line, and so not a byte more.
pub fn ended_is_silent()
    ensures { EndedIsSilent }
{}

/// The bytes to a connection that has ended are all that it gets.
pub fn wire_is_closed()
    ensures { WireIsClosed }
{}

/// A full history is full for ever.
pub fn full_stays_full()
    ensures { FullStaysFull }
{}

/// A run that is over has no open connection.
pub fn over_is_closed()
    ensures { OverIsClosed }
{}

/// What a use of an answer compares is what it tests.
pub fn comparisons_are_of_passwords()
    ensures { ComparisonsAreOfPasswords }
{}

/// What a hint names is compared by the entry that it is for, which isn't refused.
pub fn hints_are_compared()
    ensures { HintsAreCompared }
{}

/// A hint is there exactly where the entry that it is for isn't refused and compares something, and names what that entry
/// compares first: of the answer that it records, for the request of its query, else of known answers for the request that
/// it continues, from hit to hit.
pub fn hints_are_the_first()
    ensures { HintsAreTheFirst }
{}

/// A legal history is the one that its own script plays.
pub fn a_printed_history_is_played_again()
    ensures { (settings : Settings) (h : List Entry) → IsLegal settings h → AreScripted h → played settings [] (events (script h)) ≡ h }
{
    legal_is_played();
}
