// What holds of every script, and of every run of replies.

ghost use Rattle.std.specs.Prelude.{◌≡◌, ℕ, ◌+◌, ◌++◌, List, [], length, Result, Some};
ghost use Rattle.da_base.specs.Words.{Bytes};
ghost use Rattle.da_play.specs.declared.input.Entry.{Entry};
ghost use Rattle.da_play.specs.declared.input.Input.{Input};
ghost use Rattle.da_play.specs.declared.outputs.Outputs.{Outputs};
ghost use Rattle.da_play.specs.declared.outputs.Refused.{Refused};
ghost use Rattle.da_play.specs.Play.{events_of};
ghost use Rattle.da_script.specs.Events.{event_of};
ghost use Rattle.da_script.specs.EventSpelling.{SpellsEvent};
ghost use Rattle.da_script.specs.Replies.{replies_text};
ghost use Rattle.da_script.specs.Scripts.{AreScripted, events, script};

/// A line is read as an event exactly where it spells it: where it is the line that is printed for it, but that an answer
/// may be spelled with other escapes.
pub fn an_event_is_read_as_it_spells()
    ensures read { (line : Bytes) (moment : ℕ) (input : Input) → event_of line ≡ Some (moment, input) → SpellsEvent line moment input }
    ensures spelled { (line : Bytes) (moment : ℕ) (input : Input) → SpellsEvent line moment input → event_of line ≡ Some (moment, input) }
{}

/// A line spells at most one event.
pub fn a_line_spells_one_event()
    ensures { (line : Bytes) (moment later : ℕ) (input other : Input) → SpellsEvent line moment input → SpellsEvent line later other
        → (moment ≡ later) × (input ≡ other) }
{}

/// The script of a history is read as the events that make its entries, each at its entry's own moment.
pub fn a_printed_history_is_read_again()
    ensures { (h : List Entry) → AreScripted h → events (script h) ≡ events_of h }
{}

/// Replies are printed one after another, each under the number of its event.
pub fn replies_are_printed_in_order()
    ensures { (n : ℕ) (replies more : List (Result Outputs Refused)) →
        replies_text n (replies ++ more) ≡ replies_text n replies ++ replies_text (n + length replies) more }
{}
