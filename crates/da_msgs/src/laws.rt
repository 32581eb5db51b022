// What holds of the lines of clients and masters, and of failures.

ghost use Rattle.std.specs.Prelude.{◌≡◌, Some};
ghost use Rattle.da_base.specs.Words.{Bytes};
ghost use Rattle.da_msgs.specs.declared.client.ClientMsg.{ClientMsg};
ghost use Rattle.da_msgs.specs.declared.master.MasterMsg.{MasterMsg};
ghost use Rattle.da_msgs.specs.ClientMessages.{client_message};
ghost use Rattle.da_msgs.specs.ClientSpelling.{SpellsClient};
ghost use Rattle.da_msgs.specs.MasterMessages.{master_message};
ghost use Rattle.da_msgs.specs.MasterSpelling.{SpellsMaster};
ghost use Rattle.da_msgs.specs.ToldCodes.{TellsItsCode};

/// The line of a failure with a code tells that code once and no other, whatever its user and its reason are, and one
/// without a code tells none.
pub fn a_failure_tells_its_code()
    ensures { TellsItsCode }
{}

/// A client's line is read as a message exactly where it spells it.
pub fn a_client_line_is_read_as_it_spells()
    ensures read { (line : Bytes) (message : ClientMsg) → client_message line ≡ Some message → SpellsClient line message }
    ensures spelled { (line : Bytes) (message : ClientMsg) → SpellsClient line message → client_message line ≡ Some message }
{}

/// A client's line spells at most one message.
pub fn a_client_line_spells_one_message()
    ensures { (line : Bytes) (one other : ClientMsg) → SpellsClient line one → SpellsClient line other → one ≡ other }
{}

/// A master's line is read as a message exactly where it spells it.
pub fn a_master_line_is_read_as_it_spells()
    ensures read { (line : Bytes) (message : MasterMsg) → master_message line ≡ Some message → SpellsMaster line message }
    ensures spelled { (line : Bytes) (message : MasterMsg) → SpellsMaster line message → master_message line ≡ Some message }
{}

/// A master's line spells at most one message.
pub fn a_master_line_spells_one_message()
    ensures { (line : Bytes) (one other : MasterMsg) → SpellsMaster line one → SpellsMaster line other → one ≡ other }
{}
