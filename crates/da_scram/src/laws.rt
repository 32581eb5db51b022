// Laws of SCRAM-SHA-256: each is a contract, and its function does nothing.

ghost use Rattle.std.specs.Prelude.{◌≡◌, List, [], ◌∷◌, Option, Some, None, true, codes};
ghost use Rattle.da_base.specs.Words.{Bytes};
ghost use Rattle.da_schemes.specs.Stored.{StoredPassword};
ghost use Rattle.da_fields.specs.declared.said.Said.{Said};
ghost use Rattle.da_fields.specs.declared.said.Said.TheVariants.{Challenge, Need, Proof};
ghost use Rattle.da_scram.specs.Messages.{FirstMessage, FinalMessage, IsFirst, IsFinal, header};
ghost use Rattle.da_scram.specs.Reading.{first_message, final_message, scram_says};
ghost use Rattle.da_scram.specs.Scram.{ScramSays};
ghost use Rattle.da_scram.specs.Example.{example_nonce, example_first, example_challenge, example_last, example_server_final, example_keys};

/// A text is read as a client's first message exactly where it spells it.
pub fn a_first_message_is_read_as_it_is_spelled()
    ensures read { (text : Bytes) (m : FirstMessage) → first_message text ≡ Some m → IsFirst text m }
    ensures spelled { (text : Bytes) (m : FirstMessage) → IsFirst text m → first_message text ≡ Some m }
{}

/// A text is read as a client's last message, after a first one and under a nonce of the server, exactly where it spells
/// it.
pub fn a_last_message_is_read_as_it_is_spelled()
    ensures read { (first : FirstMessage) (server_nonce text : Bytes) (m : FinalMessage)
        → final_message (header first) first.nonce server_nonce text ≡ Some m → IsFinal first server_nonce text m }
    ensures spelled { (first : FirstMessage) (server_nonce text : Bytes) (m : FinalMessage)
        → IsFinal first server_nonce text m → final_message (header first) first.nonce server_nonce text ≡ Some m }
{}

/// Of any messages under a nonce of the server and a salt one thing comes, with credentials or without, and nothing else.
pub fn scram_says_one_thing()
    ensures comes { (server_nonce salt : Bytes) (messages : List Bytes) (stored : Option StoredPassword)
        → ScramSays server_nonce salt messages stored (scram_says server_nonce salt messages stored) }
    ensures alone { (server_nonce salt : Bytes) (messages : List Bytes) (stored : Option StoredPassword) (what : Said)
        → ScramSays server_nonce salt messages stored what → what ≡ scram_says server_nonce salt messages stored }
{}

/// The example of RFC 7677, section 3, under the keys of its password: each message of the server is the one that it gives.
pub fn the_example_of_rfc_7677_is_right()
    ensures needed { scram_says example_nonce [] (example_first ∷ []) None ≡ Need (codes "user") [] None }
    ensures challenged { scram_says example_nonce [] (example_first ∷ []) example_keys ≡ Challenge example_challenge }
    ensures right { scram_says example_nonce [] (example_first ∷ example_last ∷ []) example_keys ≡ Proof true (Some example_server_final) }
{}
