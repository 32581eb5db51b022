// Laws of CRAM-MD5: each is a contract, and its function does nothing.

ghost use Rattle.std.specs.Prelude.{◌≡◌, List, [], Option, Some, None, true, codes};
ghost use Rattle.da_base.specs.Words.{Bytes};
ghost use Rattle.da_schemes.specs.Stored.{StoredPassword};
ghost use Rattle.da_fields.specs.declared.said.Said.{Said};
ghost use Rattle.da_fields.specs.declared.said.Said.TheVariants.{Need, Proof, Bad};
ghost use Rattle.da_cram.specs.Cram.{CramSays, cram_says};
ghost use Rattle.da_cram.specs.Example.{example_challenge, example_messages, messages_in_capitals, example_password};

/// Of any messages to a challenge one thing comes, with credentials or without, and nothing else.
pub fn cram_says_one_thing()
    ensures comes { (challenge : Bytes) (messages : List Bytes) (stored : Option StoredPassword)
        → CramSays challenge messages stored (cram_says challenge messages stored) }
    ensures alone { (challenge : Bytes) (messages : List Bytes) (stored : Option StoredPassword) (what : Said)
        → CramSays challenge messages stored what → what ≡ cram_says challenge messages stored }
{}

/// The example of RFC 2195, section 2: its digest is right, and it needs the user `tim`. With a capital letter among the
/// digits it is no response.
pub fn the_example_of_rfc_2195_is_right()
    ensures needed { cram_says example_challenge example_messages None ≡ Need (codes "tim") [] None }
    ensures right { cram_says example_challenge example_messages (Some example_password) ≡ Proof true None }
    ensures capitals { cram_says example_challenge messages_in_capitals None ≡ Bad }
{}
