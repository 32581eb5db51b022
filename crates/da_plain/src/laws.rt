// Laws of PLAIN and LOGIN: each is a contract, and its function does nothing.

ghost use Rattle.std.specs.Prelude.{◌≡◌, List};
ghost use Rattle.da_base.specs.Words.{Bytes};
ghost use Rattle.da_fields.specs.declared.said.Said.{Said};
ghost use Rattle.da_plain.specs.Plain.{PlainSays, plain_says};
ghost use Rattle.da_plain.specs.Login.{LoginSays, login_says};

/// Of any messages of PLAIN one thing comes, and nothing else.
pub fn plain_says_one_thing()
    ensures comes { (messages : List Bytes) → PlainSays messages (plain_says messages) }
    ensures alone { (messages : List Bytes) (what : Said) → PlainSays messages what → what ≡ plain_says messages }
{}

/// Of any messages of LOGIN one thing comes, and nothing else.
pub fn login_says_one_thing()
    ensures comes { (messages : List Bytes) → LoginSays messages (login_says messages) }
    ensures alone { (messages : List Bytes) (what : Said) → LoginSays messages what → what ≡ login_says messages }
{}
