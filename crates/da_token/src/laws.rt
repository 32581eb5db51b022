// Laws of tokens and of OAUTHBEARER: each is a contract, and its function does nothing.

ghost use Rattle.std.specs.Prelude.{◌≡◌, ℕ, List, [], Option, Some};
ghost use Rattle.base64.specs.Engines.{url_safe_no_pad};
ghost use Rattle.base64.specs.GeneralPurpose.{IsBytes, encode_of};
ghost use Rattle.da_base.specs.Words.{Bytes};
ghost use Rattle.da_schemes.specs.Stored.{StoredPassword};
ghost use Rattle.da_fields.specs.declared.said.Said.{Said};
ghost use Rattle.da_token.specs.declared.key.TokenKey.{TokenKey};
ghost use Rattle.da_token.specs.declared.token.Token.{Token};
ghost use Rattle.da_token.specs.declared.message.Bearer.{Bearer};
ghost use Rattle.da_token.specs.Token.{IsToken, IsRightText};
ghost use Rattle.da_token.specs.OauthBearer.{Presents, OauthBearerSays};
ghost use Rattle.da_token.specs.Reading.{token_read, bearer_read, oauth_bearer_says};
ghost use Rattle.da_token.specs.Json.{from_base64url};
ghost use Rattle.da_schemes.specs.Hmac.{hmac_sha256};
ghost use Rattle.da_token.specs.Example.{example_token, example_keys, rfc_key, rfc_signed, rfc_signature};
ghost use Rattle.da_token.specs.Example.{rfc_text, rfc_message};
ghost use Rattle.da_token.specs.Message.{IsBearerMessage};

/// A part of a token has one spelling: bytes that stand for a part are its encoding in base64url without padding.
pub fn a_part_has_one_spelling()
    ensures { (text bytes : Bytes) → IsBytes text
        → from_base64url text ≡ Some bytes → text ≡ encode_of url_safe_no_pad bytes }
{}

/// A text is read as a token exactly where it is that token.
pub fn a_token_is_read_as_it_is_written()
    ensures read { (text : Bytes) (token : Token)
        → token_read text ≡ Some token → IsToken text token }
    ensures written { (text : Bytes) (token : Token)
        → IsToken text token → token_read text ≡ Some token }
{}

/// A text is read as a client's message exactly where it spells one that presents what was read.
pub fn a_message_is_read_as_it_is_spelled()
    ensures read { (text : Bytes) (bearer : Bearer)
        → bearer_read text ≡ Some bearer → Presents text bearer }
    ensures spelled { (text : Bytes) (bearer : Bearer)
        → Presents text bearer → bearer_read text ≡ Some bearer }
{}

/// Of any messages under keys, an issuer and a moment of the start one thing comes, with credentials or without, and nothing
/// else.
pub fn oauth_bearer_says_one_thing()
    ensures comes { (keys : List TokenKey) (issuer : Bytes) (start : ℕ)
        (messages : List Bytes) (stored : Option StoredPassword)
        → OauthBearerSays keys issuer start messages stored
        (oauth_bearer_says keys issuer start messages stored) }
    ensures alone { (keys : List TokenKey) (issuer : Bytes) (start : ℕ)
        (messages : List Bytes) (stored : Option StoredPassword) (what : Said)
        → OauthBearerSays keys issuer start messages stored what
        → what ≡ oauth_bearer_says keys issuer start messages stored }
{}

/// The signature of RFC 7515, appendix A.1, is that of its two parts under its key.
pub fn the_example_of_rfc_7515_is_signed()
    ensures { from_base64url rfc_signature ≡ Some (hmac_sha256 rfc_key rfc_signed) }
{}

/// The example of RFC 7628, section 4.1, is a message on the form.
pub fn the_example_of_rfc_7628_is_a_message()
    ensures { IsBearerMessage rfc_text rfc_message }
{}

/// A token that ends at second 2 is right at the last millisecond before it, and not from there on.
pub fn the_example_is_right_until_its_end()
    ensures before { IsRightText example_keys [] 1999 example_token }
    ensures over { IsRightText example_keys [] 2000 example_token → ⊥ }
{}
