// Keys that sign tokens.

use da_fields::Text;

/// A key that signs tokens (RFC 7518, section 6.4): its id (RFC 7517, section 4.5), which may be empty, and its secret bytes.
#[derive(Drop)]
pub struct TokenKey {
    /// What a token's header names the key by. The key with the empty id is that of the headers that name none.
    pub id: Text,
    /// The key of HMAC-SHA-256, as bytes.
    pub secret: Text,
}
