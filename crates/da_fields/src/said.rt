// What a mechanism makes of the messages of a client.

use crate::text::Text;

/// What a mechanism says to the messages so far.
#[derive(Drop)]
pub enum Said {
    /// It sends this challenge and waits for the next message.
    Challenge(Text),
    /// It needs the credentials of this user, to be authorized as `authzid` where that is not empty; `password` is the
    /// plaintext that the client sent, where the mechanism sends one.
    Need {
        user: Text,
        authzid: Text,
        password: Option<Text>,
    },
    /// The client's proof is right or wrong; `last` is the mechanism's last message, where it has one.
    Proof {
        right: bool,
        last: Option<Text>,
    },
    /// The messages are off the mechanism's grammar.
    Bad,
}
