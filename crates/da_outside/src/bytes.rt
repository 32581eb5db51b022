ghost use Rattle.std.specs.Prelude.{◌≡◌, ◌≤◌, length, take};

use std::marker::Model;

/// A list of bytes.
#[derive(Debug, Drop)]
pub struct Bytes {
    bytes: Vec<u8>,
}

impl Model for Bytes {
    ghost use Rattle.std.specs.Prelude.{List, ℕ};

    ghost Value = { List ℕ };

    ghost view = { λ list. list.bytes.items };
}

impl Bytes {
    /// The list of these bytes.
    pub fn new(bytes: Vec<u8>) -> Bytes
        ensures { result ≡ bytes.items }
    {
        Bytes { bytes }
    }

    /// The list as a slice.
    pub fn bytes(&self) -> &[u8]
        ensures { result.now ≡ self.now }
    {
        &self.bytes
    }

    /// The first `count` of the bytes, or all of them where they are fewer.
    pub(crate) fn cut(mut self, count: usize) -> Bytes
        ensures bytes { result ≡ take count self }
        ensures short { length result ≤ count }
    {
        self.bytes.truncate(count);
        self
    }
}
