//! Bytes of any number, as a list.

ghost use Rattle.std.specs.Prelude.{◌≡◌};

use std::marker::Model;

/// Bytes of any number, made of a `Vec` and given back as one without memory. A clause sees them as
/// a list.
#[derive(Debug, Drop)]
pub struct ByteList {
    items: Vec<u8>,
}

impl Model for ByteList {
    ghost use Rattle.std.specs.Prelude.{List, ℕ};

    ghost Value = { List ℕ };

    ghost view = { λ b. b.items.items };
}

impl ByteList {
    /// A list of these bytes.
    pub fn new(items: Vec<u8>) -> ByteList
        ensures { result ≡ items.items }
    {
        ByteList { items }
    }

    /// The bytes.
    pub fn as_slice(&self) -> &[u8]
        ensures { result.now ≡ self.now }
    {
        &self.items
    }

    /// The bytes as they were given.
    pub fn into_vec(self) -> Vec<u8>
        ensures { result.items ≡ self }
    {
        let ByteList { items } = self;
        items
    }
}
