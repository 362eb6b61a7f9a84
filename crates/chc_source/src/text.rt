//! A growing text of bytes.

ghost use Rattle.std.specs.Prelude.{◌≡◌, [], ◌∷◌, ◌++◌, length, OnOk, OnErr};

use chc_sorts::NoMemory;
use std::alloc::Global;
use std::marker::Model;

/// A text of bytes of any kind. Contracts see it as the list of its bytes.
#[derive(Debug, Drop)]
pub struct ByteText {
    bytes: Vec<u8>,
}

impl Model for ByteText {
    ghost use Rattle.std.specs.Prelude.{List, ℕ};
    ghost use Rattle.std.specs.Coded.{coded_list, coded_ℕ};

    ghost Value = { List ℕ };

    ghost coded = { coded_list coded_ℕ };

    ghost view = { λ t. t.bytes.items };
}

impl ByteText {
    /// The empty text, which will grow on `alloc`. It takes no memory yet.
    pub fn new(alloc: Global) -> ByteText
        ensures { result ≡ [] }
    {
        ByteText {
            bytes: Vec::new(alloc),
        }
    }

    /// How many bytes there are.
    pub fn len(&self) -> usize
        ensures { result ≡ length self.now }
    {
        self.bytes.len()
    }

    /// Adds one byte at the end. Where memory is refused the text stays as it was.
    pub fn push(&mut self, b: u8) -> Result<(), NoMemory>
        ensures added { OnOk result (self.new ≡ self.old ++ b ∷ []) }
        ensures same { OnErr result (self.new ≡ self.old) }
    {
        match self.bytes.push(b) {
            Ok(()) => Ok(()),
            Err(_refused) => Err(NoMemory),
        }
    }

    /// Adds all of `bytes` at the end. Where memory is refused the text stays as it was.
    pub fn extend(&mut self, bytes: &[u8]) -> Result<(), NoMemory>
        ensures added { OnOk result (self.new ≡ self.old ++ bytes.now) }
        ensures same { OnErr result (self.new ≡ self.old) }
    {
        match self.bytes.extend_from_slice(bytes) {
            Ok(()) => Ok(()),
            Err(_refused) => Err(NoMemory),
        }
    }

    /// The bytes, in order.
    pub fn bytes(&self) -> &[u8]
        ensures { result.now ≡ self.now }
    {
        self.bytes.as_slice()
    }
}
