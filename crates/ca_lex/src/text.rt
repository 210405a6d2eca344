//! A text: bytes in order, of any values.
ghost use Rattle.std.specs.Prelude.{◌≡◌, ◌↔◌, ℕ, List, [], ◌∷◌, ◌++◌, length, IsTrue, IfOk, OnOk, OnErr};
ghost use Rattle.std.specs.Str.{bytes_eq};
ghost use Rattle.std.specs.Cmp.Rules.{comparing};
ghost use Rattle.std.proofs.Common.{rules};

use ca_base::NoMemory;
use std::alloc::Global;
use std::marker::Model;

/// Bytes in order. Contracts see a text as the list of its bytes.
#[derive(Drop)]
pub struct Text {
    bytes: Vec<u8>,
}

impl Model for Text {
    ghost Value = { List ℕ };

    ghost view = { λ text. text.bytes.items };
}

impl Text {
    /// The text of no bytes.
    pub fn new(alloc: Global) -> Self
        ensures { result ≡ [] }
    {
        Text {
            bytes: Vec::new(alloc),
        }
    }

    /// A copy of these bytes.
    pub fn from_bytes(alloc: Global, bytes: &[u8]) -> Result<Self, NoMemory>
        ensures ok { IfOk result (λ text. text ≡ bytes.now) }
    {
        Ok(Text {
            bytes: bytes.to_vec(alloc)?,
        })
    }

    /// The text of this vector's bytes, which takes the vector over.
    pub fn from_vec(bytes: Vec<u8>) -> Self
        ensures { result ≡ bytes.items }
    {
        Text { bytes }
    }

    /// The bytes as a slice.
    pub fn as_bytes(&self) -> &[u8]
        ensures { result.now ≡ self.now }
    {
        &self.bytes
    }

    /// The number of bytes.
    pub fn len(&self) -> usize
        ensures { result ≡ length self.now }
    {
        self.bytes.len()
    }

    /// Whether there are no bytes.
    pub fn is_empty(&self) -> bool
        ensures { IsTrue result ↔ (self.now ≡ []) }
    {
        self.bytes.is_empty()
    }

    /// Adds a byte at the end.
    pub fn push(&mut self, byte: u8) -> Result<(), NoMemory>
        ensures ok { OnOk result (self.new ≡ self.old ++ byte ∷ []) }
        ensures err { OnErr result (self.new ≡ self.old) }
    {
        Ok(self.bytes.push(byte)?)
    }

    /// Adds bytes at the end, in their order.
    pub fn append(&mut self, bytes: &[u8]) -> Result<(), NoMemory>
        ensures ok { OnOk result (self.new ≡ self.old ++ bytes.now) }
        ensures err { OnErr result (self.new ≡ self.old) }
    {
        Ok(self.bytes.extend_from_slice(bytes)?)
    }

    /// A text of its own with the same bytes.
    pub fn copy(&self, alloc: Global) -> Result<Self, NoMemory>
        ensures ok { IfOk result (λ text. text ≡ self.now) }
    {
        Text::from_bytes(alloc, &self.bytes)
    }

    /// Whether these are the text's bytes.
    pub fn is(&self, bytes: &[u8]) -> bool
        ensures { IsTrue result ↔ (self.now ≡ bytes.now) }
    {
        self.bytes.as_slice() == bytes
    }
}

impl PartialEq for Text {
    ghost eq = { λ a b. bytes_eq a b };

    ghost laws = { Prim.search (comparing, rules) };

    fn eq(&self, other: &Self) -> bool {
        self.bytes == other.bytes
    }
}

impl Eq for Text {
    ghost laws = { Prim.search (comparing, rules) };
}
