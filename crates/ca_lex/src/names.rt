//! A list of texts.
ghost use Rattle.std.specs.Prelude.{◌≡◌, ◌<◌, ◌↔◌, ℕ, List, [], ◌∷◌, ◌++◌, length, slice_get, IsTrue, IfOk};
ghost use Rattle.std.specs.Prelude.{OnOk, OnErr};

use crate::Text;
use ca_base::NoMemory;
use std::alloc::Global;
use std::marker::Model;

/// Texts in order. Contracts see them as a list, and each text as the list of its bytes.
#[derive(Drop)]
pub struct Names {
    names: Vec<Text>,
}

impl Model for Names {
    ghost Value = { List (List ℕ) };

    ghost view = { λ names. names.names.items };
}

impl Names {
    /// The list of no texts.
    pub fn new(alloc: Global) -> Self
        ensures { result ≡ [] }
    {
        Names {
            names: Vec::new(alloc),
        }
    }

    /// The number of texts.
    pub fn len(&self) -> usize
        ensures { result ≡ length self.now }
    {
        self.names.len()
    }

    /// Whether there are no texts.
    pub fn is_empty(&self) -> bool
        ensures { IsTrue result ↔ (self.now ≡ []) }
    {
        self.names.is_empty()
    }

    /// The text at a place, counted from 0.
    pub fn get(&self, place: usize) -> &Text
        requires { place < length self.now }
        ensures { slice_get self.now place ≡ Some result.now }
    {
        &self.names[place]
    }

    /// The texts as a slice.
    pub fn as_slice(&self) -> &[Text]
        ensures { result.now ≡ self.now }
    {
        &self.names
    }

    /// A list of its own with the same texts.
    pub fn copy(&self, alloc: Global) -> Result<Self, NoMemory>
        ensures ok { IfOk result (λ names. names ≡ self.now) }
    {
        let mut names = Names::new(alloc);
        for name in self.as_slice() {
            names.push(name.copy(alloc)?)?;
        }
        Ok(names)
    }

    /// Adds a text at the end. A text that finds no memory is dropped.
    pub fn push(&mut self, name: Text) -> Result<(), NoMemory>
        ensures ok { OnOk result (self.new ≡ self.old ++ name ∷ []) }
        ensures err { OnErr result (self.new ≡ self.old) }
    {
        Ok(self.names.push(name)?)
    }
}
