//! Codes that are kept.

ghost use Rattle.std.specs.Prelude.{◌≡◌, ◌<◌, ◌++◌, [], ◌∷◌, length, slice_get, Some};
ghost use Rattle.std.specs.Prelude.{IfOk, OnOk, OnErr};
ghost use Rattle.ca_code.specs.Tokens.{tokens_of, IsNarrow};

use crate::token::{packed, unpacked};
use ca_base::NoMemory;
use ca_flat::Token;
use std::alloc::Global;
use std::marker::Model;

/// The tokens of a code, in preorder, each in two bytes.
#[derive(Drop, Debug)]
pub struct Code {
    numbers: Vec<u16>,
}

impl Model for Code {
    ghost use Rattle.std.specs.Prelude.{List};
    ghost use Rattle.ca_flat.specs.declared.token.Token.{Token};
    ghost use Rattle.ca_code.specs.Tokens.{tokens_of};

    ghost Value = { List Token };

    ghost view = { λ code. tokens_of code.numbers.items };
}

impl Code {
    /// The code of no tokens. It takes no memory.
    pub fn new(alloc: Global) -> Self
        ensures { result ≡ [] }
    {
        Code {
            numbers: Vec::new(alloc),
        }
    }

    /// The code of these numbers.
    pub fn of(alloc: Global, numbers: &[u16]) -> Result<Self, NoMemory>
        ensures { IfOk result (λ code. code ≡ tokens_of numbers.now) }
    {
        Ok(Code {
            numbers: numbers.to_vec(alloc)?,
        })
    }

    /// The same code once more.
    pub fn copy(&self, alloc: Global) -> Result<Self, NoMemory>
        ensures { IfOk result (λ code. code ≡ self.now) }
    {
        Ok(Code {
            numbers: self.numbers.to_vec(alloc)?,
        })
    }

    /// Appends a token.
    #[tactic(auto, using(crate::proofs::TokenLemmas::tokens_push))]
    pub fn push(&mut self, token: Token) -> Result<(), NoMemory>
        requires { IsNarrow token }
        ensures ok { OnOk result (self.new ≡ self.old ++ token ∷ []) }
        ensures err { OnErr result (self.new ≡ self.old) }
    {
        Ok(self.numbers.push(packed(token))?)
    }

    /// The number of tokens.
    #[tactic(auto, using(crate::proofs::TokenLemmas::tokens_counted))]
    pub fn len(&self) -> usize
        ensures { result ≡ length self.now }
    {
        self.numbers.len()
    }

    /// The token at this place, counted from 0.
    pub fn get(&self, place: usize) -> Token
        requires { place < length self.now }
        ensures { slice_get self.now place ≡ Some result }
    {
        unpacked(self.numbers[place])
    }
}
