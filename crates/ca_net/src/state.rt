//! States of a network.

ghost use Rattle.std.specs.Prelude.{◌≡◌, ◌++◌, [], ◌∷◌, length, slice_set, OnOk, OnErr, IfOk, IsTrue, ◌↔◌};
ghost use Rattle.std.specs.Prelude.{◌<◌, replicate};
ghost use Rattle.ca_net.specs.State.{value_at};

use crate::trit::Trit;
use ca_base::NoMemory;
use std::alloc::Global;
use std::marker::Model;

/// A list of values, one per node of a network in the order of its nodes.
#[derive(Drop, Debug)]
pub struct State {
    values: Vec<Trit>,
}

impl Model for State {
    ghost use Rattle.std.specs.Prelude.{List};
    ghost use Rattle.ca_net.specs.declared.trit.Trit.{Trit};

    ghost Value = { List Trit };

    ghost view = { λ s. s.values.items };
}

impl State {
    /// The list of no values.
    pub fn new(alloc: Global) -> Self
        ensures { result ≡ [] }
    {
        State {
            values: Vec::new(alloc),
        }
    }

    /// A state in which no value is known: X at each of `nodes` nodes.
    pub fn unknown(alloc: Global, nodes: usize) -> Result<Self, NoMemory>
        ensures { IfOk result (λ state. state ≡ replicate nodes Trit.X) }
    {
        Ok(State {
            values: vec![in alloc; Trit::X; nodes]?,
        })
    }

    /// The number of values.
    pub fn len(&self) -> usize
        ensures { result ≡ length self.now }
    {
        self.values.len()
    }

    /// Whether there are no values.
    pub fn is_empty(&self) -> bool
        ensures { IsTrue result ↔ (self.now ≡ []) }
    {
        self.values.is_empty()
    }

    /// The value of the node at this place.
    pub fn get(&self, node: usize) -> Trit
        requires { node < length self.now }
        ensures { result ≡ value_at self.now node }
    {
        self.values[node]
    }

    /// Gives the node at this place a value.
    pub fn set(&mut self, node: usize, value: Trit)
        requires { node < length self.old }
        ensures { self.new ≡ slice_set self.old node value }
    {
        self.values[node] = value;
    }

    /// Appends the value of one more node.
    pub fn push(&mut self, value: Trit) -> Result<(), NoMemory>
        ensures ok { OnOk result (self.new ≡ self.old ++ value ∷ []) }
        ensures err { OnErr result (self.new ≡ self.old) }
    {
        Ok(self.values.push(value)?)
    }
}
