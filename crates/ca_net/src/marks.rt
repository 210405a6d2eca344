//! The room of a search for paths.

ghost use Rattle.std.specs.Prelude.{◌≡◌, IfOk, vec_len};

use ca_base::NoMemory;
use std::alloc::Global;
use std::marker::Model;

/// Room for a search in a network, which contracts see as the number of its nodes.
#[derive(Drop, Debug)]
pub struct Marks {
    // the strength of the strongest definite path to each node
    pub(crate) strongest: Vec<u8>,
    // the greatest strength with which a node was reached from one root
    pub(crate) reached: Vec<u8>,
    // which nodes are on the path in hand
    pub(crate) on_path: Vec<bool>,
}

impl Model for Marks {
    ghost use Rattle.std.specs.Prelude.{ℕ, ◌≡◌, vec_len};

    ghost Value = { ℕ };

    ghost view = { λ marks. vec_len marks.strongest };

    ghost invariant = { λ marks. (vec_len marks.reached ≡ vec_len marks.strongest)
        × (vec_len marks.on_path ≡ vec_len marks.strongest) };
}

impl Marks {
    /// Takes the room for a network of `nodes` nodes: three bytes a node.
    pub fn reserve(alloc: Global, nodes: usize) -> Result<Self, NoMemory>
        ensures { IfOk result (λ marks. marks ≡ nodes) }
    {
        Ok(Marks {
            strongest: vec![in alloc; 0u8; nodes]?,
            reached: vec![in alloc; 0u8; nodes]?,
            on_path: vec![in alloc; false; nodes]?,
        })
    }
}
