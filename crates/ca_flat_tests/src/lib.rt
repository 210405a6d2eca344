//! Examples and tests of the definitions of chips, pairs and codes.
#![tactic(auto)]

mod laws;
#[cfg(test)]
mod tests;

pub use laws::{
    are_by_hand, bare_cells_are_cells, blind_is_ruled_out, inverter_is_chip, inverter_is_flat,
    keeper_is_by_hand, tied_reads, tied_support,
};
