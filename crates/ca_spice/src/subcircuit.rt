//! Subcircuits that were read.

use ca_cell::RawCell;
use ca_lex::Text;

/// A subcircuit with its name.
#[derive(Drop)]
pub(crate) struct Subcircuit {
    pub name: Text,
    pub raw: RawCell,
}
