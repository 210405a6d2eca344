//! What a cell gives for definite vectors.

use ca_net::Trit;

/// The values of a cell's outputs for each definite vector of its inputs: output by output, and in each the
/// vectors as binary numbers, in which the first input has the highest digit.
#[derive(Drop)]
pub(crate) struct CellTable {
    pub(crate) inputs: usize,
    pub(crate) outputs: usize,
    pub(crate) values: Vec<Trit>,
}

impl CellTable {
    /// The value of an output for a vector; X if the table doesn't have it.
    pub(crate) fn value(&self, output: usize, vector: usize) -> Trit {
        let place = output
            .saturating_mul(vector_count(self.inputs))
            .saturating_add(vector);
        if place < self.values.len() {
            self.values[place]
        } else {
            Trit::X
        }
    }
}

/// The number of vectors of `inputs` inputs, up to six.
pub(crate) fn vector_count(inputs: usize) -> usize {
    match inputs {
        0 => 1,
        1 => 2,
        2 => 4,
        3 => 8,
        4 => 16,
        5 => 32,
        _ => 64,
    }
}
