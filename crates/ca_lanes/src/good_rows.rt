//! The good values of a cell's rows.

ghost use Rattle.std.specs.Prelude.{◌≡◌, ◌^◌, ◌≤◌, length, IfOk};
ghost use Rattle.ca_cell.specs.declared.rule.TheConstants.{MOST_INPUTS};
ghost use Rattle.ca_lanes.specs.GoodRows.{AreRows};
ghost use Rattle.ca_lanes.specs.code.Given.{AreLikeNext};

use crate::alike::are_alike;
use ca_base::NoMemory;
use ca_net::Trit;
use std::alloc::Global;

/// What the good cell ends with at each output for each pair of its vectors, X where runs differ: by the
/// number of the first vector, then that of the last one, then the output.
#[derive(Drop)]
pub struct GoodRows {
    pub(crate) inputs: usize,
    pub(crate) outputs: usize,
    pub(crate) values: Vec<Trit>,
    // whether the rows of a first vector have the values of those of the next one
    pub(crate) like_next: Vec<bool>,
    ghost few_inputs: { inputs ≤ MOST_INPUTS },
    ghost rows: { AreRows values.items (2 ^ inputs) outputs },
    ghost marks: { length like_next.items ≡ 2 ^ inputs },
    ghost like: { AreLikeNext values.items (2 ^ inputs) outputs like_next.items },
}

impl GoodRows {
    ghost use Rattle.ca_lanes.specs.Netlist.{HasRows};

    /// The rows of a cell with `inputs` inputs and `outputs` outputs.
    pub fn new(
        alloc: Global,
        inputs: usize,
        outputs: usize,
        values: Vec<Trit>,
    ) -> Result<Self, NoMemory>
        requires few { inputs ≤ MOST_INPUTS }
        requires rows { AreRows values.items (2 ^ inputs) outputs }
        ensures { IfOk result (HasRows inputs outputs values.items) }
    {
        let count = 2usize.pow(inputs as u32);
        let mut like_next = Vec::with_capacity(alloc, count)?;
        for first in 0..count {
            like_next.push_reserved(first + 1 < count && are_alike(&values, count, outputs, first));
        }
        Ok(GoodRows {
            inputs,
            outputs,
            values,
            like_next,
        })
    }

    /// The number of the cell's input pins.
    pub fn inputs(&self) -> usize
        ensures { result ≡ self.now.inputs }
    {
        self.inputs
    }

    /// The number of its output pins.
    pub fn outputs(&self) -> usize
        ensures { result ≡ self.now.outputs }
    {
        self.outputs
    }
}
