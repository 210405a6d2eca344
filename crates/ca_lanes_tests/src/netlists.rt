//! Two netlists of four instances each, and pairs.

use ca_base::NoMemory;
use ca_lanes::{Constant, GoodRows, Instance, Netlist};
use ca_net::Trit;
use ca_pair::Pair;
use std::alloc::Global;

const ZERO: Trit = Trit::Zero;

const ONE: Trit = Trit::One;

const X: Trit = Trit::X;

// The number of nets: a, b, one that is never known, and the outputs of the instances.
pub(crate) const NETS: usize = 7;

// The rows of an inverter, of one that pulls up only and so keeps what it had, and of a NAND gate.
const INV: [Trit; 4] = [ONE, ZERO, ONE, ZERO];

const KEEPER: [Trit; 4] = [ONE, ONE, ONE, X];

const NAND: [Trit; 16] = [
    ONE, ONE, ONE, ZERO, ONE, ONE, ONE, ZERO, ONE, ONE, ONE, ZERO, ONE, ONE, ONE, ZERO,
];

// The rows of a cell that pulls up where its first pin is 0 and down where its second one is 1, and else
// keeps what it had.
const KEEP: [Trit; 16] = [
    ONE, X, ONE, ZERO, ONE, X, X, ZERO, ONE, X, X, ZERO, ONE, X, ZERO, ZERO,
];

// The good rows of the four cells.
pub(crate) fn good_rows(alloc: Global) -> Result<Vec<GoodRows>, NoMemory> {
    let mut goods = Vec::new(alloc);
    goods.push(GoodRows::new(alloc, 1, 1, Vec::from_array(alloc, INV)?)?)?;
    goods.push(GoodRows::new(alloc, 1, 1, Vec::from_array(alloc, KEEPER)?)?)?;
    goods.push(GoodRows::new(alloc, 2, 1, Vec::from_array(alloc, NAND)?)?)?;
    goods.push(GoodRows::new(alloc, 2, 1, Vec::from_array(alloc, KEEP)?)?)?;
    Ok(goods)
}

// Net 3 is the NAND of a and b, net 4 its inverse, net 5 the NAND of that and the unknown net, and net 6 what
// the keeper makes of a. The instances are listed from the last to the first.
pub(crate) fn netlist(alloc: Global) -> Result<Netlist, NoMemory> {
    let mut instances = Vec::new(alloc);
    instances.push(Instance {
        cell: 1,
        pins: Vec::from_array(alloc, [0, 6])?,
    })?;
    instances.push(Instance {
        cell: 2,
        pins: Vec::from_array(alloc, [4, 2, 5])?,
    })?;
    instances.push(Instance {
        cell: 0,
        pins: Vec::from_array(alloc, [3, 4])?,
    })?;
    instances.push(Instance {
        cell: 2,
        pins: Vec::from_array(alloc, [0, 1, 3])?,
    })?;
    let unknown = Constant { net: 2, value: X };
    Ok(Netlist {
        inputs: Vec::from_array(alloc, [0, 1])?,
        constants: Vec::from_array(alloc, [unknown])?,
        instances,
        order: Vec::from_array(alloc, [3, 0, 2, 1])?,
    })
}

// Net 3 is the inverse of b, net 4 the NAND of both, which has a hazard where b changes, net 5 its inverse,
// and net 6 what the fourth cell makes of a and that.
pub(crate) fn hazard(alloc: Global) -> Result<Netlist, NoMemory> {
    let mut instances = Vec::new(alloc);
    for (cell, first, second) in [(0, 1, 3), (0, 4, 5)] {
        instances.push(Instance {
            cell,
            pins: Vec::from_array(alloc, [first, second])?,
        })?;
    }
    for (cell, first, second, output) in [(2, 1, 3, 4), (3, 0, 5, 6)] {
        instances.push(Instance {
            cell,
            pins: Vec::from_array(alloc, [first, second, output])?,
        })?;
    }
    Ok(Netlist {
        inputs: Vec::from_array(alloc, [0, 1])?,
        constants: Vec::new(alloc),
        instances,
        order: Vec::from_array(alloc, [0, 2, 1, 3])?,
    })
}

// `count` pairs: those of the table over and over.
pub(crate) fn some_pairs(
    alloc: Global,
    table: &[[bool; 4]],
    count: usize,
) -> Result<Vec<Pair>, NoMemory> {
    let mut pairs = Vec::new(alloc);
    for place in 0..count {
        let mut pair = Pair::new(alloc);
        if !table.is_empty() {
            for bit in table[place % table.len()] {
                pair.push(bit)?;
            }
        }
        pairs.push(pair)?;
    }
    Ok(pairs)
}
