//! A chip as the choice keeps it.

use crate::cell_cubes::CellCubes;
use crate::cell_tables::cells_of;
use crate::cube::Cube;
use ca_base::NoMemory;
use ca_linked::{Chip, InstanceId};
use ca_view::View;
use std::alloc::Global;

/// What drives a net.
#[derive(Clone, Copy, Debug, PartialEq, Eq)]
pub(crate) enum Source {
    /// the chip input of this number
    Input(usize),
    /// an output pin of an instance
    Output { part: u32, output: usize },
    /// neither
    Other,
}

/// A chip, its instances in their order, the cubes of its cells by their places in the library, and what
/// drives each net. Instances and nets have the numbers of the chip's core.
#[derive(Drop)]
pub(crate) struct Plan<'a> {
    view: &'a View<'a>,
    order: Vec<u32>,
    cells: Vec<CellCubes>,
    sources: Vec<Source>,
}

impl<'a> Plan<'a> {
    /// The plan of a chip.
    pub(crate) fn new(alloc: Global, view: &'a View<'a>) -> Result<Self, NoMemory> {
        let cells = cubes_of(alloc, view.chip())?;
        let mut sources = vec![in alloc; Source::Other; view.nets()]?;
        mark_inputs(&mut sources, view.inputs());
        mark_all_outputs(&mut sources, view);
        Ok(Plan {
            view,
            order: order_of(alloc, view)?,
            cells,
            sources,
        })
    }

    /// The chip.
    pub(crate) fn view(&self) -> &'a View<'a> {
        self.view
    }

    /// The number of instances.
    pub(crate) fn part_count(&self) -> usize {
        self.view.instances()
    }

    /// The number of nets.
    pub(crate) fn net_count(&self) -> usize {
        self.sources.len()
    }

    /// The number of chip inputs.
    pub(crate) fn input_count(&self) -> usize {
        self.view.inputs().len()
    }

    /// The net of a chip input; one that isn't there if there is no such input.
    pub(crate) fn input(&self, input: usize) -> u32 {
        match self.view.inputs().get(input) {
            Some(net) => *net,
            None => u32::MAX,
        }
    }

    /// The instances in the order, in which each follows those that feed it.
    pub(crate) fn order(&self) -> &[u32] {
        &self.order
    }

    /// The place of an instance in the order.
    pub(crate) fn place(&self, part: u32) -> usize {
        if (part as usize) < self.view.instances() {
            self.view.rank(part as usize).saturating_sub(1)
        } else {
            0
        }
    }

    /// What drives the net.
    pub(crate) fn source(&self, net: u32) -> Source {
        match self.sources.get(net as usize) {
            Some(source) => *source,
            None => Source::Other,
        }
    }

    /// The nets of the instance's input pins.
    pub(crate) fn inputs(&self, part: u32) -> &[u32] {
        self.view.linked();
        if (part as usize) < self.view.instances() {
            self.view.input_pins(part)
        } else {
            &[]
        }
    }

    /// The nets of the instance's output pins.
    pub(crate) fn outputs(&self, part: u32) -> &[u32] {
        self.view.linked();
        if (part as usize) < self.view.instances() {
            self.view.output_pins(part)
        } else {
            &[]
        }
    }

    /// The cubes of the instance's cell, if it is one of the library.
    #[tactic(auto, using(ca_view::proofs::CoreFacts::core_count))]
    pub(crate) fn cubes(&self, part: u32) -> Option<&CellCubes> {
        self.view.viewed();
        let chip = self.view.chip();
        if (part as usize) < self.view.instances() && chip.is_library(InstanceId(part)) {
            self.cells.get(chip.library_place(InstanceId(part)))
        } else {
            None
        }
    }

    /// The cubes that bring the value to the instance's output.
    pub(crate) fn bringing(&self, part: u32, output: usize, value: bool) -> &[Cube] {
        match self.cubes(part) {
            Some(cubes) => cubes.bringing(output, value),
            None => &[],
        }
    }

    /// The cubes of the other pins under which the instance's output follows the pin.
    pub(crate) fn passing(&self, part: u32, output: usize, pin: usize) -> &[Cube] {
        match self.cubes(part) {
            Some(cubes) => cubes.passing(output, pin),
            None => &[],
        }
    }

    /// The value of an input pin in a cube of the instance's cell.
    pub(crate) fn literal(&self, part: u32, cube: Cube, pin: usize) -> Option<bool> {
        match self.cubes(part) {
            Some(cubes) => cube.literal(cubes.place(pin)),
            None => None,
        }
    }
}

// The cubes of each cell that an instance is of, found once.
fn cubes_of(alloc: Global, chip: &Chip) -> Result<Vec<CellCubes>, NoMemory> {
    let mut all = Vec::new(alloc);
    for cell in &cells_of(alloc, chip)? {
        all.push(CellCubes::new(alloc, cell)?)?;
    }
    Ok(all)
}

// The instances in their order.
fn order_of(alloc: Global, view: &View<'_>) -> Result<Vec<u32>, NoMemory> {
    view.linked();
    let mut order = vec![in alloc; u32::MAX; view.chip().instances()]?;
    for part in 0..view.instances() {
        let rank = view.rank(part);
        if 0 < rank && rank <= order.len() {
            order[rank - 1] = part as u32;
        }
    }
    Ok(order)
}

// Notes what drives a net.
fn mark(sources: &mut [Source], net: u32, source: Source) {
    let net = net as usize;
    if net < sources.len() {
        sources[net] = source;
    }
}

// Notes the nets of the chip inputs.
fn mark_inputs(sources: &mut [Source], inputs: &[u32]) {
    for (input, net) in inputs.iter().enumerate() {
        mark(sources, *net, Source::Input(input));
    }
}

// Notes the nets of all instances' outputs.
fn mark_all_outputs(sources: &mut [Source], view: &View<'_>) {
    view.linked();
    for part in 0..view.instances() {
        let part = part as u32;
        mark_outputs(sources, part, view.output_pins(part));
    }
}

// Notes the nets of an instance's outputs.
fn mark_outputs(sources: &mut [Source], part: u32, outputs: &[u32]) {
    for (output, net) in outputs.iter().enumerate() {
        mark(sources, *net, Source::Output { part, output });
    }
}
