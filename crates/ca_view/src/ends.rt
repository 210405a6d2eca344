//! The nets of the chip inputs and of the observed outputs.

ghost use Rattle.std.specs.Prelude.{◌≡◌, ◌<◌, length, IfOk};
ghost use Rattle.std.specs.List.{All};
ghost use Rattle.ca_view.specs.Core.{core_of};
ghost use Rattle.ca_view.specs.Numbers.{AreCoreNumbers};
ghost use Rattle.ca_view.specs.code.Ends.{AreMarked};

use crate::nets::CoreNets;
use ca_base::NoMemory;
use ca_linked::Chip;
use std::alloc::Global;

/// The net of each chip input.
pub(crate) fn input_nets(
    alloc: Global,
    chip: &Chip,
    numbers: &CoreNets,
) -> Result<Vec<u32>, NoMemory>
    requires { AreCoreNumbers chip.now numbers.now }
    ensures { IfOk result (λ nets. nets.items ≡ (core_of chip.now).inputs) }
{
    chip.wired();
    let mut nets = Vec::new(alloc);
    for i in 0..chip.inputs() {
        nets.push(numbers.get(chip.input(i)))?;
    }
    Ok(nets)
}

/// The net of each observed output.
pub(crate) fn output_nets(
    alloc: Global,
    chip: &Chip,
    numbers: &CoreNets,
) -> Result<Vec<u32>, NoMemory>
    requires { AreCoreNumbers chip.now numbers.now }
    ensures { IfOk result (λ nets. nets.items ≡ (core_of chip.now).outputs) }
{
    chip.wired();
    let mut nets = Vec::new(alloc);
    for o in 0..chip.outputs() {
        nets.push(numbers.get(chip.output(o)))?;
    }
    Ok(nets)
}

/// The marks of a given number of nets, of which those that are listed are set.
pub(crate) fn marks_of(alloc: Global, count: usize, nets: &[u32]) -> Result<Vec<bool>, NoMemory>
    requires { All (λ net. net < count) nets.now }
    ensures { IfOk result (λ marks. AreMarked count nets.now marks.items) }
{
    let mut marks = vec![in alloc; false; count]?;
    for net in nets {
        marks[*net as usize] = true;
    }
    Ok(marks)
}
