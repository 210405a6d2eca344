//! The observed nets of a linked chip.

ghost use Rattle.std.specs.Prelude.{◌≡◌, IfOk};

use ca_base::NoMemory;
use ca_view::View;
use std::alloc::Global;

// The net of the core that each observed output is on.
pub(crate) fn output_nets(alloc: Global, view: &View<'_>) -> Result<Vec<u32>, NoMemory>
    ensures { IfOk result (λ nets. nets.items ≡ view.now.core.outputs) }
{
    view.linked();
    let mut nets = Vec::new(alloc);
    for output in 0..view.output_count() {
        nets.push(view.output(output) as u32)?;
    }
    Ok(nets)
}
