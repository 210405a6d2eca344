//! The values that constants give nets.

ghost use Rattle.std.specs.Prelude.{◌≡◌, length, replicate, IfOk};
ghost use Rattle.ca_net.specs.declared.trit.Trit.TheVariants.{X};
ghost use Rattle.ca_every_vector.specs.code.Fixed.{AreFixed};

use crate::lists::give;
use ca_base::NoMemory;
use ca_net::Trit;
use ca_view::View;
use std::alloc::Global;

/// For each net the value that a constant gives it, or X.
pub(crate) fn fixed_values(alloc: Global, chip: &View<'_>) -> Result<Vec<Trit>, NoMemory>
    ensures { IfOk result (λ values. AreFixed chip.now.core values.items) }
{
    let mut values = vec![in alloc; Trit::X; chip.nets()]?;
    set_constants(chip, &mut values);
    Ok(values)
}

// Gives the nets of constants their values.
fn set_constants(chip: &View<'_>, values: &mut [Trit])
    requires { values.old ≡ replicate (length chip.now.core.nets) X }
    ensures { AreFixed chip.now.core values.new }
{
    chip.linked();
    let count = chip.constant_count();
    for k in 0..count {
        // The first constant of a net counts, so it comes last.
        let fixed = chip.constant(count - 1 - k);
        give(values, fixed.net, fixed.value);
    }
}
