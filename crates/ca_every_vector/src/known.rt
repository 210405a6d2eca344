//! Values that were checked are the last ones that a few bits of the last vector give.

ghost use Rattle.std.specs.Prelude.{◌≡◌, List};
ghost use Rattle.std.specs.List.{All};
ghost use Rattle.ca_net.specs.declared.trit.Trit.{Trit};
ghost use Rattle.ca_net.specs.State.{value_at};
ghost use Rattle.ca_flips.specs.Known.{AreKnownLasts};
ghost use Rattle.ca_every_vector.specs.code.Region.{AreFewInputs, AreKnownWithin, HaveDigits, IsForNumber};
ghost use Rattle.ca_every_vector.specs.code.Region.{IsGivenOrUnknown};

use ca_net::Trit;
use ca_view::View;

/// Values of which both checks hold are known lasts.
pub(crate) fn known_of_checks(
    chip: &View<'_>,
    inputs: &[u16],
    parts: &[u32],
    number: usize,
    values: &[Trit],
)
    requires inputs { AreFewInputs chip.now.core inputs.now }
    requires within { AreKnownWithin chip.now.core inputs.now parts.now values.now }
    requires digits { HaveDigits chip.now.core inputs.now number values.now }
    requires given { All (IsGivenOrUnknown chip.now.core values.now) parts.now }
    ensures { (pair : List Trit) → IsForNumber chip.now.core inputs.now number pair
        → AreKnownLasts chip.now.core pair (value_at values.now) }
{
    chip.linked();
    let _ = (inputs.len(), parts.len(), number, values.len());
}
