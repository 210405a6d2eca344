//! The observed nets of a chip.

ghost use Rattle.std.specs.Prelude.{◌+◌, ◌^◌, ◌<◌, length, IfOk, OnOk};
ghost use Rattle.ca_judge.specs.code.Outputs.{AreObservedBelow};

use ca_base::NoMemory;
use ca_view::View;
use std::alloc::Global;

// Appends the next net if it is observed.
#[tactic(auto, using(crate::proofs::OutputLemmas::observed_push, crate::proofs::OutputLemmas::observed_skip))]
fn add_if_observed(view: &View<'_>, net: u32, nets: &mut Vec<u32>) -> Result<(), NoMemory>
    requires within { net < length view.now.lists.onward }
    requires before { AreObservedBelow view.now.lists.observed net nets.old.items }
    ensures { OnOk result (AreObservedBelow view.now.lists.observed (net + 1) nets.new.items) }
{
    if !view.is_observed(net) {
        return Ok(());
    }
    Ok(nets.push(net)?)
}

// The observed nets, in order.
#[tactic(auto, using(crate::proofs::OutputLemmas::observed_none))]
pub(crate) fn observed_nets(alloc: Global, view: &View<'_>) -> Result<Vec<u32>, NoMemory>
    ensures { IfOk result (λ nets. AreObservedBelow view.now.lists.observed
        (length view.now.lists.onward) nets.items) }
{
    view.linked();
    let mut nets = Vec::new(alloc);
    for net in 0..view.nets() {
        add_if_observed(view, net as u32, &mut nets)?;
    }
    Ok(nets)
}
