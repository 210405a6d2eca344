//! The instances of a scope that are due are evaluated.

ghost use Rattle.std.specs.Prelude.{◌≡◌, ◌≤◌, ◌<◌, ◌+◌, ◌^◌, Some};
ghost use Rattle.std.specs.Option.{ForSome};
ghost use Rattle.ca_flat.specs.Chip.{IsChipDefect, count_of};
ghost use Rattle.ca_view.specs.Linked.{IsPlaced, place_in};
ghost use Rattle.ca_places.specs.PlaceSet.{Has};
ghost use Rattle.ca_sim.specs.Network.{IsReady};
ghost use Rattle.ca_sim.specs.Simulator.{KeepsSeen};
ghost use Rattle.ca_confined.specs.Confined.{IsSimOf};
ghost use Rattle.ca_confined.specs.code.Settle.{IsSettledIn, IsTwinIn};

use crate::next::next_in;
use ca_flat::ChipDefect;
use ca_places::PlaceSet;
use ca_response::{OutWaves, PinWaves};
use ca_sim::{Network, Sim};
use ca_view::View;

/// Evaluates the instances of a scope that are due, in the order, until none of them is. Where there is a
/// good network beside this one, and an instance has its waves at the input pins and no defect, the instance
/// has them at the output pins too.
pub(crate) fn settle(
    network: &mut Network,
    chip: &View,
    aim: Option<ChipDefect>,
    twin: Option<&Network>,
    scope: &PlaceSet,
    sim: &mut Sim,
)
    requires listed { IsChipDefect chip.now.core aim }
    requires ready { IsReady chip.now.core (place_in chip.now.ranks) network.old }
    requires twin { ForSome twin (λ good. IsTwinIn chip.now.core (place_in chip.now.ranks) scope.now
        good.now) }
    requires sim { IsSimOf chip.now.core chip.now.ranks sim.old }

    ensures settled { IsSettledIn chip.now.core (place_in chip.now.ranks) aim scope.now
        network.old network.new }
    ensures kept { KeepsSeen sim.old sim.new }
{
    chip.linked();
    let end = chip.instances() + 1;
    let mut from = 0;
    while let Some(place) = next_in(&network.due, scope, from, end) {
        network.due.remove(place);
        let u = chip.order(place);
        let pins = network.input_waves(chip, u);
        let outputs = respond_beside(chip, u, aim, pins, twin, sim);
        network.write(chip, u, outputs.as_slice());
        from = place + 1;
    }
}

ghost use Rattle.std.specs.Prelude.{length};
ghost use Rattle.std.specs.List.{All};
ghost use Rattle.ca_net.specs.Wave.{IsWave};
ghost use Rattle.ca_response.specs.Gives.{Gives};
ghost use Rattle.ca_flat.specs.Chip.{cell_at, inputs_at};
ghost use Rattle.ca_flat.specs.Flat.{circuit_in};
ghost use Rattle.ca_sim.specs.Network.{IsTwinAt};

// How an instance responds: as in the good network, if it can.
fn respond_beside(
    chip: &View,
    u: usize,
    aim: Option<ChipDefect>,
    pins: PinWaves,
    twin: Option<&Network>,
    sim: &mut Sim,
) -> OutWaves
    requires placed { IsPlaced chip.now.core (place_in chip.now.ranks) u }
    requires listed { IsChipDefect chip.now.core aim }
    requires pins { length pins.items ≡ inputs_at chip.now.core u }
    requires waves { All IsWave pins.items }
    requires twin { ForSome twin (λ good. IsTwinAt chip.now.core u good.now) }
    requires sim { IsSimOf chip.now.core chip.now.ranks sim.old }

    ensures gives { Gives (cell_at chip.now.core u) (circuit_in chip.now.core aim u) pins.items
        result.items }
    ensures waves { All IsWave result.items }
    ensures kept { KeepsSeen sim.old sim.new }
{
    if let Some(good) = twin {
        if let Some(outputs) = good.twin_outputs(chip, u, aim, pins.as_slice()) {
            return outputs;
        }
    }
    sim.respond(u, aim, pins)
}
