//! A run of a linked chip, and what it ends with at the observed outputs.

ghost use Rattle.std.specs.Prelude.{◌≡◌, ◌+◌, ◌<◌, ◌≤◌, length, map, slice_index, IfOk};
ghost use Rattle.std.specs.List.{All};
ghost use Rattle.ca_net.specs.State.{value_at};
ghost use Rattle.ca_flat.specs.Flat.{flat};
ghost use Rattle.ca_flat.specs.Chip.{IsChipDefect};
ghost use Rattle.ca_flat.specs.Pair.{bit_count, first_vector, last_vector};
ghost use Rattle.ca_order.specs.Allowed.{meaning, IsAllowed, ReadsFor};
ghost use Rattle.ca_chip_replay.specs.ChipRun.{AreReplayed};
ghost use Rattle.ca_chip_replay.specs.code.Kept.{AreOutputValues};

use crate::input_nodes::input_nodes;
use crate::vectors::vector_of;
use ca_base::{List, NoMemory};
use ca_flat::ChipDefect;
use ca_flatten::flatten;
use ca_net::{FlatNet, Network, NodeId, State, Trit};
use ca_order::{Event, OrderFault, read_order_for};
use ca_replay::replay;
use ca_sim::Bits;
use ca_view::View;
use std::alloc::Global;
use std::marker::Model;

/// A linked chip, good or with one of its defects, and a pair between whose vectors one run is replayed,
/// event by event.
#[derive(Drop)]
pub struct ChipRun<'a, B: Bits> {
    view: &'a View<'a>,
    defect: Option<ChipDefect>,
    pair: &'a B,
    net: FlatNet,
    inputs: Vec<NodeId>,
    first: State,
    last: State,
}

impl<'a, B: Bits> Model for ChipRun<'a, B> {
    ghost use Rattle.ca_chip_replay.specs.ChipRun.{RunOf};
    ghost use Rattle.ca_chip_replay.specs.code.Kept.{IsReady};

    ghost Value = { RunOf };

    ghost view = { λ run. record {
      chip = run.view.now.core;
      given = run.defect;
      pair = B.bits run.pair.now;
    } };

    ghost invariant = { λ run. IsReady (record {
      chip = run.view.now.core;
      given = run.defect;
      pair = B.bits run.pair.now;
    }) run.net run.inputs.items run.first run.last };
}

// The values of the observed outputs in a state of the flat network.
fn output_values(alloc: Global, view: &View<'_>, end: &State) -> Result<Vec<Trit>, NoMemory>
    requires { 2 + length view.now.core.nets ≤ length end.now }
    ensures { IfOk result (λ values. AreOutputValues view.now.core end.now values.items) }
{
    view.linked();
    let mut values = Vec::new(alloc);
    for o in 0..view.output_count() {
        values.push(end.get(2 + view.output(o)))?;
    }
    Ok(values)
}

impl<'a, B: Bits> ChipRun<'a, B> {
    /// The runs of a chip for the pair, good or with the defect. Also answers out of memory for a chip whose
    /// flat network may have 2^32 nodes or devices.
    pub fn new(
        alloc: Global,
        view: &'a View<'a>,
        defect: Option<ChipDefect>,
        pair: &'a B,
    ) -> Result<Self, NoMemory>
        requires defect { IsChipDefect view.now.core defect }
        requires pair { length (B.bits pair.now) ≡ bit_count view.now.core }
        ensures { IfOk result (λ run. run
            ≡ record { chip = view.now.core; given = defect; pair = B.bits pair.now }) }
    {
        view.viewed();
        view.linked();
        let net = flatten(alloc, view.chip(), defect)?;
        let nodes = net.node_count();
        let Ok(inputs) = input_nodes(alloc, view) else {
            drop(net);
            return Err(NoMemory);
        };
        let Ok(first) = vector_of(alloc, view, nodes, pair, 0) else {
            drop(net);
            return Err(NoMemory);
        };
        let Ok(last) = vector_of(alloc, view, nodes, pair, view.input_count()) else {
            drop(net);
            return Err(NoMemory);
        };
        Ok(ChipRun {
            view,
            defect,
            pair,
            net,
            inputs,
            first,
            last,
        })
    }

    /// The events that an order file names: what is done to the flat network between the two vectors.
    pub fn read(&self, alloc: Global, bytes: &[u8]) -> Result<List<Event>, OrderFault>
        ensures exact { ReadsFor (flat self.now.chip self.now.given)
            (first_vector self.now.chip self.now.pair)
            (last_vector self.now.chip self.now.pair) bytes.now result }
        ensures allowed { IfOk result (All (IsAllowed (flat self.now.chip self.now.given)
            (first_vector self.now.chip self.now.pair) (last_vector self.now.chip self.now.pair))) }
    {
        read_order_for(alloc, &self.net, &self.first, &self.last, bytes)
    }

    /// What the observed outputs end with, in their order, in the run that the events name: a long phase
    /// under the first vector from unknown storage nodes, the events, the chip inputs set to the last vector
    /// in their order, and a long phase.
    pub fn replay(&self, alloc: Global, events: &[Event]) -> Result<Vec<Trit>, NoMemory>
        requires { All (IsAllowed (flat self.now.chip self.now.given)
            (first_vector self.now.chip self.now.pair) (last_vector self.now.chip self.now.pair)) events.now }
        ensures { IfOk result
            (λ values. AreReplayed self.now (map meaning events.now) values.items) }
    {
        let end = replay(
            alloc,
            &self.net,
            &self.inputs,
            &self.first,
            &self.last,
            events,
        )?;
        output_values(alloc, self.view, &end)
    }
}
