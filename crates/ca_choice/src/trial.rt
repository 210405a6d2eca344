//! A trial of a bit before it is proposed.

use crate::ahead::Ahead;
use crate::followed::{Followed, FrameValue};
use crate::goals::Goals;
use crate::plan::Plan;
use crate::row_cubes::RowCubes;
use crate::row_goals::is_row_open;
use crate::scene::{BitValue, Scene};
use crate::sight::Sight;
use crate::wants::Wants;
use crate::ways::{Ways, best_output, showing_output};
use ca_base::NoMemory;
use std::alloc::Global;

/// The room of a trial.
#[derive(Drop)]
pub(crate) struct Trial {
    followed: Followed,
    ways: Ways,
}

impl Trial {
    /// The room for a chip.
    pub(crate) fn reserve(alloc: Global, plan: &Plan<'_>) -> Result<Self, NoMemory> {
        Ok(Trial {
            followed: Followed::reserve(alloc, plan)?,
            ways: Ways::reserve(alloc, plan)?,
        })
    }

    /// The bit with the opposite value, if the defect of the instance can still be seen with that and can't
    /// with the proposed one; else as it was proposed.
    pub(crate) fn better<S: Sight>(
        &mut self,
        scene: &Scene<'_, S>,
        rows: &mut RowCubes,
        part: u32,
        proposed: BitValue,
        goals: &mut Goals,
        wants: &mut Wants,
    ) -> BitValue {
        let opposite = BitValue {
            bit: proposed.bit,
            value: !proposed.value,
        };
        if self.is_open(scene, rows, part, proposed, goals, wants) {
            proposed
        } else if self.is_open(scene, rows, part, opposite, goals, wants) {
            opposite
        } else {
            proposed
        }
    }

    // Whether a way out and a row are in reach once a bit more is set.
    fn is_open<S: Sight>(
        &mut self,
        scene: &Scene<'_, S>,
        rows: &mut RowCubes,
        part: u32,
        set: BitValue,
        goals: &mut Goals,
        wants: &mut Wants,
    ) -> bool {
        let from = frame_value(scene.plan, set);
        self.followed.find(scene, part, from);
        let sight = Ahead {
            sight: scene.sight,
            followed: &self.followed,
            set,
            is_last: from.is_last,
        };
        let ahead = Scene {
            plan: scene.plan,
            prices: scene.prices,
            cone: scene.cone,
            sight: &sight,
            wants: scene.wants,
        };
        self.ways.find(&ahead);
        showing_output(&ahead, &self.ways, part).is_some()
            || (best_output(&ahead, &self.ways, part).is_some()
                && is_row_open(&ahead, rows, part, goals, wants))
    }
}

// A bit as a value of its input's net.
fn frame_value(plan: &Plan<'_>, set: BitValue) -> FrameValue {
    let inputs = plan.input_count();
    let is_last = set.bit >= inputs;
    let input = if is_last {
        set.bit.saturating_sub(inputs)
    } else {
        set.bit
    };
    FrameValue {
        net: plan.input(input),
        is_last,
        value: set.value,
    }
}
