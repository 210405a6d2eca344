//! The choice.

ghost use Rattle.ca_guide.specs.Seen.{Covers};

use crate::cone::Cone;
use crate::goal::Goal;
use crate::goals::Goals;
use crate::past::Past;
use crate::plan::Plan;
use crate::prices::Prices;
use crate::route::Route;
use crate::row_cubes::RowCubes;
use crate::row_goals::{add_cheapest_row, unknown_pin, want_row};
use crate::scene::{BitValue, Scene};
use crate::sight::{GuideSight, Sight};
use crate::trial::Trial;
use crate::tries::Tries;
use crate::wants::Wants;
use crate::ways::{Asked, Ways, best_output, showing_output};
use ca_base::NoMemory;
use ca_cell::Rows;
use ca_flat::ChipDefect;
use ca_guide::{Attempt, Choice, Guide, NetWaves, Proposal};
use ca_view::View;
use std::alloc::Global;

// The most goals of a row: two for each of six pins.
const MOST_ROW_GOALS: usize = 12;

/// A choice of the next bit: it wants the cheapest row of the defect and the cheapest way out, and of these
/// the costliest value first. A value after which the defect couldn't be seen gives way to the opposite one.
/// All memory is taken by `reserve`.
#[derive(Drop)]
pub struct CheapestWay<'a> {
    plan: Plan<'a>,
    prices: Prices,
    rows: RowCubes,
    cone: Cone,
    ways: Ways,
    // the plan of the decision, and what it implies
    goals: Goals,
    wants: Wants,
    // that of a decision without a plan
    nothing: Wants,
    trial: Trial,
    // the way, the plan and the bits of an attempt
    route: Route,
    aims: Goals,
    tries: Tries,
    past: Past,
    // the defect of the rows, and the instance of the cone
    defect: Option<ChipDefect>,
    part: Option<u32>,
}

impl<'a> CheapestWay<'a> {
    /// Takes all memory for a chip, and finds the cubes of its cells and the costs of its nets.
    pub fn reserve(alloc: Global, view: &'a View<'a>) -> Result<Self, NoMemory> {
        let plan = Plan::new(alloc, view)?;
        let prices = Prices::new(alloc, &plan)?;
        Ok(CheapestWay {
            rows: RowCubes::reserve(alloc)?,
            cone: Cone::reserve(alloc, &plan)?,
            ways: Ways::reserve(alloc, &plan)?,
            goals: Goals::reserve(alloc, plan.net_count().saturating_add(MOST_ROW_GOALS))?,
            wants: Wants::reserve(alloc, plan.net_count())?,
            nothing: Wants::reserve(alloc, 0)?,
            trial: Trial::reserve(alloc, &plan)?,
            route: Route::reserve(alloc, &plan, &prices)?,
            aims: Goals::reserve(alloc, plan.net_count().saturating_add(MOST_ROW_GOALS))?,
            tries: Tries::reserve(alloc, plan.input_count().saturating_mul(2))?,
            past: Past::reserve(alloc)?,
            plan,
            prices,
            defect: None,
            part: None,
        })
    }

    // Turns to the rows of a defect, if it is another one than before.
    fn turn_to(&mut self, defect: ChipDefect, rows: &Rows) {
        if self.defect == Some(defect) {
            return;
        }
        self.defect = Some(defect);
        self.past.turn_to(defect.instance, rows);
        self.aims.clear();
        self.rows
            .find(rows, self.plan.inputs(defect.instance).len());
    }

    // Turns to the cone of an instance, if it is another one than before.
    fn turn_to_cone(&mut self, part: u32) {
        if self.part == Some(part) {
            return;
        }
        self.part = Some(part);
        self.cone.find(&self.plan, part);
    }

    // The next bit of an attempt. The plan is kept as long as the waves don't contradict it and it wants a
    // bit.
    fn next_bit<S: Sight>(&mut self, sight: &S, part: u32) -> Option<BitValue> {
        let scene = Scene {
            plan: &self.plan,
            prices: &self.prices,
            cone: &self.cone,
            sight,
            wants: &self.nothing,
        };
        if !self.aims.is_broken(&scene) {
            if let Some(found) = bit_of(&scene, &self.aims) {
                return Some(found);
            }
        }
        if !aim_anew(
            &scene,
            &mut self.rows,
            &mut self.route,
            part,
            &mut self.aims,
        ) {
            return None;
        }
        bit_of(&scene, &self.aims)
    }

    // A bit that brings the defect nearer to being seen.
    fn bit<S: Sight>(&mut self, sight: &S, part: u32) -> Option<BitValue> {
        let scene = Scene {
            plan: &self.plan,
            prices: &self.prices,
            cone: &self.cone,
            sight,
            wants: &self.nothing,
        };
        let net = want_output(
            &scene,
            part,
            &mut self.rows,
            &mut self.ways,
            &mut self.goals,
            &mut self.wants,
        )?;
        self.wants.add_each(&scene, &self.goals);
        let planned = scene.wanting(&self.wants);
        let goal = match self.goals.costliest(&planned) {
            Some(goal) => goal,
            None => unmet_goal(&scene, &planned, part, net, &self.ways, &mut self.goals)?,
        };
        let proposed = planned.backtrace(goal)?;
        Some(
            self.trial.better(
                &scene,
                &mut self.rows,
                part,
                proposed,
                &mut self.goals,
                &mut self.wants,
            ),
        )
    }
}

// The net of an observed output at which the defect may show, and the goals of a plan for it: the nearest
// ones where it shows at its instance, and else those of a row that isn't met, and of all of the way.
fn want_output<S: Sight>(
    scene: &Scene<'_, S>,
    part: u32,
    rows: &mut RowCubes,
    ways: &mut Ways,
    goals: &mut Goals,
    wants: &mut Wants,
) -> Option<u32> {
    goals.clear();
    wants.clear();
    ways.find(scene);
    if let Some(net) = showing_output(scene, ways, part) {
        ways.add_goals(scene, net, Asked::Nearest, goals);
        return Some(net);
    }
    if !want_row(scene, rows, part, goals, wants) {
        return None;
    }
    let planned = Scene {
        plan: scene.plan,
        prices: scene.prices,
        cone: scene.cone,
        sight: scene.sight,
        wants: &*wants,
    };
    ways.find(&planned);
    let net = best_output(scene, ways, part)?;
    ways.add_goals(scene, net, Asked::All, goals);
    Some(net)
}

// A goal where those of the plan are met: an unknown value of the way out, or else of the instance's pins.
fn unmet_goal<S: Sight>(
    scene: &Scene<'_, S>,
    planned: &Scene<'_, S>,
    part: u32,
    net: u32,
    ways: &Ways,
    goals: &mut Goals,
) -> Option<Goal> {
    ways.add_goals(scene, net, Asked::Unknown, goals);
    match goals.costliest(planned) {
        Some(goal) => Some(goal),
        None => unknown_pin(scene, part),
    }
}

impl Choice for CheapestWay<'_> {
    fn propose<V: NetWaves>(
        &mut self,
        guide: &Guide,
        chip: &View<'_>,
        waves: &V,
        rows: &Rows,
        defect: ChipDefect,
    ) -> Proposal {
        let sight = GuideSight { guide, chip, waves };
        self.turn_to(defect, rows);
        if let Some(before) = self.past.next() {
            if sight.is_wanted(usize::from(before.bit)) {
                return before;
            }
        }
        self.turn_to_cone(defect.instance);
        let found = match self.bit(&sight, defect.instance) {
            Some(found) => proposal(found),
            None => match twin(&sight, self.plan.input_count()) {
                Some(found) => proposal(found),
                None => none(),
            },
        };
        self.past.keep(found, self.tries.was_given_up());
        found
    }

    fn begin(&mut self) {
        self.aims.clear();
        self.tries.begin();
        self.past.begin();
    }

    fn attempt<V: NetWaves>(
        &mut self,
        guide: &Guide,
        chip: &View<'_>,
        waves: &V,
        rows: &Rows,
        defect: ChipDefect,
    ) -> Attempt {
        self.turn_to(defect, rows);
        if self.past.is_hopeless() {
            return Attempt::GiveUp;
        }
        if let Some(next) = self.tries.turned() {
            return next;
        }
        let sight = GuideSight { guide, chip, waves };
        match self.next_bit(&sight, defect.instance) {
            Some(found) => self.tries.set(found),
            None => {
                self.aims.clear();
                self.tries.turn_back()
            }
        }
    }
}

// The bit for the costliest goal of a plan.
fn bit_of<S: Sight>(scene: &Scene<'_, S>, aims: &Goals) -> Option<BitValue> {
    match aims.costliest(scene) {
        Some(goal) => scene.backtrace(goal),
        None => None,
    }
}

// Makes a plan: the cheapest row that isn't met, unless the defect shows at its instance, and a way out.
// Whether there is one.
fn aim_anew<S: Sight>(
    scene: &Scene<'_, S>,
    rows: &mut RowCubes,
    route: &mut Route,
    part: u32,
    aims: &mut Goals,
) -> bool {
    aims.clear();
    let start = match route.start(scene, part, true) {
        Some(net) => Some(net),
        None => {
            if !add_cheapest_row(scene, rows, part, aims) {
                return false;
            }
            route.start(scene, part, false)
        }
    };
    match start {
        Some(net) => route.add_goals(scene, net, aims),
        None => false,
    }
}

// A bit, as a proposal.
fn proposal(found: BitValue) -> Proposal {
    if found.bit > u16::MAX as usize {
        return none();
    }
    Proposal {
        bit: found.bit as u16,
        first: found.value,
    }
}

// A proposal that leaves the bit to the guide.
fn none() -> Proposal {
    Proposal {
        bit: u16::MAX,
        first: false,
    }
}

// An unset bit of an input whose other bit is set, with the value of that one.
fn twin<S: Sight>(sight: &S, inputs: usize) -> Option<BitValue> {
    for input in 0..inputs {
        let last = inputs.saturating_add(input);
        match bit_like(sight, input, last) {
            Some(found) => return Some(found),
            None => {}
        }
        match bit_like(sight, last, input) {
            Some(found) => return Some(found),
            None => {}
        }
    }
    None
}

// The bit with the value of the other one, if it is wanted and the other one is set.
fn bit_like<S: Sight>(sight: &S, bit: usize, other: usize) -> Option<BitValue> {
    if !sight.is_wanted(bit) {
        return None;
    }
    match sight.value(other) {
        Some(value) => Some(BitValue { bit, value }),
        None => None,
    }
}
