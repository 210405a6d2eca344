//! What a row of the defect wants.

use crate::costs::{NEVER, sum};
use crate::cube::Cube;
use crate::goal::{Frame, Goal};
use crate::goals::Goals;
use crate::row_cubes::RowCubes;
use crate::scene::Scene;
use crate::sight::Sight;
use crate::wants::Wants;
use ca_net::Trit;

// How many rows are looked at for one that can be wanted.
const MOST_ROWS_WANTED: usize = 8;

/// Makes the cheapest row that can be wanted the plan, or else the cheapest one. Whether a row is in reach.
pub(crate) fn want_row<S: Sight>(
    scene: &Scene<'_, S>,
    rows: &mut RowCubes,
    part: u32,
    goals: &mut Goals,
    wants: &mut Wants,
) -> bool {
    price_rows(scene, rows, part);
    let cheapest = next_row(rows, None);
    match want_first(scene, rows, part, cheapest, goals, wants) {
        Look::Wanted => true,
        Look::NoneLeft | Look::SomeLeft => match cheapest {
            Some(first) => {
                let _ = is_wanted(scene, rows, part, first, goals, wants);
                true
            }
            None => false,
        },
    }
}

/// Adds the goals of the cheapest row in reach that isn't met yet. Whether there is one.
pub(crate) fn add_cheapest_row<S: Sight>(
    scene: &Scene<'_, S>,
    rows: &mut RowCubes,
    part: u32,
    goals: &mut Goals,
) -> bool {
    price_rows(scene, rows, part);
    match next_row(rows, Some(LAST_MET)) {
        Some(offer) => {
            add_row_goals(scene, rows, part, rows.get(offer.place), goals);
            true
        }
        None => false,
    }
}

/// Whether one of the cheapest rows in reach that aren't met yet can be wanted, or not all were looked at.
pub(crate) fn is_row_open<S: Sight>(
    scene: &Scene<'_, S>,
    rows: &mut RowCubes,
    part: u32,
    goals: &mut Goals,
    wants: &mut Wants,
) -> bool {
    price_rows(scene, rows, part);
    let open = next_row(rows, Some(LAST_MET));
    match want_first(scene, rows, part, open, goals, wants) {
        Look::Wanted | Look::SomeLeft => true,
        Look::NoneLeft => false,
    }
}

// How a look at the cheapest rows ended.
enum Look {
    // one is the plan
    Wanted,
    // none of those in reach can be wanted
    NoneLeft,
    // none of those that were looked at can be wanted, and there are more
    SomeLeft,
}

// Makes the first row from an offer on that can be wanted the plan. Only some are looked at.
fn want_first<S: Sight>(
    scene: &Scene<'_, S>,
    rows: &RowCubes,
    part: u32,
    from: Option<Offer>,
    goals: &mut Goals,
    wants: &mut Wants,
) -> Look {
    let mut offer = from;
    for _ in 0..MOST_ROWS_WANTED {
        match offer {
            Some(next) => {
                if is_wanted(scene, rows, part, next, goals, wants) {
                    return Look::Wanted;
                }
                offer = next_row(rows, offer);
            }
            None => return Look::NoneLeft,
        }
    }
    match offer {
        Some(_) => Look::SomeLeft,
        None => Look::NoneLeft,
    }
}

// Makes a row the plan. Whether no contradiction is seen.
fn is_wanted<S: Sight>(
    scene: &Scene<'_, S>,
    rows: &RowCubes,
    part: u32,
    offer: Offer,
    goals: &mut Goals,
    wants: &mut Wants,
) -> bool {
    goals.clear();
    wants.clear();
    add_row_goals(scene, rows, part, rows.get(offer.place), goals);
    wants.add_all(scene, goals)
}

// A row by its place, and its price.
#[derive(Clone, Copy)]
struct Offer {
    price: u32,
    place: usize,
}

// What comes after all rows that are met, and before all others.
const LAST_MET: Offer = Offer {
    price: 0,
    place: usize::MAX,
};

// Finds the prices of the rows.
fn price_rows<S: Sight>(scene: &Scene<'_, S>, rows: &mut RowCubes, part: u32) {
    for place in 0..rows.len() {
        let price = row_price(scene, rows, part, rows.get(place));
        rows.put_price(place, price);
    }
}

// The cheapest row that comes after the one before, if one is in reach. Of those with one price the first is
// the cheapest.
fn next_row(rows: &RowCubes, before: Option<Offer>) -> Option<Offer> {
    let mut best: Option<Offer> = None;
    for place in 0..rows.len() {
        let price = rows.price(place);
        let offer = Offer { price, place };
        if price < NEVER && is_after(offer, before) && is_cheaper(offer, best) {
            best = Some(offer);
        }
    }
    best
}

// Whether an offer comes after another one, if there is one.
fn is_after(offer: Offer, before: Option<Offer>) -> bool {
    match before {
        Some(before) => {
            before.price < offer.price
                || (before.price == offer.price && before.place < offer.place)
        }
        None => true,
    }
}

// Whether an offer is cheaper than another one, if there is one.
fn is_cheaper(offer: Offer, best: Option<Offer>) -> bool {
    match best {
        Some(best) => offer.price < best.price,
        None => true,
    }
}

// The price of a cube: the sum over its pins.
fn row_price<S: Sight>(scene: &Scene<'_, S>, rows: &RowCubes, part: u32, cube: Cube) -> u32 {
    let mut price = 0u32;
    for (pin, net) in scene.plan.inputs(part).iter().enumerate() {
        let of_pin = pin_price(scene, *net, rows.first(cube, pin), rows.last(cube, pin));
        price = sum(price, of_pin);
    }
    price
}

// The price of the values of one pin.
fn pin_price<S: Sight>(
    scene: &Scene<'_, S>,
    net: u32,
    first: Option<bool>,
    last: Option<bool>,
) -> u32 {
    if first == last {
        return frame_price(scene, Frame::Stable, net, first);
    }
    let first = frame_price(scene, Frame::First, net, first);
    sum(first, frame_price(scene, Frame::Last, net, last))
}

// The price of a value that may be free.
fn frame_price<S: Sight>(scene: &Scene<'_, S>, frame: Frame, net: u32, value: Option<bool>) -> u32 {
    match value {
        Some(value) => scene.price(Goal { frame, net, value }),
        None => 0,
    }
}

// Adds the goals of the cube of a row.
fn add_row_goals<S: Sight>(
    scene: &Scene<'_, S>,
    rows: &RowCubes,
    part: u32,
    cube: Cube,
    goals: &mut Goals,
) {
    for (pin, net) in scene.plan.inputs(part).iter().enumerate() {
        let first = rows.first(cube, pin);
        let last = rows.last(cube, pin);
        if first == last {
            add_goal(Frame::Stable, *net, last, goals);
        } else {
            add_goal(Frame::First, *net, first, goals);
            add_goal(Frame::Last, *net, last, goals);
        }
    }
}

// Adds a goal whose value may be free.
fn add_goal(frame: Frame, net: u32, value: Option<bool>, goals: &mut Goals) {
    if let Some(value) = value {
        goals.add(Goal { frame, net, value });
    }
}

/// A value for an input pin of the instance that has none in a frame: that of the other frame, if there is
/// one. A defect may be hidden by it where the row's goals are met.
pub(crate) fn unknown_pin<S: Sight>(scene: &Scene<'_, S>, part: u32) -> Option<Goal> {
    for net in scene.plan.inputs(part) {
        let net = *net;
        let wave = scene.sight.good(net);
        if wave.last == Trit::X {
            let frame = Frame::Last;
            let value = wave.first == Trit::One;
            return Some(Goal { frame, net, value });
        }
        if wave.first == Trit::X {
            let frame = Frame::First;
            let value = wave.last == Trit::One;
            return Some(Goal { frame, net, value });
        }
    }
    None
}
