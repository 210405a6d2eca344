//! Single looks at the waves and the codes of an instance.
ghost use Rattle.std.specs.Prelude.{◌-◌, ◌≡◌, ◌≢◌, ◌<◌, ◌↔◌, length, IfSome, IsTrue, None, Some, List};
ghost use Rattle.std.specs.List.{All};
ghost use Rattle.ca_net.specs.declared.trit.Trit.TheVariants.{X};
ghost use Rattle.ca_net.specs.declared.wave.Wave.{Wave};
ghost use Rattle.ca_net.specs.Wave.{IsWave};
ghost use Rattle.ca_net.specs.State.{value_at};
ghost use Rattle.ca_sweep.specs.code.Rows.{AreGoodsAt, AreRows};
ghost use Rattle.ca_sweep.specs.code.Coded.{IsSeenCoded};
ghost use Rattle.ca_sweep.specs.code.Hand.{IsHand, IsTakenAt};
ghost use Rattle.ca_view.specs.Linked.{IsPlaced, place_in};
ghost use Rattle.ca_view.specs.Places.{cell_number};
ghost use Rattle.ca_sweep.specs.code.Faulty.{AreFaulty, AreWavesAt};
ghost use Rattle.ca_sweep.specs.code.Found.{reported};
ghost use Rattle.ca_net.specs.declared.trit.Trit.{Trit};
ghost use Rattle.ca_sweep.specs.Seen.{AreUnseen};
ghost use Rattle.ca_sweep.specs.code.LanedFinder.{IsAtLane};
ghost use Rattle.ca_sweep.specs.declared.seen.Seen.TheVariants.{Nowhere};

use crate::codes::{Goods, flips_of_code, goods_at, is_known};
use crate::faulty::Faulty;
use crate::hand::Hand;
use crate::lanes::Lanes;
use crate::rows::Rows;
use crate::seen::Seen;
use crate::sweep::Sweep;
use ca_net::{Trit, Wave};
use ca_response::PinWaves;
use ca_sim::NetWaves;
use ca_view::View;

// Takes an instance in hand if it isn't, and is clear. Answers whether it is in hand. Takes no memory.
pub(crate) fn take(
    chip: &View<'_>,
    sweep: &Sweep<'_>,
    faulty: &mut Faulty,
    rows: &mut Rows,
    waves: &[Wave],
    hand: &mut Hand,
    u: usize,
) -> bool
    requires placed { IsPlaced chip.now.core (place_in chip.now.ranks) u }
    requires chip { sweep.now.chip ≡ chip.now.core }
    requires places { sweep.now.places ≡ chip.now.ranks }
    requires nets { length waves.now ≡ length chip.now.core.nets }
    requires faulty { AreFaulty chip.now.core (place_in chip.now.ranks) (cell_number chip.now.chip)
        faulty.old }
    requires rows { AreRows chip.now.core (place_in chip.now.ranks) (cell_number chip.now.chip) rows.old }
    requires hand { IsHand chip.now.core (cell_number chip.now.chip) (value_at sweep.now.lasts) waves.now
        rows.old.slots.items hand.old }

    ensures taken { IsTrue result → IsTakenAt chip.now.core (cell_number chip.now.chip)
        (value_at sweep.now.lasts) waves.now rows.new.slots.items hand.new u }
    ensures faulty { AreFaulty chip.now.core (place_in chip.now.ranks) (cell_number chip.now.chip)
        faulty.new }
    ensures rows { AreRows chip.now.core (place_in chip.now.ranks) (cell_number chip.now.chip) rows.new }
    ensures hand { IsHand chip.now.core (cell_number chip.now.chip) (value_at sweep.now.lasts) waves.now
        rows.new.slots.items hand.new }
{
    chip.linked();
    if hand.has(u) {
        return true;
    }
    if !sweep.is_clear(u) {
        return false;
    }
    match pin_waves(chip, waves, u) {
        Some(pins) => {
            let goods = goods_at(chip, sweep, u);
            let slot = rows.find(chip, faulty, u, pins, goods);
            hand.take(u, rows.number(chip, u), slot, goods);
            true
        }
        None => false,
    }
}

// What is found of a defect of an instance, with these good last values at its output pins, that ends with
// what a code says.
pub(crate) fn see_coded(
    chip: &View<'_>,
    sweep: &mut Sweep<'_>,
    u: usize,
    goods: Goods,
    code: u8,
) -> Seen
    requires placed { IsPlaced chip.now.core (place_in chip.now.ranks) u }
    requires chip { sweep.old.chip ≡ chip.now.core }
    requires places { sweep.old.places ≡ chip.now.ranks }
    requires goods { AreGoodsAt chip.now.core (value_at sweep.old.lasts) u goods }
    ensures found { IsSeenCoded chip.now.core (value_at sweep.old.lasts) u code result }
    ensures kept { sweep.new ≡ sweep.old }
{
    chip.linked();
    let outputs = chip.cell(u).outputs();
    let flips = flips_of_code(goods, code);
    let seen = sweep.see(u, flips);
    reported(seen, is_known(code, outputs))
}

// Whether it was found that no flip of an instance's output pins is seen in a lane, if there is such a lane.
pub(crate) fn is_unseen<L: Lanes>(lanes: &L, lane: usize, u: usize) -> bool
    requires { IsPlaced (L.laned lanes.now).chip (place_in (L.laned lanes.now).places) u }
    ensures within { IsTrue result → lane < 64 }
    ensures unseen { (lasts : List Trit) → IsAtLane (L.laned lanes.now) lane lasts → IsTrue result
        → AreUnseen (L.laned lanes.now).chip (value_at lasts) u }
{
    if lane >= 64 {
        return false;
    }
    lanes.is_unseen(u, lane)
}

// Whether nothing is detected.
pub(crate) fn is_nowhere(seen: Seen) -> bool
    ensures { IsTrue result → seen ≡ Nowhere }
{
    match seen {
        Seen::Nowhere => true,
        Seen::At(_) | Seen::Undecided => false,
    }
}

// What is answered where flips are seen so, and all last values of the instance's outputs are known or not.
pub(crate) fn reported(seen: Seen, is_known: bool) -> Seen
    ensures { result ≡ reported is_known seen }
{
    match (seen, is_known) {
        (Seen::At(_), false) => Seen::Undecided,
        (seen, true | false) => seen,
    }
}

// Whether the last value of each wave is definite.
pub(crate) fn are_definite(waves: &[Wave]) -> bool
    ensures { IsTrue result ↔ All (λ (wave : Wave). wave.last ≢ X) waves.now }
{
    waves.iter().all(|wave| wave.last != Trit::X)
}

// Whether the middle value is unknown or the first one, and unknown or the last one.
fn is_wave(wave: Wave) -> bool
    ensures { IsTrue result → IsWave wave }
{
    wave.mid == Trit::X || (wave.mid == wave.first && wave.mid == wave.last)
}

// The good waves of an instance's input nets. All are waves, so that there always are some.
pub(crate) fn pin_waves(chip: &View<'_>, waves: &[Wave], u: usize) -> Option<PinWaves>
    requires placed { IsPlaced chip.now.core (place_in chip.now.ranks) u }
    requires nets { length waves.now ≡ length chip.now.core.nets }
    ensures { IfSome result (λ pins. AreWavesAt chip.now.core waves.now u pins.items) }
{
    chip.linked();
    let mut pins = PinWaves::new();
    for pin in 0..chip.inputs_at(u) {
        let wave = waves[chip.pin_net(u, pin)];
        if !is_wave(wave) {
            return None;
        }
        pins.push(wave);
    }
    Some(pins)
}

// Takes over the good waves.
pub(crate) fn load<V: NetWaves>(waves: &V, into: &mut Vec<Wave>)
    requires { length into.old.items ≡ length (V.seen waves.now).chip.nets }
    ensures { into.new.items ≡ (V.seen waves.now).good }
{
    waves.exact();
    for net in 0..into.len() {
        into[net] = waves.good(net);
    }
}
