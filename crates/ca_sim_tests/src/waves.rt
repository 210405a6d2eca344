//! The waves of nets, by a simulator and worked out by hand, and how often an instance is evaluated.

ghost use Rattle.std.specs.Prelude.{◌<◌};

use crate::chips::{INV, Instances, KEEP, NAND2, NOR4, chip};
use ca_cell::parse_defect;
use ca_flat::ChipDefect;
use ca_linked::Chip;
use ca_net::{State, Trit, Wave};
use ca_sim::{NetWaves, Sim};
use ca_view::View;
use std::alloc::Global;
use std::process::Abort;

const ZERO: Trit = Trit::Zero;

const ONE: Trit = Trit::One;

const X: Trit = Trit::X;

// Sets a bit.
fn set(rt: &impl Abort, sim: &mut Sim<'_>, bit: usize, value: Option<bool>) {
    sim.exact();
    let chip = sim.chip();
    assert!(rt;
        chip.input_count() < 32_768 && bit < 2 * chip.input_count(),
        "bit {bit}"
    );
    sim.set(bit as u16, value);
}

// Aims at a defect of an instance, by its name.
fn aim(rt: &impl Abort, sim: &mut Sim<'_>, u: usize, name: &[u8]) {
    let chip = sim.chip();
    assert!(rt;
        u < 65_536 && u < chip.instances() && chip.rank(u) > 0,
        "instance {u}"
    );
    let defect = parse_defect(chip.cell(u), name).expect(rt, "a defect");
    sim.aim(Some(ChipDefect {
        instance: u as u32,
        defect,
    }));
}

// The net that an instance's output pin is on.
fn output_of(rt: &impl Abort, sim: &Sim<'_>, u: usize) -> usize {
    let chip = sim.chip();
    assert!(rt; u < chip.instances() && chip.rank(u) > 0, "instance {u}");
    let cell = chip.cell(u);
    assert!(rt; 0 < cell.outputs(), "an output pin");
    chip.pin_net(u, cell.inputs())
}

// The good and the faulty wave of a net.
fn both(rt: &impl Abort, sim: &Sim<'_>, net: usize) -> (Wave, Wave) {
    assert!(rt; net < sim.chip().nets(), "net {net}");
    (sim.good(net), sim.faulty(net))
}

// A hazard of y lets the charge of z go, where the new branch of u4 closes before the old one opens.
const GLITCH: [(usize, &[u32]); 5] = [
    (INV, &[2]),
    (NAND2, &[2, 3]),
    (NAND2, &[4, 3]),
    (NAND2, &[5, 6]),
    (NAND2, &[1, 7]),
];

#[test]
fn hazard_destroys_the_charge(rt: HostRuntime) {
    let glitch = chip(&rt, rt.alloc(), 4, &GLITCH);
    let view = View::new(rt.alloc(), &glitch).expect(&rt, "memory");
    let mut sim = Sim::reserve(rt.alloc(), &view).expect(&rt, "memory");
    for (bit, value) in [true, true, true, false, false, true]
        .into_iter()
        .enumerate()
    {
        set(&rt, &mut sim, bit, Some(value));
    }
    aim(&rt, &mut sim, 4, b"MP1(D)");
    let (y, _) = both(&rt, &sim, output_of(&rt, &sim, 3));
    assert_eq!(rt; (y.first, y.mid, y.last), (ONE, X, ONE));
    let (good, faulty) = both(&rt, &sim, output_of(&rt, &sim, 4));
    assert_eq!(rt; good.last, ONE);
    assert_eq!(rt; faulty.last, X);
    assert_eq!(rt; sim.aimed(), 1);
    drop(sim);
    drop(view);
    drop(glitch);
}

// The pin B of the last instance has a hazard, where A releases the net that it had pulled up.
const KEPT: [(usize, &[u32]); 4] = [(INV, &[2]), (NAND2, &[2, 3]), (INV, &[4]), (KEEP, &[1, 5])];

#[test]
fn a_hazard_lets_a_kept_charge_go(rt: HostRuntime) {
    let kept = chip(&rt, rt.alloc(), 3, &KEPT);
    let view = View::new(rt.alloc(), &kept).expect(&rt, "memory");
    let mut sim = Sim::reserve(rt.alloc(), &view).expect(&rt, "memory");
    for (bit, value) in [false, true, true, false].into_iter().enumerate() {
        set(&rt, &mut sim, bit, Some(value));
    }
    let (b, _) = both(&rt, &sim, output_of(&rt, &sim, 2));
    assert_eq!(rt; (b.first, b.mid, b.last), (ZERO, X, ZERO));
    let (k, _) = both(&rt, &sim, output_of(&rt, &sim, 3));
    assert_eq!(rt; (k.first, k.mid, k.last), (ONE, X, X));
    drop(sim);
    drop(view);
    drop(kept);
}

// A bit that changes takes one evaluation or two, and one that is unset already may take none.
#[test]
fn a_set_bit_evaluates_two_instances_of_a_thousand(rt: HostRuntime) {
    let mut instances = Instances::new(rt.alloc(), 1001, 1000);
    for input in 1..1001_u32 {
        instances.push(INV, &[input]).expect(&rt, "memory");
    }
    let row = instances.linked(&rt, rt.alloc());
    let view = View::new(rt.alloc(), &row).expect(&rt, "memory");
    let mut sim = Sim::reserve(rt.alloc(), &view).expect(&rt, "memory");
    assert_eq!(rt; sim.evaluated(), 0);
    for (bit, value, least) in [
        (3, Some(true), 1),
        (1003, Some(false), 1),
        (3, None, 1),
        (7, None, 0),
        (1999, Some(true), 1),
    ] {
        let before = sim.evaluated();
        set(&rt, &mut sim, bit, value);
        let more = sim.evaluated().saturating_sub(before);
        assert!(rt; least <= more && more <= 2, "bit {bit}: {more}");
    }
    let (good, faulty) = both(&rt, &sim, output_of(&rt, &sim, 999));
    assert_eq!(rt; (good.first, good.mid, good.last), (X, X, ZERO));
    assert_eq!(rt; faulty, good);
    drop(sim);
    drop(view);
    drop(row);
}

// Numbers that look as if they were drawn by lot.
#[derive(Drop)]
struct Draw {
    state: u64,
}

impl Draw {
    fn below(&mut self, bound: u64) -> u64
        requires { 0 < bound }
        ensures { result < bound }
    {
        self.state = self
            .state
            .wrapping_mul(6_364_136_223_846_793_005)
            .wrapping_add(1_442_695_040_888_963_407);
        (self.state >> 33) % bound
    }
}

const NAMES: [&[u8]; 6] = [
    b"MP1(D)", b"MP1(S)", b"MP1(G)", b"MN1(D)", b"VDD=ZN", b"VSS=ZN",
];

// The net of the constant and those of the chip inputs.
const NETS: usize = 7;

const BITS: usize = 12;

const INSTANCES: usize = 30;

// Thirty instances, each of which reads nets before its own.
fn drawn(rt: &impl Abort, alloc: Global, draw: &mut Draw) -> Chip {
    let mut instances = Instances::new(alloc, NETS, INSTANCES);
    for u in 0..INSTANCES {
        let cell = draw.below(3) as usize;
        let count = match cell {
            INV => 1,
            NAND2 => 2,
            _ => 4,
        };
        let mut pins = Vec::new(alloc);
        for _pin in 0..count {
            pins.push(draw.below((NETS + u) as u64) as u32)
                .expect(rt, "memory");
        }
        instances.push(cell, &pins).expect(rt, "memory");
    }
    instances.linked(rt, alloc)
}

// Asserts that the waves are those of a simulator of which nothing but this was asked.
fn is_as_fresh(
    rt: &impl Abort,
    alloc: Global,
    chip: &View<'_>,
    sim: &Sim<'_>,
    bits: &State,
    aimed: Option<(usize, &[u8])>,
) {
    let mut fresh = Sim::reserve(alloc, chip).expect(rt, "memory");
    if let Some((u, name)) = aimed {
        aim(rt, &mut fresh, u, name);
    }
    fresh.exact();
    let inputs = fresh.chip().input_count();
    assert!(rt; inputs < 32_768 && bits.len() == 2 * inputs, "bits");
    fresh.load(bits);
    for net in 0..chip.nets() {
        assert_eq!(rt; both(rt, sim, net), both(rt, &fresh, net), "net {net}");
    }
    drop(fresh);
}

#[test]
fn waves_are_those_of_a_fresh_simulator(rt: HostRuntime) {
    let mut draw = Draw { state: 1 };
    let chip = drawn(&rt, rt.alloc(), &mut draw);
    let view = View::new(rt.alloc(), &chip).expect(&rt, "memory");
    let mut sim = Sim::reserve(rt.alloc(), &view).expect(&rt, "memory");
    let mut bits = State::unknown(rt.alloc(), BITS).expect(&rt, "memory");
    let mut aimed = None;
    for step in 0..400 {
        match draw.below(16) {
            0 => {
                sim.clear();
                bits = State::unknown(rt.alloc(), BITS).expect(&rt, "memory");
            }
            1 => {
                sim.aim(None);
                aimed = None;
            }
            2 | 3 => {
                let u = draw.below(INSTANCES as u64) as usize;
                let name = NAMES[draw.below(6) as usize];
                aim(&rt, &mut sim, u, name);
                aimed = Some((u, name));
            }
            _ => {
                let bit = draw.below(BITS as u64) as usize;
                let (value, trit) = match draw.below(3) {
                    0 => (Some(false), ZERO),
                    1 => (Some(true), ONE),
                    _ => (None, X),
                };
                set(&rt, &mut sim, bit, value);
                assert!(rt; bit < bits.len(), "bit {bit}");
                bits.set(bit, trit);
            }
        }
        if step % 4 == 0 {
            is_as_fresh(&rt, rt.alloc(), &view, &sim, &bits, aimed);
        }
    }
    drop(bits);
    drop(sim);
    drop(view);
    drop(chip);
}
