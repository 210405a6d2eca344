//! Tables of what a network of a cell gives.

ghost use Rattle.std.specs.Prelude.{◌^◌, ◌≡◌, ◌≤◌, ◌<◌, length, IfOk};
ghost use Rattle.std.specs.List.{All};
ghost use Rattle.ca_net.specs.Wave.{IsWave};
ghost use Rattle.ca_cell.specs.Raw.{is_input, role_count};
ghost use Rattle.ca_settle.specs.Settled.{IsRoomFor};
ghost use Rattle.ca_response.specs.Table.{digit_of, code_of, place_of};
ghost use Rattle.ca_response.specs.code.Decoding.{trit_of, coded_wave, pins_at};

use crate::cell_net::CellNet;
use crate::outputs::{OutWaves, respond_from_first, settle_first};
use crate::pins::PinWaves;
use ca_base::NoMemory;
use ca_net::{Trit, Wave};
use ca_settle::{Work, group};
use std::alloc::Global;
use std::marker::Model;

/// The most input pins of a network with a table.
pub const MOST_TABLE_INPUTS: usize = 3;

/// The waves of the output pins, for each choice of waves of the input pins: 1, 11, 121 or 1,331 entries.
#[derive(Drop)]
pub struct Table {
    entries: Vec<OutWaves>,
}

impl Model for Table {
    ghost use Rattle.std.specs.Prelude.{List, map};
    ghost use Rattle.ca_net.specs.declared.wave.Wave.{Wave};

    ghost Value = { List (List Wave) };

    ghost view = { λ table. map (λ entry. entry.items) table.entries.items };
}

impl Table {
    ghost use Rattle.ca_net.specs.Circuit.{Circuit};
    ghost use Rattle.ca_cell.specs.declared.raw.RawCell.{RawCell};
    ghost use Rattle.ca_response.specs.Gives.{Gives};
    ghost use Rattle.ca_response.specs.Table.{IsTableOf};

    /// Finds what the network gives for each choice of waves of its input pins.
    pub fn build<N: CellNet>(alloc: Global, net: &N, work: &mut Work) -> Result<Self, NoMemory>
        requires few { role_count is_input (N.subcircuit net.now).pins ≤ 3 }
        requires room { IsRoomFor (N.circuit net.now) work.old }

        ensures ok { IfOk result (IsTableOf (N.subcircuit net.now) (N.circuit net.now)) }
        ensures room { IsRoomFor (N.circuit net.now) work.new }
    {
        let inputs = net.cell().inputs();
        let mut entries = Vec::new(alloc);
        group(net, work);
        for place in 0..entry_count(inputs) {
            let pins = pins_at(place, inputs);
            settle_first(net, pins.as_slice(), work);
            entries.push(respond_from_first(net, pins.as_slice(), work))?;
        }
        Ok(Table { entries })
    }

    /// What the network gives that the table was built for. It takes no memory.
    pub fn get(&self, pins: &[Wave]) -> OutWaves
        requires pins { length self.now ≡ 11 ^ length pins.now }
        requires few { length pins.now ≤ 3 }
        requires waves { All IsWave pins.now }

        ensures gives { (raw : RawCell) (net : Circuit) → length pins.now ≡ role_count is_input raw.pins
            → IsTableOf raw net self.now → Gives raw net pins.now result.items }
        ensures waves { (raw : RawCell) (net : Circuit) → IsTableOf raw net self.now
            → All IsWave result.items }
    {
        copied(&self.entries[place_of(pins)])
    }
}

// The number of entries.
fn entry_count(inputs: usize) -> usize
    requires { inputs ≤ 3 }
    ensures { result ≡ 11 ^ inputs }
{
    match inputs {
        0 => 1,
        1 => 11,
        2 => 121,
        _ => 1331,
    }
}

// A value as a number below 3.
fn digit_of(value: Trit) -> usize
    ensures same { result ≡ digit_of value }
    ensures few { result < 3 }
{
    match value {
        Trit::Zero => 0,
        Trit::One => 1,
        Trit::X => 2,
    }
}

// The number of a wave among the eleven of a pin.
fn code_of(wave: Wave) -> usize
    ensures same { result ≡ code_of wave }
    ensures few { result < 11 }
{
    match (wave.first, wave.mid, wave.last) {
        (Trit::Zero, Trit::Zero, Trit::Zero) => 0,
        (Trit::One, Trit::One, Trit::One) => 1,
        (first, _, last) => 2 + (3 * digit_of(first) + digit_of(last)),
    }
}

// The place of the entry for these waves.
fn place_of(pins: &[Wave]) -> usize
    requires { length pins.now ≤ 3 }
    ensures same { result ≡ place_of pins.now }
    ensures within { result < 11 ^ length pins.now }
{
    match pins.len() {
        0 => 0,
        1 => code_of(pins[0]),
        2 => code_of(pins[0]) + 11 * code_of(pins[1]),
        _ => code_of(pins[0]) + 11 * (code_of(pins[1]) + 11 * code_of(pins[2])),
    }
}

// The value of a number below 3.
fn trit_of(digit: usize) -> Trit
    ensures { result ≡ trit_of digit }
{
    match digit {
        0 => Trit::Zero,
        1 => Trit::One,
        _ => Trit::X,
    }
}

// The wave of a number among the eleven of a pin.
fn coded_wave(code: usize) -> Wave
    ensures { result ≡ coded_wave code }
{
    if code == 0 {
        Wave::pair(Trit::Zero, Trit::Zero)
    } else if code == 1 {
        Wave::pair(Trit::One, Trit::One)
    } else {
        Wave {
            first: trit_of((code - 2) / 3),
            mid: Trit::X,
            last: trit_of((code - 2) % 3),
        }
    }
}

// The waves of the input pins that an entry is for.
fn pins_at(place: usize, inputs: usize) -> PinWaves
    requires { inputs ≤ 3 }
    ensures { result.items ≡ pins_at inputs place }
{
    let mut pins = PinWaves::new();
    let mut rest = place;
    for _pin in 0..inputs {
        pins.push(coded_wave(rest % 11));
        rest /= 11;
    }
    pins
}

/// The same waves. It takes no memory.
pub fn copied(waves: &OutWaves) -> OutWaves
    ensures { result.items ≡ waves.now.items }
{
    let mut copy = OutWaves::new();
    for wave in waves.as_slice() {
        copy.push(*wave);
    }
    copy
}
