//! Whether a cell is static.

ghost use Rattle.std.specs.Prelude.{◌≡◌, ◌≢◌, ◌/◌, ◌%◌, ◌^◌, ◌<◌, ◌≤◌, ◌↔◌, length, IsTrue};
ghost use Rattle.std.specs.List.{All};
ghost use Rattle.ca_net.specs.declared.trit.Trit.TheVariants.{X};
ghost use Rattle.ca_net.specs.declared.wave.Wave.{Wave};
ghost use Rattle.ca_net.specs.Wave.{IsWave};
ghost use Rattle.ca_cell.specs.Raw.{circuit_of};
ghost use Rattle.ca_cell.specs.Row.{digit_value};
ghost use Rattle.ca_settle.specs.Settled.{IsRoomFor};
ghost use Rattle.ca_flips.specs.Static.{IsStatic};
ghost use Rattle.ca_static.specs.code.StaticAt.{IsStaticAt, waves_to};

use ca_cell::{Cell, MOST_INPUTS};
use ca_net::{Trit, Wave};
use ca_response::{PinWaves, respond};
use ca_settle::Work;

/// Whether the cell is static: for each definite vector, waves of the input pins of which the lasts alone are
/// known, and are the vector, give a definite last at each output pin. It takes no memory.
pub fn is_static(cell: &Cell, work: &mut Work) -> bool
    requires room { IsRoomFor (circuit_of cell.now) work.old }
    ensures exact { IsTrue result ↔ IsStatic cell.now }
    ensures room { IsRoomFor (circuit_of cell.now) work.new }
{
    let vectors = 2usize.pow(cell.inputs() as u32);
    for number in 0..vectors {
        if !is_static_at(cell, number, work) {
            return false;
        }
    }
    true
}

// Whether the vector of a number alone says what the cell ends with at each output pin.
fn is_static_at(cell: &Cell, number: usize, work: &mut Work) -> bool
    requires room { IsRoomFor (circuit_of cell.now) work.old }
    ensures exact { IsTrue result ↔ IsStaticAt cell.now number }
    ensures room { IsRoomFor (circuit_of cell.now) work.new }
{
    let pins = waves_to(cell.inputs(), number);
    let waves = respond(cell, pins.as_slice(), work);
    are_definite(waves.as_slice())
}

// Whether the last value of each wave is definite.
fn are_definite(waves: &[Wave]) -> bool
    ensures { IsTrue result ↔ All (λ (wave : Wave). wave.last ≢ X) waves.now }
{
    waves.iter().all(|wave| wave.last != Trit::X)
}

// Waves of this many input pins, of which the lasts alone are known: they are the vector of a number.
pub(crate) fn waves_to(inputs: usize, number: usize) -> PinWaves
    requires { inputs ≤ MOST_INPUTS }
    ensures same { result.items ≡ waves_to inputs number }
    ensures waves { All IsWave result.items }
    ensures count { length result.items ≡ inputs }
{
    let mut waves = PinWaves::new();
    for before in 0..inputs {
        let after = inputs - 1 - before;
        waves.push(Wave::pair(Trit::X, digit(number, after)));
    }
    waves
}

// The digit of a number after which this many stand.
fn digit(number: usize, after: usize) -> Trit
    requires { after < MOST_INPUTS }
    ensures { result ≡ digit_value (number / 2 ^ after % 2) }
{
    if (number >> after) % 2 == 0 {
        Trit::Zero
    } else {
        Trit::One
    }
}
