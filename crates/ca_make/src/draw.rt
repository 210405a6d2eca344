//! The draws by which a chip is generated.

ghost use Rattle.std.specs.Prelude.{◌≡◌, ◌+◌, ◌<◌, ◌≤◌, length, IfOk};
ghost use Rattle.std.specs.List.{All};
ghost use Rattle.ca_make.specs.declared.gate.TheConstants.{INPUTS, MOST_GATES};
ghost use Rattle.ca_make.specs.Draw.{next_state, drawn, place_from, gate_from, state_after};
ghost use Rattle.ca_make.specs.Chip.{gates_of};
ghost use Rattle.ca_make.specs.code.Chip.{IsWithin};

use crate::gate::{Gate, INPUTS};
use ca_base::{List, NoMemory};
use std::alloc::Global;

// A generator of numbers.
#[derive(Clone, Copy)]
struct Draws {
    state: u64,
}

impl Draws {
    // The next number: the upper 31 bits of the next state.
    fn draw(&mut self) -> u32
        ensures state { self.new.state ≡ next_state self.old.state }
        ensures drawn { result ≡ drawn self.new.state }
    {
        self.state = self
            .state
            .wrapping_mul(6_364_136_223_846_793_005)
            .wrapping_add(1_442_695_040_888_963_407);
        (self.state / (1 << 33)) as u32
    }

    // The place of one of the last twelve of `candidates` candidates.
    fn place(&mut self, candidates: u32) -> u32
        requires { 0 < candidates }
        ensures state { self.new.state ≡ next_state self.old.state }
        ensures place { result ≡ place_from self.old.state candidates }
        ensures within { result < candidates }
    {
        candidates - 1 - self.draw() % candidates.min(12)
    }

    // A gate over `candidates` candidates.
    #[tactic(auto, unfolding(crate::specs::Draw::gate_from))]
    fn gate(&mut self, candidates: u32) -> Gate
        requires { 0 < candidates }
        ensures gate { result ≡ gate_from self.old.state candidates }
        ensures state { self.new.state ≡ state_after result self.old.state }
        ensures within { IsWithin candidates result }
    {
        let kind = self.draw() % 3;
        let first = self.place(candidates);
        if kind == 0 {
            return Gate::Inv(first);
        }
        let second = self.place(candidates);
        if kind == 1 {
            Gate::Nand2(first, second)
        } else {
            Gate::Nor2(first, second)
        }
    }
}

/// The gates of the chip of this number.
pub(crate) fn gates(alloc: Global, n: u32) -> Result<List<Gate>, NoMemory>
    requires { n ≤ MOST_GATES }
    ensures gates { IfOk result (λ gates. gates ≡ gates_of n) }
    ensures count { IfOk result (λ gates. length gates ≡ n) }
    ensures within { IfOk result (λ gates. All (IsWithin (INPUTS + n)) gates) }
{
    let mut draws = Draws { state: n as u64 };
    let mut gates = List::with_room(alloc, n as usize)?;
    for k in 0..n {
        gates.push(draws.gate(INPUTS + k))?;
    }
    Ok(gates)
}
