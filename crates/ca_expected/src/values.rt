//! The values that are expected at the observed outputs.

ghost use Rattle.std.specs.Prelude.{◌≡◌, length, IfOk};
ghost use Rattle.std.specs.List.{All};
ghost use Rattle.ca_flat.specs.Pair.{bit_count};
ghost use Rattle.ca_expected.specs.Expected.{AreGoodEnds, AreExpected};

use ca_base::{List, NoMemory};
use ca_credit::Simulator;
use ca_net::Trit;
use ca_pair::Pair;
use std::alloc::Global;

/// For each listed pair a value for each observed output: 0 or 1 where every run of the good chip ends with
/// it, else X.
pub type Expected = List<List<Trit>>;

// The values at the observed outputs under the bits that are set.
fn good_ends<S: Simulator>(alloc: Global, sim: &S) -> Result<List<Trit>, NoMemory>
    ensures { IfOk result (AreGoodEnds (S.task sim.now).chip (S.bits sim.now)) }
{
    let count = sim.output_count();
    let mut values = List::with_room(alloc, count as usize)?;
    for output in 0..count {
        values.push(sim.good_end(output))?;
    }
    Ok(values)
}

/// The values at the observed outputs under each pair. The simulator's aim stays, its bits don't.
pub fn expected<S: Simulator>(
    alloc: Global,
    sim: &mut S,
    pairs: &[Pair],
) -> Result<Expected, NoMemory>
    requires { All (λ pair. length pair ≡ bit_count (S.task sim.old).chip) pairs.now }
    ensures rows { IfOk result (AreExpected (S.task sim.old).chip pairs.now) }
    ensures task { S.task sim.new ≡ S.task sim.old }
    ensures aimed { S.aimed sim.new ≡ S.aimed sim.old }
{
    let mut rows = List::with_room(alloc, pairs.len())?;
    for place in 0..pairs.len() {
        sim.load(&pairs[place]);
        rows.push(good_ends(alloc, sim)?)?;
    }
    Ok(rows)
}
