//! What is kept of a search that has ended.

ghost use Rattle.std.specs.Prelude.{◌≡◌, ◌<◌, length, IfOk};
ghost use Rattle.ca_net.specs.State.{value_at};
ghost use Rattle.ca_code.specs.Filled.{filled, filled_bit};
ghost use Rattle.ca_engine.specs.code.SearchEnd.{IsKept};

use crate::flip_bench::FlipBench;
use ca_base::NoMemory;
use ca_generate::SearchEnd;
use ca_judge::{Attempts, ExposingRows};
use ca_pair::Pair;
use ca_search::{Judge, Outcome, Search};
use ca_sim::NetWaves;
use ca_sweep::FlipFinder;
use std::alloc::Global;

// A bit of the pair that is kept: 0 where it is unset.
fn is_one<R: ExposingRows, P: Attempts + Drop, F: FlipFinder + Drop>(
    judge: &FlipBench<'_, R, P, F>,
    bit: usize,
) -> bool
    requires { bit < length judge.now.seen.pair }
    ensures { result ≡ filled_bit (value_at judge.now.seen.pair bit) }
{
    match judge.bit(bit) {
        Some(value) => value,
        None => false,
    }
}

// The pair that the bits give, 0 where one is unset.
fn pair_of<R: ExposingRows, P: Attempts + Drop, F: FlipFinder + Drop>(
    alloc: Global,
    judge: &FlipBench<'_, R, P, F>,
) -> Result<Pair, NoMemory>
    ensures { IfOk result (λ pair. pair ≡ filled judge.now.seen.pair) }
{
    judge.exact();
    let mut pair = Pair::new(alloc);
    for bit in 0..judge.bit_count() {
        pair.push(is_one(judge, bit))?;
    }
    Ok(pair)
}

/// The end of a search with such an outcome: with the pair that it has found, or the code that it spent.
pub(crate) fn end_of<R: ExposingRows, P: Attempts + Drop, F: FlipFinder + Drop>(
    alloc: Global,
    judge: &FlipBench<'_, R, P, F>,
    search: &Search,
    outcome: Outcome,
) -> Result<SearchEnd, NoMemory>
    ensures { IfOk result (IsKept judge.now.seen.pair search.now.code outcome) }
{
    match outcome {
        Outcome::Found => Ok(SearchEnd::Found {
            pair: pair_of(alloc, judge)?,
        }),
        Outcome::Exhausted => Ok(SearchEnd::Exhausted),
        Outcome::Spent => Ok(SearchEnd::Spent {
            code: search.keep_code(alloc)?,
        }),
    }
}
