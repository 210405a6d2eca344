//! The outputs that were logged, pair by pair.

ghost use Rattle.std.specs.Prelude.{◌≡◌, ◌<◌, ◌++◌, ◌∷◌, [], length, replicate, slice_set, slice_index_or};
ghost use Rattle.std.specs.Prelude.{IfOk, OnOk, true, false};
ghost use Rattle.std.specs.List.{All};
ghost use Rattle.ca_diag.specs.code.Failing.{AreByPair, AreMarked};

use ca_base::{List, NoMemory};
use ca_log::{Log, LogRecord};
use std::alloc::Global;
use std::marker::Model;

/// For each pair the outputs that were logged for it, in order.
#[derive(Drop)]
pub(crate) struct ByPair {
    rows: Vec<List<u32>>,
}

impl Model for ByPair {
    ghost use Rattle.std.specs.Prelude.{ℕ, List};

    ghost Value = { List (List ℕ) };

    ghost view = { λ by. by.rows.items };
}

impl ByPair {
    // Nothing is logged.
    fn begin(alloc: Global, pairs: usize) -> Result<Self, NoMemory>
        ensures { IfOk result (λ by. by ≡ replicate pairs []) }
    {
        let mut rows = Vec::new(alloc);
        for _k in 0..pairs {
            rows.push(List::new(alloc))?;
        }
        Ok(ByPair { rows })
    }

    // One more output is logged for a pair.
    fn add(&mut self, here: LogRecord) -> Result<(), NoMemory>
        requires { here.pair < length self.old }
        ensures { OnOk result (self.new ≡ slice_set self.old here.pair
            (slice_index_or self.old here.pair [] ++ here.output ∷ [])) }
    {
        Ok(self.rows[here.pair as usize].push(here.output)?)
    }

    /// The log of this many pairs.
    pub(crate) fn of(alloc: Global, pairs: usize, log: &Log) -> Result<Self, NoMemory>
        requires { All (λ here. here.pair < pairs) log.now }
        ensures { IfOk result (AreByPair pairs log.now) }
    {
        let mut by = ByPair::begin(alloc, pairs)?;
        for k in 0..log.len() {
            by.add(log.get(k))?;
        }
        Ok(by)
    }

    /// The outputs that were logged for a pair.
    pub(crate) fn outputs(&self, pair: usize) -> &List<u32>
        requires { pair < length self.now }
        ensures { result.now ≡ slice_index_or self.now pair [] }
    {
        &self.rows[pair]
    }
}

/// The outputs that were logged for a pair, as a list and as marks.
#[derive(Clone, Copy)]
pub(crate) struct Failing<'a> {
    pub(crate) outputs: &'a List<u32>,
    pub(crate) marks: &'a [bool],
}

// Clears all marks.
fn clear(marks: &mut Vec<bool>)
    ensures room { length marks.new.items ≡ length marks.old.items }
    ensures none { AreMarked [] marks.new.items }
{
    for k in 0..marks.len() {
        marks[k] = false;
    }
}

/// Marks these outputs and no others.
pub(crate) fn mark(marks: &mut Vec<bool>, outputs: &List<u32>)
    requires { All (λ output. output < length marks.old.items) outputs.now }
    ensures room { length marks.new.items ≡ length marks.old.items }
    ensures marked { AreMarked outputs.now marks.new.items }
{
    clear(marks);
    for k in 0..outputs.len() {
        marks[outputs.get(k) as usize] = true;
    }
}
