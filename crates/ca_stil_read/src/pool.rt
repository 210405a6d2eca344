//! The names that a group may have.

ghost use Rattle.std.specs.Prelude.{◌≡◌, ◌++◌, ◌∷◌, ◌==◌, ◌&&◌, ℕ, List, [], map, length, true, false, not};
ghost use Rattle.std.specs.Prelude.{if◌then◌else◌};
ghost use Rattle.std.specs.Prelude.{IfOk, OnOk};
ghost use Rattle.std.specs.List.{list_all, list_any};
ghost use Rattle.std.specs.Str.{bytes_eq};
ghost use Rattle.ca_names.specs.Names.{has_name};
ghost use Rattle.ca_stil_form.specs.Frame.{goes, names_of, is_name, is_group, is_among, all_in};
ghost use Rattle.ca_stil_form.specs.Value.{signal_seen};
ghost use Rattle.ca_stil_read.specs.code.Groups.{fits_of, ArePools};

use crate::name::is_name;
use ca_base::NoMemory;
use ca_lex::{Names, Text};
use ca_names::NameSet;
use ca_stil::Signal;
use std::alloc::Global;

// Whether a signal goes in this direction.
fn goes(input: bool, signal: &Signal) -> bool
    ensures { result ≡ goes input (signal_seen signal.now) }
{
    if input {
        signal.is_input
    } else {
        !signal.is_input
    }
}

// Adds a signal's name, if it goes in this direction.
fn push_name(alloc: Global, names: &mut Names, input: bool, signal: &Signal) -> Result<(), NoMemory>
    ensures { OnOk result (names.new
        ≡ names.old ++ (if goes input (signal_seen signal.now) then signal.now.name ∷ [] else [])) }
{
    if goes(input, signal) {
        names.push(signal.name.copy(alloc)?)
    } else {
        Ok(())
    }
}

// The names of the signals of one direction.
#[tactic(auto, unfolding(ca_stil_form::specs::Frame::names_of))]
fn names_of(alloc: Global, input: bool, signals: &[Signal]) -> Result<Names, NoMemory>
    ensures { IfOk result (λ names. names ≡ names_of input (map signal_seen signals.now)) }
{
    let mut names = Names::new(alloc);
    let mut rest = signals;
    'signals: while let [signal, more @ ..] = rest {
        push_name(alloc, &mut names, input, signal)?;
        rest = more;
    }
    Ok(names)
}

// The set of these names.
fn set_of(alloc: Global, names: &[Text]) -> Result<NameSet, NoMemory>
    ensures { IfOk result (λ set. (name : List ℕ) → has_name name set ≡ has_name name names.now) }
{
    let mut set = NameSet::new(alloc);
    let mut rest = names;
    'names: while let [name, more @ ..] = rest {
        set.add(alloc, name.as_bytes())?;
        rest = more;
    }
    Ok(set)
}

/// The names of a text's signals: of those that go in, and of those that go out.
#[derive(Drop)]
pub(crate) struct Pools {
    pub ins: Names,
    pub outs: Names,
    pub in_set: NameSet,
    pub out_set: NameSet,
}

/// Those of these signals.
pub(crate) fn pools_of(alloc: Global, signals: &[Signal]) -> Result<Pools, NoMemory>
    ensures { IfOk result (ArePools (map signal_seen signals.now)) }
{
    let ins = names_of(alloc, true, signals)?;
    let outs = names_of(alloc, false, signals)?;
    let in_set = set_of(alloc, ins.as_slice())?;
    let out_set = set_of(alloc, outs.as_slice())?;
    Ok(Pools {
        ins,
        outs,
        in_set,
        out_set,
    })
}

/// What a group's names have to be: some of these in their order, or a number of these in any order.
#[derive(Clone, Copy)]
pub(crate) enum Fit<'p> {
    InOrder(&'p [Text]),
    InNumber(usize, &'p NameSet),
}

fn all_named(names: &[Text]) -> bool
    ensures { result ≡ list_all is_name names.now }
{
    let mut rest = names;
    'names: while let [name, more @ ..] = rest {
        if !is_name(name.as_bytes()) {
            return false;
        }
        rest = more;
    }
    true
}

fn is_group(names: &[Text]) -> bool
    ensures { result ≡ is_group names.now }
{
    names.len() != 0 && all_named(names)
}

#[tactic(auto, unfolding(ca_stil_form::specs::Frame::is_among))]
fn is_among(names: &[Text], pool: &[Text]) -> bool
    ensures { result ≡ is_among names.now pool.now }
{
    let mut left = names;
    let mut rest = pool;
    'pool: loop {
        let [name, more @ ..] = left else {
            return true;
        };
        let [other, after @ ..] = rest else {
            return false;
        };
        if name.as_bytes() == other.as_bytes() {
            left = more;
        }
        rest = after;
    }
}

fn all_in(set: &NameSet, names: &[Text]) -> bool
    ensures { result ≡ all_in set.now names.now }
{
    let mut rest = names;
    'names: while let [name, more @ ..] = rest {
        if !set.has(name.as_bytes()) {
            return false;
        }
        rest = more;
    }
    true
}

/// Whether names are what a group's have to be.
pub(crate) fn fits(fit: Fit<'_>, names: &[Text]) -> bool
    ensures { result ≡ fits_of fit.entry names.now }
{
    match fit {
        Fit::InOrder(pool) => is_group(names) && is_among(names, pool),
        Fit::InNumber(count, set) => {
            is_group(names) && (names.len() == count && all_in(set, names))
        }
    }
}
