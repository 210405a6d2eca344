//! The names of observed outputs, to be looked up.

ghost use Rattle.std.specs.Prelude.{◌≡◌, ◌<◌, ◌^◌, ◌+◌, length, take, IfOk, OnOk};
ghost use Rattle.ca_names.specs.Names.{place_of};
ghost use Rattle.ca_log.specs.code.Lookup.{IsLookup};

use ca_base::NoMemory;
use ca_lex::Names;
use ca_names::NameSet;
use std::alloc::Global;
use std::marker::Model;

/// The names of outputs: each different one once, with the first output that bears it. So a name is found
/// without a search through the others. Contracts see the list of all names.
#[derive(Drop)]
pub(crate) struct Lookup<'a> {
    names: &'a Names,
    different: NameSet,
    firsts: Vec<u32>,
}

impl<'a> Model for Lookup<'a> {
    ghost use Rattle.std.specs.Prelude.{ℕ, List};
    ghost use Rattle.ca_log.specs.code.Lookup.{IsLookup};

    ghost Value = { List (List ℕ) };

    ghost view = { λ lookup. lookup.names.now };

    ghost invariant = { λ lookup. IsLookup lookup.different lookup.firsts.items lookup.names.now };
}

// Adds the name of the next output, where none before it bears it.
#[tactic(auto, using(crate::proofs::LookupLemmas::same_name, crate::proofs::LookupLemmas::new_name))]
fn add(
    alloc: Global,
    different: &mut NameSet,
    firsts: &mut Vec<u32>,
    names: &Names,
    output: u32,
) -> Result<(), NoMemory>
    requires within { output < length names.now }
    requires before { IsLookup different.old firsts.old.items (take output names.now) }
    ensures { OnOk result (IsLookup different.new firsts.new.items (take (output + 1) names.now)) }
{
    let name = names.get(output as usize).as_bytes();
    if different.has(name) {
        return Ok(());
    }
    different.add(alloc, name)?;
    firsts.push(output)?;
    Ok(())
}

impl<'a> Lookup<'a> {
    /// The names of the outputs.
    pub(crate) fn of(alloc: Global, names: &'a Names) -> Result<Self, NoMemory>
        requires { length names.now < 2 ^ 32 }
        ensures { IfOk result (λ made. made ≡ names.now) }
    {
        let mut different = NameSet::new(alloc);
        let mut firsts = Vec::new(alloc);
        for output in 0..names.len() {
            add(alloc, &mut different, &mut firsts, names, output as u32)?;
        }
        Ok(Lookup {
            names,
            different,
            firsts,
        })
    }

    /// The first output of this name.
    pub(crate) fn find(&self, name: &[u8]) -> Option<u32>
        ensures { result ≡ place_of name.now self.now }
    {
        let place = self.different.place_of(name)?;
        self.firsts.get(place as usize).copied()
    }
}
