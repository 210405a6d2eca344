//! Case files over the commands of `cellaware`.
#![tactic(auto)]

ghost use Rattle.std.specs.Prelude.{◌≡◌};
ghost use Rattle.ca_store.specs.Store.{Nothing};
ghost use Rattle.ca_store.specs.MemStore.{opened_by};

use ca_flow::{Unwatched, answer};
use ca_store::{MemSink, MemStore};
use ca_trial::{Commands, play_files};
use std::alloc::Global;

// The commands of `cellaware`.
#[derive(Drop)]
struct Cellaware;

impl Commands for Cellaware {
    fn answer(
        &mut self,
        alloc: Global,
        words: &[String],
        store: &mut MemStore,
        output: &mut MemSink,
        errors: &mut MemSink,
    ) -> u8
        requires { opened_by store.old ≡ Nothing }
    {
        answer(alloc, words, store, output, errors, &mut Unwatched)
    }
}

/// Plays the case files that the program's words name, and prints their answers. The answer is the exit
/// status: 0, or 1 where a case file isn't played to its end or not all is printed.
pub fn play(rt: HostRuntime) -> u8 {
    play_files(rt, &mut Cellaware)
}
