//! One command over a store and outputs in memory, and what it left.
ghost use Rattle.std.specs.Prelude.{◌≡◌, IfOk};
ghost use Rattle.ca_store.specs.Store.{Nothing};
ghost use Rattle.ca_store.specs.MemStore.{opened_by};

use crate::setup::{FailedCall, Put, Setup};
use ca_base::NoMemory;
use ca_store::{FailList, MemSink, MemStore};
use std::alloc::Global;

/// A program whose commands are tried.
pub trait Commands {
    /// Does one command, whose words come without the program's name. The answer is the exit status.
    fn answer(
        &mut self,
        alloc: Global,
        words: &[String],
        store: &mut MemStore,
        output: &mut MemSink,
        errors: &mut MemSink,
    ) -> u8
        requires { opened_by store.old ≡ Nothing };
}

/// What a command left: its status, the files, and what both outputs hold.
#[derive(Drop)]
pub(crate) struct Left {
    pub(crate) status: u8,
    pub(crate) store: MemStore,
    pub(crate) output: MemSink,
    pub(crate) errors: MemSink,
}

// A store as the setup says. It gives and takes at least one byte at once.
fn store_of(
    alloc: Global,
    setup: &Setup,
    put: Option<Put<'_>>,
    more: Option<FailedCall>,
) -> Result<MemStore, NoMemory>
    ensures { IfOk result (λ store. opened_by store ≡ Nothing) }
{
    let files = setup.file_map(alloc, put)?;
    let fails = setup.fail_list(alloc, more)?;
    MemStore::new(
        alloc,
        files,
        setup.limits.piece.max(1),
        setup.limits.space,
        fails,
    )
}

/// What the command of these words leaves, with one text in place of another, and one call more that fails.
pub(crate) fn left_by<C: Commands>(
    alloc: Global,
    commands: &mut C,
    setup: &Setup,
    words: &[String],
    put: Option<Put<'_>>,
    more: Option<FailedCall>,
) -> Result<Left, NoMemory> {
    let mut store = store_of(alloc, setup, put, more)?;
    let mut output = MemSink::new(alloc, setup.limits.output, FailList::new(alloc))?;
    let mut errors = MemSink::new(alloc, setup.limits.errors, FailList::new(alloc))?;
    let status = commands.answer(alloc, words, &mut store, &mut output, &mut errors);
    Ok(Left {
        status,
        store,
        output,
        errors,
    })
}
