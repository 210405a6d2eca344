//! Room for a text, taken before it is written. No clause says that it is enough: a text that has more bytes
//! grows.

use crate::chip::{Signal, StilChain, StilChip};
use ca_lex::Text;

// Bytes of a text whose lists are empty, and of an entry beside its names, at most.
const FIXED: usize = 1_200;

const NAME: usize = 10;

const CHAIN: usize = 160;

const PAIR: usize = 320;

// Bytes of these names, with what is beside each.
fn names_room(names: &[Text]) -> usize {
    let mut room = 0usize;
    for name in names {
        room = room.saturating_add(name.len()).saturating_add(NAME);
    }
    room
}

// Bytes of the lines of the signals.
fn signals_room(signals: &[Signal]) -> usize {
    let mut room = 0usize;
    for signal in signals {
        room = room.saturating_add(signal.name.len()).saturating_add(NAME);
    }
    room
}

// Bytes of the ports of the chains, with what is beside each wherever it is named.
fn ends_room(chains: &[StilChain]) -> usize {
    let mut room = 0usize;
    for chain in chains {
        room = room
            .saturating_add(chain.scan_in.len())
            .saturating_add(chain.scan_out.len())
            .saturating_add(NAME);
    }
    room
}

// Bytes of the statements of a pair.
fn pair_room(chip: &StilChip, most: usize) -> usize {
    let chains = chip.chains.as_slice();
    let cells = chains.len().saturating_mul(most).saturating_mul(2);
    let chained = ends_room(chains).saturating_add(cells).saturating_mul(3);
    let inputs = chip.inputs.len().saturating_mul(2);
    let outputs = chip.outputs.len().saturating_mul(3);
    chained
        .saturating_add(inputs)
        .saturating_add(outputs)
        .saturating_add(PAIR)
}

/// How many bytes the text of `pairs` pairs has at most; `most` is the number of cells of the longest chain.
pub(crate) fn room_of(chip: &StilChip, most: usize, pairs: usize) -> usize {
    let chains = chip.chains.as_slice();
    let blocks = ends_room(chains)
        .saturating_add(chains.len().saturating_mul(CHAIN))
        .saturating_mul(3);
    let groups = names_room(chip.inputs.as_slice())
        .saturating_add(names_room(chip.outputs.as_slice()))
        .saturating_add(names_room(chip.controls.as_slice()));
    pair_room(chip, most)
        .saturating_mul(pairs)
        .saturating_add(blocks)
        .saturating_add(groups)
        .saturating_add(signals_room(chip.signals.as_slice()))
        .saturating_add(FIXED)
}
