//! Patterns as a STIL text.

ghost use Rattle.std.specs.Prelude.{◌≡◌, ◌++◌, ◌<◌, ◌≤◌, ◌+◌, length, map, drop, OnOk, IfOk, codes, []};
ghost use Rattle.std.specs.Prelude.{slice_index};
ghost use Rattle.std.specs.List.{All};
ghost use Rattle.ca_stil.specs.Chip.{longest, IsStilChip, IsPairOf, AreValuesOf, AreOf};
ghost use Rattle.ca_stil.specs.Groups.{signals_text, groups_text};
ghost use Rattle.ca_stil.specs.Frame.{timing_text, structures_text, burst_text, macro_text};
ghost use Rattle.ca_stil.specs.Pair.{pair_text};
ghost use Rattle.ca_stil.specs.Text.{structure_text, frame_text, pairs_text, patterns_text, stil_text};

use crate::chip::StilChip;
use crate::frame::{push_burst, push_macro, push_structures, push_timing};
use crate::groups::{push_groups, push_signals};
use crate::pair::push_pair;
use crate::patterns::{ExpectedValues, PatternBits};
use crate::room::room_of;
use crate::shift::longest;
use ca_base::NoMemory;
use ca_lex::Text;
use std::alloc::Global;

// Appends the blocks of the chains, the burst and the macro.
#[tactic(auto, unfolding(crate::specs::Text::structure_text))]
fn push_structure(text: &mut Text, chip: &StilChip) -> Result<(), NoMemory>
    ensures { OnOk result (text.new ≡ text.old ++ structure_text chip.now) }
{
    let chains = chip.chains.as_slice();
    push_structures(text, chains)?;
    push_burst(text)?;
    push_macro(text, chains)
}

// Appends all before the patterns.
#[tactic(auto, unfolding(crate::specs::Text::frame_text))]
fn push_frame(text: &mut Text, chip: &StilChip) -> Result<(), NoMemory>
    ensures { OnOk result (text.new ≡ text.old ++ frame_text chip.now) }
{
    text.append(b"STIL 1.0;\n")?;
    push_signals(text, chip.signals.as_slice())?;
    push_groups(text, chip)?;
    push_timing(text, chip)?;
    push_structure(text, chip)
}

// Appends the statements of the pairs; `most` is the number of cells of the longest chain.
fn push_pairs<P: PatternBits, E: ExpectedValues>(
    text: &mut Text,
    chip: &StilChip,
    most: usize,
    pairs: &[P],
    expected: &[E],
) -> Result<(), NoMemory>
    requires { AreOf chip.now (map P.bits pairs.now) (map E.values expected.now) }
    ensures { OnOk result (text.new
        ≡ text.old ++ pairs_text chip.now most 0 (map P.bits pairs.now) (map E.values expected.now)) }
{
    for number in 0..pairs.len() {
        push_pair(text, chip, most, number, &pairs[number], &expected[number])?;
    }
    Ok(())
}

// Appends the block of the patterns.
#[tactic(auto, unfolding(crate::specs::Text::patterns_text))]
fn push_patterns<P: PatternBits, E: ExpectedValues>(
    text: &mut Text,
    chip: &StilChip,
    most: usize,
    pairs: &[P],
    expected: &[E],
) -> Result<(), NoMemory>
    requires most { most ≡ longest chip.now.chains }
    requires of { AreOf chip.now (map P.bits pairs.now) (map E.values expected.now) }
    ensures { OnOk result (text.new
        ≡ text.old ++ patterns_text chip.now (map P.bits pairs.now) (map E.values expected.now)) }
{
    text.append(b"Pattern \"_pattern_\" {\n  W \"_wft_\";\n")?;
    push_pairs(text, chip, most, pairs, expected)?;
    text.append(b"}\n")
}

/// The STIL text of a chip's pairs and of the values that are expected under each. Room for it is taken at
/// once, before it is written.
#[tactic(auto, unfolding(crate::specs::Text::stil_text))]
pub fn write_stil<P: PatternBits, E: ExpectedValues>(
    alloc: Global,
    chip: &StilChip,
    pairs: &[P],
    expected: &[E],
) -> Result<Text, NoMemory>
    requires { AreOf chip.now (map P.bits pairs.now) (map E.values expected.now) }
    ensures ok { IfOk result (λ text.
        text ≡ stil_text chip.now (map P.bits pairs.now) (map E.values expected.now)) }
{
    let most = longest(chip.chains.as_slice());
    let room = room_of(chip, most, pairs.len());
    let mut text = Text::from_vec(Vec::with_capacity(alloc, room)?);
    push_frame(&mut text, chip)?;
    push_patterns(&mut text, chip, most, pairs, expected)?;
    Ok(text)
}
