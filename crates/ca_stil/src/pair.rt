//! The statements of a pair, one after another.

ghost use Rattle.std.specs.Prelude.{◌≡◌, ◌++◌, ◌<◌, ◌≤◌, ◌+◌, length, OnOk, codes};
ghost use Rattle.std.specs.List.{All};
ghost use Rattle.ca_stil.specs.Chip.{part, width_of, IsStilChip, IsPairOf, AreValuesOf};
ghost use Rattle.ca_stil.specs.code.Chip.{Spans};
ghost use Rattle.ca_stil.specs.Pair.{load_text, hold_text, vector_text, apply_text, half_text, first_text};
ghost use Rattle.ca_stil.specs.Pair.{second_text, expected_text, unobserved_text, unload_text, label_text};
ghost use Rattle.ca_stil.specs.Pair.{pair_text};

use crate::chip::StilChip;
use crate::patterns::{ExpectedValues, PatternBits};
use crate::statement::{
    push_expected, push_hold, push_label, push_load, push_unload, push_unobserved, push_vector,
};
use ca_base::NoMemory;
use ca_lex::Text;

// Appends that a vector is applied.
#[tactic(auto, unfolding(crate::specs::Pair::apply_text))]
fn push_apply<P: PatternBits>(
    text: &mut Text,
    chip: &StilChip,
    pair: &P,
    from: usize,
) -> Result<(), NoMemory>
    requires long { Spans from (length chip.now.inputs) (P.bits pair.now) }
    ensures { OnOk result (text.new
        ≡ text.old ++ apply_text chip.now (part from (length chip.now.inputs) (P.bits pair.now))) }
{
    text.append(b"V {")?;
    push_hold(text, chip.chains.as_slice())?;
    push_vector(text, pair, from, chip.inputs.len())
}

// Appends that a state is loaded and a vector is applied.
#[tactic(auto, unfolding(crate::specs::Pair::half_text))]
fn push_half<P: PatternBits>(
    text: &mut Text,
    chip: &StilChip,
    most: usize,
    pair: &P,
    from: usize,
) -> Result<(), NoMemory>
    requires chip { IsStilChip chip.now }
    requires long { Spans from (width_of chip.now) (P.bits pair.now) }
    ensures { OnOk result (text.new ≡ text.old ++ half_text chip.now most (P.bits pair.now) from) }
{
    let state = from + chip.inputs.len();
    push_load(
        text,
        most,
        pair,
        state,
        chip.scan_count,
        chip.chains.as_slice(),
    )?;
    push_apply(text, chip, pair, from)
}

// Appends the first vector.
#[tactic(auto, unfolding(crate::specs::Pair::first_text))]
fn push_first<P: PatternBits>(
    text: &mut Text,
    chip: &StilChip,
    most: usize,
    pair: &P,
) -> Result<(), NoMemory>
    requires chip { IsStilChip chip.now }
    requires long { Spans 0 (width_of chip.now) (P.bits pair.now) }
    ensures { OnOk result (text.new ≡ text.old ++ first_text chip.now most (P.bits pair.now)) }
{
    push_half(text, chip, most, pair, 0)?;
    push_unobserved(text, chip.outputs.len())?;
    text.append(b" }\n")
}

// Appends the second vector.
#[tactic(auto, unfolding(crate::specs::Pair::second_text))]
fn push_second<P: PatternBits, E: ExpectedValues>(
    text: &mut Text,
    chip: &StilChip,
    most: usize,
    pair: &P,
    width: usize,
    expected: &E,
) -> Result<(), NoMemory>
    requires chip { IsStilChip chip.now }
    requires width { width ≡ width_of chip.now }
    requires long { Spans width (width_of chip.now) (P.bits pair.now) }
    requires expected { AreValuesOf chip.now (E.values expected.now) }
    ensures { OnOk result (text.new
        ≡ text.old ++ second_text chip.now most (P.bits pair.now) (E.values expected.now)) }
{
    push_half(text, chip, most, pair, width)?;
    push_expected(text, expected, chip.outputs.len())?;
    text.append(b" }\n")
}

/// Appends the statements of a pair; `most` is the number of cells of the longest chain.
#[tactic(auto, unfolding(crate::specs::Pair::pair_text))]
pub(crate) fn push_pair<P: PatternBits, E: ExpectedValues>(
    text: &mut Text,
    chip: &StilChip,
    most: usize,
    number: usize,
    pair: &P,
    expected: &E,
) -> Result<(), NoMemory>
    requires chip { IsStilChip chip.now }
    requires pair { IsPairOf chip.now (P.bits pair.now) }
    requires expected { AreValuesOf chip.now (E.values expected.now) }
    ensures { OnOk result (text.new
        ≡ text.old ++ pair_text chip.now most number (P.bits pair.now) (E.values expected.now)) }
{
    let width = pair.len() / 2;
    let outputs = expected.len() - chip.scan_count;
    text.append(b"  ")?;
    push_label(text, number)?;
    push_first(text, chip, most, pair)?;
    text.append(b"  ")?;
    push_second(text, chip, most, pair, width, expected)?;
    push_unload(
        text,
        most,
        expected,
        outputs,
        chip.scan_count,
        chip.chains.as_slice(),
    )
}
