//! What the check answers on certificates of chips.

ghost use Rattle.std.specs.Prelude.{◌≡◌, length, IfSome};
ghost use Rattle.std.specs.List.{All};
ghost use Rattle.ca_flat.specs.Pair.{bit_count};
ghost use Rattle.ca_verilog.specs.IsNetlist.{IsNetlist};

use crate::chips::{Claimed, LIBRARY, OF_INVERTER, OF_TIED};
use ca_cell::StrengthTable;
use ca_cert_text::read_certificate;
use ca_chip_cert::check_over;
use ca_chip_defects::chip_defects;
use ca_claim::{Answer, Certificate};
use ca_lex::Text;
use ca_link::link;
use ca_linked::Chip;
use ca_pair::{Pair, Pairs};
use ca_rows::ChipRows;
use ca_spice::read_library;
use ca_verilog::{RawNetlist, read_netlist};
use ca_view::View;
use ca_wiring::ScanTable;
use std::alloc::Global;

// The chip of a netlist that was read, if it links.
fn linked_netlist(alloc: Global, raw: &RawNetlist) -> Option<Chip>
    requires { IsNetlist raw.now }
{
    let library = read_library(alloc, &StrengthTable::default_table(), LIBRARY).ok()?;
    link(alloc, raw, library, &ScanTable::new(alloc)).ok()
}

// The chip of a netlist, if it links.
fn linked(alloc: Global, netlist: &[u8]) -> Option<Chip> {
    let raw = read_netlist(alloc, netlist).ok()?;
    let chip = linked_netlist(alloc, &raw);
    drop(raw);
    chip
}

// The pair of `bits` digits.
fn pair_of(alloc: Global, digits: &[u8], bits: usize) -> Option<Pair>
    ensures { IfSome result (λ pair. length pair ≡ bits) }
{
    let mut pair = Pair::new(alloc);
    for bit in 0..bits {
        pair.push(bit < digits.len() && digits[bit] == b'1').ok()?;
    }
    Some(pair)
}

// The pairs of these digits.
fn pairs_of(alloc: Global, words: &[&[u8]], bits: usize) -> Option<Pairs>
    ensures { IfSome result (All (λ pair. length pair ≡ bits)) }
{
    let mut pairs = Pairs::new(alloc);
    for word in words {
        pairs.push(pair_of(alloc, word, bits)?).ok()?;
    }
    Some(pairs)
}

// What the check answers over a view and rows, where there is a claim for each defect.
fn answer_over(
    alloc: Global,
    view: &View<'_>,
    rows: &ChipRows<'_>,
    pairs: &Pairs,
    certificate: &Certificate,
) -> Option<Answer>
    requires rows { rows.now.chip ≡ view.now.chip }
    requires bits { All (λ bits. length bits ≡ bit_count view.now.core) pairs.now }
{
    let defects = chip_defects(alloc, view).ok()?;
    if defects.len() != certificate.claims.len() {
        return None;
    }
    check_over(alloc, view, rows, pairs, certificate).ok()
}

// The same over a view, for the pairs of these digits.
fn answer_viewed(
    alloc: Global,
    view: &View<'_>,
    words: &[&[u8]],
    certificate: &Certificate,
) -> Option<Answer> {
    view.linked();
    let pairs = pairs_of(alloc, words, 2 * view.input_count())?;
    let rows = ChipRows::new(alloc, view.chip()).ok()?;
    let answer = answer_over(alloc, view, &rows, &pairs, certificate);
    drop(rows);
    answer
}

// The same for a chip.
fn answer_for(
    alloc: Global,
    chip: &Chip,
    words: &[&[u8]],
    certificate: &Certificate,
) -> Option<Answer> {
    let view = View::new(alloc, chip).ok()?;
    let answer = answer_viewed(alloc, &view, words, certificate);
    drop(view);
    answer
}

// The same for a netlist and the text of a certificate.
fn answer(alloc: Global, netlist: &[u8], words: &[&[u8]], text: &[u8]) -> Option<Answer> {
    let certificate = read_certificate(alloc, text).ok()?;
    let chip = linked(alloc, netlist)?;
    let answer = answer_for(alloc, &chip, words, &certificate);
    drop(chip);
    answer
}

// The answer that is wanted.
fn wanted(first: Option<u32>) -> Answer {
    match first {
        Some(defect) => Answer::No { defect },
        None => Answer::Yes,
    }
}

// Whether the check answers what is wanted.
fn is_answered(alloc: Global, claimed: &Claimed) -> bool {
    let (netlist, words, text, first) = claimed;
    answer(alloc, netlist, words, text) == Some(wanted(*first))
}

#[test]
fn claims_on_an_inverter(rt: HostRuntime) {
    for claimed in &OF_INVERTER {
        assert!(rt; is_answered(rt.alloc(), claimed), "{:?}", claimed.2);
    }
}

#[test]
fn claims_on_a_gate_with_one_input(rt: HostRuntime) {
    for claimed in &OF_TIED {
        assert!(rt; is_answered(rt.alloc(), claimed), "{:?}", claimed.2);
    }
}

// The certificate of the inverter whose first claim is a code of many leaves.
fn long_text(alloc: Global, leaves: usize) -> Option<Text> {
    let mut text = Text::from_bytes(alloc, b"cellaware certificate 1 budget 3\nu").ok()?;
    for _ in 0..leaves {
        text.append(b" .").ok()?;
    }
    text.append(b"\nx\nx\nx\nx\nx\nx\nx\nx\n").ok()?;
    Some(text)
}

// What the check answers on it.
fn long_answer(alloc: Global, leaves: usize) -> Option<Answer> {
    let text = long_text(alloc, leaves)?;
    let (netlist, words, _, _) = OF_INVERTER[0];
    answer(alloc, netlist, words, text.as_bytes())
}

#[test]
fn a_code_of_a_million_tokens(rt: HostRuntime) {
    let answer = long_answer(rt.alloc(), 1_000_000);
    assert!(rt; answer == Some(Answer::No { defect: 0 }), "{answer:?}");
}
