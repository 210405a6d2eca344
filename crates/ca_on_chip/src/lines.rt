//! The lines that say what a chip and its network have, and what its observed outputs settle to.
ghost use Rattle.std.specs.Prelude.{◌≡◌, ◌<◌, ◌++◌, length, slice_get, slice_index, IfOk, OnOk};
ghost use Rattle.ca_linked.specs.Instances.{gates_of};
ghost use Rattle.ca_net.specs.State.{value_at};
ghost use Rattle.ca_on_chip.specs.Lines.{part_defects, chip_defects, with_count, check_text, flatten_text};
ghost use Rattle.ca_on_chip.specs.Lines.{line_of_output, simulate_text, line_of_end, replay_text};

use ca_base::NoMemory;
use ca_lex::Text;
use ca_linked::Chip;
use ca_net::{FlatNet, Network, Trit, letter};
use ca_outputs::output_names;
use ca_scan::Chains;
use ca_simulate::OutputEnds;
use itoa::Buffer;
use std::alloc::Global;

/// The line that says what a chip has.
pub fn check_line(alloc: Global, chip: &Chip, chains: &Chains) -> Result<Text, NoMemory>
    ensures { IfOk result (λ text. text ≡ check_text chip.now chains.now) }
{
    let defects = count_defects(chip)?;
    let mut text = Text::new(alloc);
    add_count(&mut text, b"instances ", chip.instances())?;
    add_count(&mut text, b", scan ", chip.scan_count())?;
    add_count(&mut text, b", inputs ", chip.inputs())?;
    add_count(&mut text, b", outputs ", chip.outputs())?;
    add_count(&mut text, b", chains ", chains.len())?;
    add_count(&mut text, b", defects ", defects)?;
    text.append(b"\n")?;
    Ok(text)
}

// Appends a label and a number's digits.
fn add_count(text: &mut Text, label: &[u8], count: usize) -> Result<(), NoMemory>
    ensures { OnOk result (text.new ≡ with_count text.old label.now count) }
{
    text.append(label)?;
    text.append(Buffer::new().format(count).as_bytes())
}

// The number of defects of a chip. One that no `usize` holds is answered as though there were no memory for
// it.
fn count_defects(chip: &Chip) -> Result<usize, NoMemory>
    ensures { IfOk result (λ count. count ≡ chip_defects chip.now) }
{
    let mut count: usize = 0;
    for k in 0..chip.instances() {
        let Some(more) = count.checked_add(gate_defects(chip, k)) else {
            return Err(NoMemory);
        };
        count = more;
    }
    Ok(count)
}

// The number of defects of the k-th library instance.
#[tactic(auto, using(crate::proofs::ChipLemmas::gate_is_library, crate::proofs::ChipLemmas::defects_are))]
fn gate_defects(chip: &Chip, k: usize) -> usize
    requires { k < length (gates_of chip.now) }
    ensures { result ≡ part_defects chip.now.cells
        (slice_get chip.now.parts (slice_index (gates_of chip.now) k)) }
{
    chip.cell_of(chip.instance(k)).defect_count()
}

/// The line that says what a flat network has.
pub fn flatten_line(alloc: Global, net: &FlatNet) -> Result<Text, NoMemory>
    ensures { IfOk result (λ text. text ≡ flatten_text net.now) }
{
    let mut text = Text::new(alloc);
    add_count(&mut text, b"nodes ", net.node_count())?;
    add_count(&mut text, b", devices ", net.device_count())?;
    text.append(b"\n")?;
    Ok(text)
}

/// One line for each observed output of a chip.
#[tactic(auto, using(crate::proofs::LineLemmas::output_pushed))]
pub fn simulate_lines(alloc: Global, chip: &Chip, ends: &OutputEnds) -> Result<Text, NoMemory>
    ensures { IfOk result (λ text. text ≡ simulate_text chip.now ends.now.good.items ends.now.faulty.items) }
{
    let names = output_names(alloc, chip)?;
    let mut text = Text::new(alloc);
    for o in 0..names.len() {
        let good = value_at(&ends.good, o);
        let faulty = value_at(&ends.faulty, o);
        add_output(&mut text, names.get(o), good, faulty)?;
    }
    Ok(text)
}

/// One line for each observed output of a chip, in one run.
#[tactic(auto, using(crate::proofs::LineLemmas::end_pushed))]
pub fn replay_lines(alloc: Global, chip: &Chip, ends: &[Trit]) -> Result<Text, NoMemory>
    ensures { IfOk result (λ text. text ≡ replay_text chip.now ends.now) }
{
    let names = output_names(alloc, chip)?;
    let mut text = Text::new(alloc);
    for o in 0..names.len() {
        let value = value_at(ends, o);
        add_end(&mut text, names.get(o), value)?;
    }
    Ok(text)
}

// Appends the line of what an observed output ends with.
fn add_end(text: &mut Text, name: &Text, value: Trit) -> Result<(), NoMemory>
    ensures { OnOk result (text.new ≡ text.old ++ line_of_end name.now value) }
{
    text.append(name.as_bytes())?;
    text.push(b'=')?;
    text.push(letter(value))?;
    text.append(b"\n")
}

// The value at a place; X past the end.
fn value_at(values: &[Trit], place: usize) -> Trit
    ensures { result ≡ value_at values.now place }
{
    if place < values.len() {
        values[place]
    } else {
        Trit::X
    }
}

// Appends the line of an observed output.
fn add_output(text: &mut Text, name: &Text, good: Trit, faulty: Trit) -> Result<(), NoMemory>
    ensures { OnOk result (text.new ≡ text.old ++ line_of_output name.now good faulty) }
{
    text.append(name.as_bytes())?;
    text.push(b' ')?;
    text.push(letter(good))?;
    text.push(b' ')?;
    text.push(letter(faulty))?;
    text.append(b"\n")
}
