//! What was generated, as a text.

use ca_base::NoMemory;
use ca_code::Code;
use ca_credit::Verdict;
use ca_flat::Token;
use ca_generate::{GenerateFault, Generated};
use ca_lex::Text;
use ca_pair::Pair;
use std::alloc::Global;

// Appends a number below 1,000 with a space before it.
fn number(text: &mut Text, number: usize) -> Result<(), NoMemory> {
    text.push(b' ')?;
    if number >= 100 {
        text.push(b'0' + (number / 100 % 10) as u8)?;
    }
    if number >= 10 {
        text.push(b'0' + (number / 10 % 10) as u8)?;
    }
    text.push(b'0' + (number % 10) as u8)
}

// Appends the bits of a pair with a space before them.
fn bits(text: &mut Text, pair: &Pair) -> Result<(), NoMemory> {
    text.push(b' ')?;
    for bit in 0..pair.len() {
        text.push(if pair.get(bit) { b'1' } else { b'0' })?;
    }
    Ok(())
}

// The letter of a verdict: credited, unexposable, untestable or aborted, there with an empty code or not.
fn letter(verdict: &Verdict) -> u8 {
    match verdict {
        Verdict::Credited { .. } => b'c',
        Verdict::Unexposable => b'x',
        Verdict::Untestable => b'u',
        Verdict::Aborted { code } => { if code.len() == 0 { b'e' } else { b'a' } }
    }
}

// The number of verdicts with this letter.
fn count(made: &Generated, wanted: u8) -> usize {
    let mut count = 0;
    for place in 0..made.verdicts.len() {
        if letter(made.verdicts.get(place)) == wanted {
            count += 1;
        }
    }
    count
}

/// The counts, a line for each.
pub(crate) fn summary(alloc: Global, made: &Generated) -> Result<Text, NoMemory> {
    let mut text = Text::new(alloc);
    text.append(b"defects")?;
    number(&mut text, made.verdicts.len())?;
    text.append(b", credited")?;
    number(&mut text, count(made, b'c'))?;
    text.append(b", unexposable")?;
    number(&mut text, count(made, b'x'))?;
    text.append(b", untestable")?;
    number(&mut text, count(made, b'u'))?;
    text.append(b", aborted")?;
    number(
        &mut text,
        count(made, b'e').saturating_add(count(made, b'a')),
    )?;
    text.append(b", empty")?;
    number(&mut text, count(made, b'e'))?;
    text.append(b", pairs")?;
    number(&mut text, made.pairs.len())?;
    Ok(text)
}

/// The pairs with their aims, and the verdicts, a line for each.
pub(crate) fn all(alloc: Global, made: &Generated) -> Result<Text, NoMemory> {
    let mut text = Text::new(alloc);
    for pair in 0..made.pairs.len() {
        text.append(b"pair")?;
        if let Some(pair) = made.pairs.as_slice().get(pair) {
            bits(&mut text, pair)?;
        }
        if pair < made.aims.len() {
            number(&mut text, made.aims.get(pair) as usize)?;
        }
        text.append(b"\n")?;
    }
    for place in 0..made.verdicts.len() {
        let verdict = made.verdicts.get(place);
        text.push(letter(verdict))?;
        if let Verdict::Credited { pair, output } = verdict {
            number(&mut text, *pair as usize)?;
            number(&mut text, *output as usize)?;
        }
        text.append(b"\n")?;
    }
    Ok(text)
}

// Appends the tokens of a code: the bit of a branch with its first value, and `-` for a leaf.
fn tokens(text: &mut Text, code: &Code) -> Result<(), NoMemory> {
    for place in 0..code.len() {
        match code.get(place) {
            Token::Branch { bit, first } => {
                number(text, usize::from(bit))?;
                text.append(if first { b"=1" } else { b"=0" })?;
            }
            Token::Leaf => text.append(b" -")?,
        }
    }
    Ok(())
}

/// The letter of the verdict on the defect at a place, and after it the bits of the pair to which it is
/// credited, or the code of the search that was given up.
pub(crate) fn verdict(alloc: Global, made: &Generated, place: usize) -> Result<Text, NoMemory> {
    let mut text = Text::new(alloc);
    if place >= made.verdicts.len() {
        return Ok(text);
    }
    let verdict = made.verdicts.get(place);
    text.push(letter(verdict))?;
    match verdict {
        Verdict::Credited { pair, output: _ } => {
            if let Some(pair) = made.pairs.as_slice().get(*pair as usize) {
                bits(&mut text, pair)?;
            }
        }
        Verdict::Aborted { code } => tokens(&mut text, code)?,
        Verdict::Unexposable | Verdict::Untestable => {}
    }
    Ok(text)
}

/// What is reported about a fault.
pub(crate) fn fault(fault: &GenerateFault) -> &'static [u8] {
    match fault {
        GenerateFault::TooManyPairs { .. } => b"too many pairs",
        GenerateFault::NoMemory => b"no memory",
    }
}
