//! Reading a cell netlist, line by line.
ghost use Rattle.std.specs.Prelude.{◌≡◌, ◌++◌};
ghost use Rattle.std.specs.List.{All, list_all};
ghost use Rattle.ca_spice.specs.code.Kept.{IsPlacedCell, IsUpper, names_of};
ghost use Rattle.ca_spice.specs.code.Named.{open_names};
ghost use Rattle.ca_spice.specs.code.Names.{texts};
ghost use Rattle.ca_spice.specs.Reading.{is_header_word, is_header};

use crate::card::{Card, card_of};
use crate::fault::{Refusal, SpiceFault, SpiceKind};
use crate::mos::is_sign;
use crate::names::{all_text, is_name};
use crate::open_cell::OpenCell;
use crate::opening::opened;
use crate::subcircuit::Subcircuit;
use ca_cell::StrengthTable;
use ca_lex::{Line, fold, spice_words};
use ca_names::NameSet;
use std::alloc::Global;

/// What was read so far.
#[derive(Drop)]
pub(crate) struct Reading {
    pub names: NameSet,
    pub cells: Vec<Subcircuit>,
    pub current: Option<OpenCell>,
    ghost named: { names ≡ names_of cells.items ++ open_names current },
    ghost upper: { All IsUpper names },
    ghost placed: { All (λ cell. IsPlacedCell cell.raw) cells.items },
}

impl Reading {
    ghost use Rattle.std.specs.Prelude.{IsTrue};
    ghost use Rattle.ca_lex.specs.Reading.{Gives};
    ghost use Rattle.ca_spice.specs.code.SpiceFault.{kind_reported};
    ghost use Rattle.ca_spice.specs.OpenCell.{pin_info, mos, resistor};
    ghost use Rattle.ca_spice.specs.Reading.{nothing, is_outside, named, subckt, ends, in_cell, card_step};
    ghost use Rattle.ca_spice.specs.Reading.{is_comment, words_step, line_step};
    ghost use Rattle.ca_spice.specs.code.Views.{reading_seen};

    /// What is read before the first line.
    pub(crate) fn new(alloc: Global) -> Self
        ensures { reading_seen result ≡ nothing }
    {
        Reading {
            names: NameSet::new(alloc),
            cells: Vec::new(alloc),
            current: None,
        }
    }

    // No subcircuit is open.
    fn is_outside(&self) -> bool
        ensures { result ≡ is_outside (reading_seen self.now) }
    {
        self.current.is_none()
    }

    // A subcircuit of this name begins.
    fn named(self, alloc: Global, line: usize, name: &[u8], pins: &[&[u8]]) -> Result<Self, Refusal>
        requires outside { IsTrue (is_outside (reading_seen self)) }
        requires upper { IsUpper name.now }
        ensures { Gives kind_reported reading_seen result
            (named line name.now (texts pins.now) (reading_seen self)) }
    {
        let Reading {
            mut names,
            cells,
            current,
        } = self;
        drop(current);
        let cell = opened(alloc, &mut names, line, name, pins)?;
        Ok(Reading {
            names,
            cells,
            current: Some(cell),
        })
    }

    #[tactic(auto, unfolding(crate::specs::Reading::subckt))]
    fn subckt(self, alloc: Global, line: usize, words: &[&[u8]]) -> Result<Self, Refusal>
        requires { All IsUpper (texts words.now) }
        ensures { Gives kind_reported reading_seen result
            (subckt line (texts words.now) (reading_seen self)) }
    {
        match words {
            [name, pins @ ..] if self.is_outside() && is_header(words) => {
                self.named(alloc, line, name, pins)
            }
            _ => {
                drop(self);
                Err(Refusal::Kind(SpiceKind::BadCard))
            }
        }
    }

    #[tactic(auto, unfolding(crate::specs::Reading::ends))]
    fn ends(self, alloc: Global, words: &[&[u8]]) -> Result<Self, Refusal>
        ensures { Gives kind_reported reading_seen result (ends (texts words.now) (reading_seen self)) }
    {
        let Reading {
            names,
            mut cells,
            current,
        } = self;
        let Some(cell) = current else {
            return Err(Refusal::Kind(SpiceKind::BadCard));
        };
        let cell = cell.ended(alloc, words)?;
        cells.push(cell)?;
        Ok(Reading {
            names,
            cells,
            current: None,
        })
    }

    fn pin_info(self, words: &[&[u8]]) -> Result<Self, Refusal>
        ensures { Gives kind_reported reading_seen result
            (in_cell (pin_info (texts words.now)) (reading_seen self)) }
    {
        let Reading {
            names,
            cells,
            current,
        } = self;
        let Some(cell) = current else {
            return Err(Refusal::Kind(SpiceKind::BadCard));
        };
        let cell = cell.pin_info(words)?;
        Ok(Reading {
            names,
            cells,
            current: Some(cell),
        })
    }

    fn mos(
        self,
        alloc: Global,
        table: &StrengthTable,
        name: &[u8],
        words: &[&[u8]],
    ) -> Result<Self, Refusal>
        ensures { Gives kind_reported reading_seen result
            (in_cell (mos table.now name.now (texts words.now)) (reading_seen self)) }
    {
        let Reading {
            names,
            cells,
            current,
        } = self;
        let Some(cell) = current else {
            return Err(Refusal::Kind(SpiceKind::BadCard));
        };
        let cell = cell.mos(alloc, table, name, words)?;
        Ok(Reading {
            names,
            cells,
            current: Some(cell),
        })
    }

    fn resistor(
        self,
        alloc: Global,
        table: &StrengthTable,
        name: &[u8],
        words: &[&[u8]],
    ) -> Result<Self, Refusal>
        ensures { Gives kind_reported reading_seen result
            (in_cell (resistor table.now name.now (texts words.now)) (reading_seen self)) }
    {
        let Reading {
            names,
            cells,
            current,
        } = self;
        let Some(cell) = current else {
            return Err(Refusal::Kind(SpiceKind::BadCard));
        };
        let cell = cell.resistor(alloc, table, name, words)?;
        Ok(Reading {
            names,
            cells,
            current: Some(cell),
        })
    }

    #[tactic(auto, unfolding(crate::specs::Reading::card_step))]
    fn card(
        self,
        alloc: Global,
        table: &StrengthTable,
        card: Card,
        line: usize,
        word: &[u8],
        words: &[&[u8]],
    ) -> Result<Self, Refusal>
        requires { All IsUpper (texts words.now) }
        ensures { Gives kind_reported reading_seen result
            (card_step table.now card line word.now (texts words.now) (reading_seen self)) }
    {
        match card {
            Card::Subckt => self.subckt(alloc, line, words),
            Card::Ends => self.ends(alloc, words),
            Card::PinInfo => self.pin_info(words),
            Card::Mos => self.mos(alloc, table, word, words),
            Card::Resistor => self.resistor(alloc, table, word, words),
            Card::Ignored => Ok(self),
            Card::Stray => {
                drop(self);
                Err(Refusal::Kind(SpiceKind::BadCard))
            }
            Card::Unknown => {
                drop(self);
                Err(Refusal::Kind(SpiceKind::UnknownCard))
            }
        }
    }

    // Roles of pins outside a subcircuit are a comment.
    fn is_comment(&self, card: Card) -> bool
        ensures { result ≡ is_comment card (reading_seen self.now) }
    {
        match card {
            Card::PinInfo => self.is_outside(),
            _ => false,
        }
    }

    #[tactic(auto, unfolding(crate::specs::Reading::words_step))]
    fn words(
        self,
        alloc: Global,
        table: &StrengthTable,
        line: usize,
        words: &[&[u8]],
    ) -> Result<Self, Refusal>
        requires { All IsUpper (texts words.now) }
        ensures { Gives kind_reported reading_seen result
            (words_step table.now line (texts words.now) (reading_seen self)) }
    {
        let [word, more @ ..] = words else {
            return Ok(self);
        };
        let card = card_of(word);
        if self.is_comment(card) {
            return Ok(self);
        }
        // A continuation of nothing is reported before its bytes are judged. What was read is dropped by a
        // call where it isn't handed on: drops are slow to prove.
        if matches!(card, Card::Stray) {
            drop(self);
            return Err(Refusal::Kind(SpiceKind::BadCard));
        }
        if !all_text(words) {
            drop(self);
            return Err(Refusal::Kind(SpiceKind::NotText));
        }
        self.card(alloc, table, card, line, word, more)
    }

    /// What the next logical line makes of what was read under a strength table.
    #[tactic(auto, unfolding(crate::specs::Reading::line_step))]
    pub(crate) fn line(
        self,
        alloc: Global,
        table: &StrengthTable,
        line: &Line,
    ) -> Result<Self, Refusal>
        ensures { Gives kind_reported reading_seen result (line_step table.now line.now (reading_seen self)) }
    {
        let Ok(text) = fold(alloc, line.text.as_bytes()) else {
            drop(self);
            return Err(Refusal::NoMemory);
        };
        let Ok(words) = spice_words(alloc, text.as_bytes()) else {
            drop(self);
            return Err(Refusal::NoMemory);
        };
        self.words(alloc, table, line.line, &words)
    }
}

fn is_header_word(word: &[u8]) -> bool
    ensures { result ≡ is_header_word word.now }
{
    is_name(word) && !is_sign(word)
}

// Whether each word may follow `.SUBCKT`.
fn all_header_words(words: &[&[u8]]) -> bool
    ensures { result ≡ list_all is_header_word (texts words.now) }
{
    let mut rest = words;
    'words: while let [word, more @ ..] = rest {
        if !is_header_word(word) {
            return false;
        }
        rest = more;
    }
    true
}

// Whether these are words after `.SUBCKT`: a name and one or more pins.
fn is_header(words: &[&[u8]]) -> bool
    ensures { result ≡ is_header (texts words.now) }
{
    match words {
        [_, _, ..] => all_header_words(words),
        _ => false,
    }
}
