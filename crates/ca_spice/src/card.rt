//! The cards of a cell netlist.
ghost use Rattle.std.specs.Prelude.{◌≡◌};
ghost use Rattle.ca_spice.specs.Card.{card_by_letter, is_ignored, card_of};

/// What a line is, by its first word.
#[derive(Clone, Copy, Debug, PartialEq, Eq)]
pub(crate) enum Card {
    Subckt,
    Ends,
    PinInfo,
    Mos,
    Resistor,
    Ignored,
    /// A continuation that continues nothing.
    Stray,
    Unknown,
}

#[tactic(auto, unfolding(crate::specs::Card::card_by_letter))]
fn card_by_letter(word: &[u8]) -> Card
    ensures { result ≡ card_by_letter word.now }
{
    match word {
        [b'M', ..] => Card::Mos,
        [b'R', ..] => Card::Resistor,
        [b'C' | b'D', ..] => Card::Ignored,
        [b'+', ..] => Card::Stray,
        _ => Card::Unknown,
    }
}

#[tactic(auto, unfolding(crate::specs::Card::is_ignored))]
fn is_ignored(word: &[u8]) -> bool
    ensures { result ≡ is_ignored word.now }
{
    word == b".GLOBAL".as_slice()
        || word == b".PARAM".as_slice()
        || word == b".OPTION".as_slice()
        || word == b".OPTIONS".as_slice()
        || word == b".END".as_slice()
}

/// The card that a first word begins. Its letters are in upper case.
#[tactic(auto, unfolding(crate::specs::Card::card_of))]
pub(crate) fn card_of(word: &[u8]) -> Card
    ensures { result ≡ card_of word.now }
{
    if word == b".SUBCKT".as_slice() {
        Card::Subckt
    } else if word == b".ENDS".as_slice() {
        Card::Ends
    } else if word == b"*.PININFO".as_slice() {
        Card::PinInfo
    } else if is_ignored(word) {
        Card::Ignored
    } else {
        card_by_letter(word)
    }
}
